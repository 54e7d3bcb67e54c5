//! What a gateway's answer to a call comes to.
ghost use Rattle.std.specs.Prelude.{◌≡◌, ◌≢◌, ◌<◌, ◌↔◌, IsTrue, IfOk, option_map};
ghost use Rattle.iss_model.specs.declared.limits.TheConstants.{INSTANCES};
ghost use Rattle.serde_json.specs.Read.{read as read_text};
ghost use Rattle.serde_json.specs.View.{view};
ghost use Rattle.iss_model.specs.declared.input.Outcome.TheVariants as outcome;
ghost use Rattle.iss_model.specs.Forms.{is_outcome};
ghost use Rattle.iss_jit.specs.declared.answers.TheConstants.{REFUSED};
ghost use Rattle.iss_jit.specs.Echoes.{FundsEchoes};
ghost use Rattle.iss_jit.specs.Plain.{funding};
ghost use Rattle.iss_jit.specs.Outcomes.{json_of, uuid_of, amount_echoed, has_token, amount_said, outcome_of_amount, outcome_of_value, outcome_of_json, outcome_of, CountsIfPart};

use crate::plain::{is_token, plain_texts};
use iss_amount::{read, whole};
use iss_model::{Currency, Opened, Outcome};
use serde_json::Value;
use std::alloc::{AllocError, Global};
use uuid::Uuid;

/// The status of a gateway that funds: OK of RFC 9110.
pub const FUNDED: u16 = 200;

/// The status of a gateway that refuses: Payment Required of RFC 9110.
pub const REFUSED: u16 = 402;

/// What an HTTP answer with this status and body to the request of a call comes to.
///
/// `Funded` exactly if the status is 200 and the body is a JSON object of RFC 8259 with the call's token and its amount.
/// The token is a UUID of RFC 9562 in any spelling. `Partial` exactly if it has a smaller amount, and the call permits a
/// part. `Refused` exactly if the status is 402, and else `Application`. Of members of one name the last counts.
#[tactic(auto, using(crate::proofs::Echoes::echo))]
pub fn answer(
    alloc: Global,
    status: u16,
    body: &[u8],
    opened: &Opened,
    instance: u64,
) -> Result<Outcome, AllocError>
    requires { instance < INSTANCES }
    ensures value { IfOk result (λ said. said ≡ outcome_of instance opened.now status body.now) }
    ensures refused { IfOk result (λ said. (said ≡ outcome.Refused) ↔ (status ≡ REFUSED)) }
    ensures never_connection { IfOk result (λ said. said ≢ outcome.Connection) }
    ensures form { IfOk result (λ said. IsTrue (is_outcome said)) }
    ensures part { IfOk result (λ said. CountsIfPart opened.now said) }
    ensures echo { FundsEchoes instance opened.now }
{
    outcome_of(alloc, status, body, opened, instance)
}

#[tactic(auto, unfolding(crate::specs::Outcomes::outcome_of))]
fn outcome_of(
    alloc: Global,
    status: u16,
    body: &[u8],
    opened: &Opened,
    instance: u64,
) -> Result<Outcome, AllocError>
    requires { instance < INSTANCES }
    ensures { IfOk result (λ said. said ≡ outcome_of instance opened.now status body.now) }
{
    if status == REFUSED {
        Ok(Outcome::Refused)
    } else if status == FUNDED {
        outcome_of_body(alloc, body, opened, instance)
    } else {
        Ok(Outcome::Application)
    }
}

/// What the body of a gateway that funds comes to.
fn outcome_of_body(
    alloc: Global,
    body: &[u8],
    opened: &Opened,
    instance: u64,
) -> Result<Outcome, AllocError>
    requires { instance < INSTANCES }
    ensures { IfOk result (λ said. said ≡ outcome_of_json instance opened.now (json_of body.now)) }
{
    if let Some((token, amount)) = plain_texts(body) {
        return Ok(outcome_of_texts(token, amount, opened, instance));
    }
    match value_of(alloc, body)? {
        Some(value) => Ok(outcome_of_value(&value, opened, instance)),
        None => Ok(Outcome::Application),
    }
}

/// What the texts of a token and an amount come to.
#[tactic(auto, unfolding(crate::specs::Outcomes::outcome_of_value, crate::specs::Outcomes::has_token, crate::specs::Outcomes::uuid_of, crate::specs::Outcomes::amount_said, crate::specs::Outcomes::amount_echoed))]
fn outcome_of_texts(token: &[u8], amount: &[u8], opened: &Opened, instance: u64) -> Outcome
    requires { instance < INSTANCES }
    ensures { result ≡ outcome_of_value instance opened.now (funding token.now amount.now) }
{
    if is_token(token, opened, instance) {
        outcome_of_amount(read(amount, opened.currency), opened)
    } else {
        Outcome::Application
    }
}

#[tactic(auto, unfolding(crate::specs::Outcomes::outcome_of_value))]
fn outcome_of_value(value: &Value, opened: &Opened, instance: u64) -> Outcome
    requires { instance < INSTANCES }
    ensures { result ≡ outcome_of_value instance opened.now (view value.now) }
{
    if has_token(value, opened, instance) {
        outcome_of_amount(amount_said(value, opened.currency), opened)
    } else {
        Outcome::Application
    }
}

/// What a funded amount comes to: the call's own funds it, and a smaller one a part of it if the call permits that.
fn outcome_of_amount(amount: Option<u64>, opened: &Opened) -> Outcome
    ensures { result ≡ outcome_of_amount opened.now amount }
{
    match amount {
        None => Outcome::Application,
        Some(amount) if amount == opened.amount => Outcome::Funded,
        Some(amount) if opened.partial && amount < opened.amount => {
            Outcome::Partial(opened.currency, amount)
        }
        Some(_) => Outcome::Application,
    }
}

#[tactic(auto, unfolding(crate::specs::Outcomes::has_token))]
fn has_token(value: &Value, opened: &Opened, instance: u64) -> bool
    requires { instance < INSTANCES }
    ensures { result ≡ has_token instance opened.now (view value.now) }
{
    match value.get("token").and_then(uuid_of) {
        Some(id) => id == opened.call.uuid(instance),
        None => false,
    }
}

#[tactic(auto, unfolding(crate::specs::Outcomes::amount_said))]
fn amount_said(value: &Value, currency: Currency) -> Option<u64>
    ensures { result ≡ amount_said currency (view value.now) }
{
    amount_echoed(value.get("amount")?, currency)
}

#[tactic(auto, unfolding(crate::specs::Outcomes::uuid_of))]
fn uuid_of(value: &Value) -> Option<Uuid>
    ensures { result ≡ uuid_of (view value.now) }
{
    match Uuid::parse_str(value.as_str()?) {
        Ok(id) => Some(id),
        Err(_) => None,
    }
}

/// The minor units of a text such as `10.00`, or of a number of whole units.
#[tactic(auto, unfolding(crate::specs::Outcomes::amount_echoed))]
fn amount_echoed(value: &Value, currency: Currency) -> Option<u64>
    ensures { result ≡ amount_echoed currency (view value.now) }
{
    match value.as_str() {
        Some(text) => read(text.as_bytes(), currency),
        None => whole(value.as_u64()?, currency),
    }
}

/// The JSON value that the bytes are, or `None` if they are none.
#[tactic(auto, unfolding(crate::specs::Outcomes::json_of))]
fn value_of(alloc: Global, body: &[u8]) -> Result<Option<Value>, AllocError>
    ensures { IfOk result (λ found. option_map view found ≡ json_of body.now) }
{
    match str::from_utf8(body) {
        Ok(text) => value_of_text(alloc, text),
        Err(_) => Ok(None),
    }
}

fn value_of_text(alloc: Global, text: &str) -> Result<Option<Value>, AllocError>
    ensures { IfOk result (λ found. option_map view found ≡ read_text text.now) }
{
    match Value::from_str(alloc, text) {
        Ok(value) => Ok(Some(value)),
        Err(error) if error.is_memory() => Err(AllocError),
        Err(_) => Ok(None),
    }
}
