//! A body that is read as a message.
ghost use Rattle.std.specs.Prelude.{◌≡◌, IfOk, IfSome, IsTrue, option_map};
ghost use Rattle.serde_json.specs.Read.{read as read_json};
ghost use Rattle.serde_json.specs.View.{view};
ghost use Rattle.iss_jit.specs.Outcomes.{json_of};
ghost use Rattle.iss_gateway.specs.Messages.{is_within};
ghost use Rattle.iss_gateway.specs.Readings.{asks, voided_of, ask_of, note_of, message_of_method, message_of_value, message_read};

use crate::Message;
use crate::members::{amount, currency, four_digits, limit, method, number, partial, token, uuid};
use iss_model::Method;
use serde_json::Value;
use std::alloc::{AllocError, Global};
use uuid::Uuid;

/// The message that a body is, `None` exactly if it is no JSON object with the members of a request's or notice's text in
/// their forms. Other members are passed over, and of two members of one name the last counts.
#[tactic(auto, unfolding(crate::specs::Readings::message_read), using(crate::proofs::Within::read_within))]
pub fn read_text(alloc: Global, body: &[u8]) -> Result<Option<Message>, AllocError>
    ensures message { IfOk result (λ read. read ≡ message_read body.now) }
    ensures within { IfOk result (λ read. IfSome read (λ m. IsTrue (is_within m))) }
{
    match value_of(alloc, body)? {
        Some(value) => Ok(message_of_value(&value)),
        None => Ok(None),
    }
}

/// The JSON value that the bytes are, or `None` if they are none.
#[tactic(auto, unfolding(iss_jit::specs::Outcomes::json_of))]
fn value_of(alloc: Global, body: &[u8]) -> Result<Option<Value>, AllocError>
    ensures { IfOk result (λ found. option_map view found ≡ json_of body.now) }
{
    match str::from_utf8(body) {
        Ok(text) => value_of_text(alloc, text),
        Err(_) => Ok(None),
    }
}

fn value_of_text(alloc: Global, text: &str) -> Result<Option<Value>, AllocError>
    ensures { IfOk result (λ found. option_map view found ≡ read_json text.now) }
{
    match Value::from_str(alloc, text) {
        Ok(value) => Ok(Some(value)),
        Err(error) if error.is_memory() => Err(AllocError),
        Err(_) => Ok(None),
    }
}

#[tactic(auto, unfolding(crate::specs::Readings::message_of_value))]
fn message_of_value(value: &Value) -> Option<Message>
    ensures { result ≡ message_of_value (view value.now) }
{
    message_of_method(method(value, "method")?, value)
}

#[tactic(auto, unfolding(crate::specs::Readings::message_of_method))]
fn message_of_method(method: Method, value: &Value) -> Option<Message>
    ensures { result ≡ message_of_method method (view value.now) }
{
    if asks(method) {
        ask_of(value)
    } else {
        note_of(method, value)
    }
}

/// Whether a message of this method is a request.
fn asks(method: Method) -> bool
    ensures { result ≡ asks method }
{
    match method {
        Method::Authorization | Method::Incremental => true,
        Method::Void
        | Method::StandIn
        | Method::Reversal
        | Method::Capture
        | Method::Refund
        | Method::Expiry => false,
    }
}

#[tactic(auto, unfolding(crate::specs::Readings::ask_of))]
fn ask_of(value: &Value) -> Option<Message>
    ensures { result ≡ ask_of (view value.now) }
{
    let currency = currency(value, "currency")?;
    let amount = amount(value, "amount", currency)?;
    let _card = token(value, "card")?;
    let _event = token(value, "event")?;
    let _mcc = four_digits(value, "mcc")?;
    let _mid = token(value, "mid")?;
    let _number = number(value, "number")?;
    let partial = partial(value)?;
    let id = uuid(value, "token")?;
    let _txn = token(value, "txn")?;
    let user = token(value, "user")?;
    Some(Message::Ask {
        token: id,
        amount,
        currency,
        user,
        partial,
    })
}

#[tactic(auto, unfolding(crate::specs::Readings::note_of))]
fn note_of(method: Method, value: &Value) -> Option<Message>
    ensures { result ≡ note_of method (view value.now) }
{
    let currency = currency(value, "currency")?;
    let _amount = limit(value, "amount", currency)?;
    let gateway = limit(value, "gateway", currency)?;
    let number = number(value, "notice")?;
    let voided = voided_of(method, value)?;
    let _txn = token(value, "txn")?;
    let user = token(value, "user")?;
    Some(Message::Note {
        number,
        token: voided,
        currency,
        user,
        gateway,
    })
}

/// The token of the call that a notice voids, if it is a void.
fn voided_of(method: Method, value: &Value) -> Option<Option<Uuid>>
    ensures { result ≡ voided_of method (view value.now) }
{
    match method {
        Method::Void => uuid(value, "token").map(Some),
        _ => Some(None),
    }
}
