//! The members of a message, each in its form: `None` if it is absent or not of the form.
ghost use Rattle.std.specs.Prelude.{◌≡◌, option_map};
ghost use Rattle.std.specs.List.{list_all};
ghost use Rattle.serde_json.specs.View.{view};
ghost use Rattle.iss_model.specs.Amounts.{is_digit};
ghost use Rattle.iss_field.specs.Values.{token_of, currency_value, limit_of};
ghost use Rattle.iss_jit.specs.Outcomes.{uuid_of, amount_echoed};
ghost use Rattle.iss_gateway.specs.Readings.{member, is_four_digits, four_digits, method_named, method_of, number_of, partial_of};

use iss_amount::{from_code, read, read_limit, whole, whole_limit};
use iss_model::limits::{FIRST_NUMBER, GREATEST_NUMBER};
use iss_model::{Currency, Method, Token};
use serde_json::Value;
use uuid::Uuid;

/// A text that is a token.
#[tactic(auto, unfolding(iss_field::specs::Values::token_of))]
pub(crate) fn token(value: &Value, name: &str) -> Option<Token>
    ensures { result ≡ member token_of name.now (view value.now) }
{
    Token::new(value.get(name)?.as_str()?.as_bytes())
}

/// A text that is a UUID of RFC 9562, in any of its spellings.
pub(crate) fn uuid(value: &Value, name: &str) -> Option<Uuid>
    ensures { result ≡ member uuid_of name.now (view value.now) }
{
    uuid_of(value.get(name)?)
}

#[tactic(auto, unfolding(iss_jit::specs::Outcomes::uuid_of))]
fn uuid_of(value: &Value) -> Option<Uuid>
    ensures { result ≡ uuid_of (view value.now) }
{
    match Uuid::parse_str(value.as_str()?) {
        Ok(id) => Some(id),
        Err(_) => None,
    }
}

/// A text that is the code of a currency.
#[tactic(auto, unfolding(iss_field::specs::Values::currency_value))]
pub(crate) fn currency(value: &Value, name: &str) -> Option<Currency>
    ensures { result ≡ member currency_value name.now (view value.now) }
{
    from_code(value.get(name)?.as_str()?.as_bytes())
}

/// An amount in minor units of the currency, of a text such as `10.00` or of a number of whole units.
#[tactic(auto, unfolding(iss_jit::specs::Outcomes::amount_echoed))]
pub(crate) fn amount(value: &Value, name: &str, currency: Currency) -> Option<u64>
    ensures { result ≡ member (amount_echoed currency) name.now (view value.now) }
{
    let found = value.get(name)?;
    match found.as_str() {
        Some(text) => read(text.as_bytes(), currency),
        None => whole(found.as_u64()?, currency),
    }
}

/// The same, which may be 0 and as great as a limit.
#[tactic(auto, unfolding(iss_field::specs::Values::limit_of))]
pub(crate) fn limit(value: &Value, name: &str, currency: Currency) -> Option<u64>
    ensures { result ≡ member (limit_of currency) name.now (view value.now) }
{
    let found = value.get(name)?;
    match found.as_str() {
        Some(text) => read_limit(text.as_bytes(), currency),
        None => whole_limit(found.as_u64()?, currency),
    }
}

/// The number of a call or notice.
#[tactic(auto, unfolding(crate::specs::Readings::number_of, iss_field::specs::Values::whole_within))]
pub(crate) fn number(value: &Value, name: &str) -> Option<u32>
    ensures { result ≡ member number_of name.now (view value.now) }
{
    let number = u32::try_from(value.get(name)?.as_u64()?).ok()?;
    (FIRST_NUMBER..=GREATEST_NUMBER)
        .contains(&number)
        .then_some(number)
}

/// A text of four digits.
#[tactic(auto, unfolding(crate::specs::Readings::four_digits))]
pub(crate) fn four_digits<'v>(value: &'v Value, name: &str) -> Option<&'v str>
    ensures { option_map (λ text. text.now) result ≡ member four_digits name.now (view value.now) }
{
    let text = value.get(name)?.as_str()?;
    is_four_digits(text.as_bytes()).then_some(text)
}

fn is_four_digits(text: &[u8]) -> bool
    ensures { result ≡ is_four_digits text.now }
{
    text.len() == 4 && all_digits(text)
}

fn all_digits(text: &[u8]) -> bool
    ensures { result ≡ list_all is_digit text.now }
{
    text.iter().all(|byte| is_digit(*byte))
}

fn is_digit(byte: u8) -> bool
    ensures { result ≡ is_digit byte }
{
    byte.is_ascii_digit()
}

/// Whether a part may be funded: `Some(false)` if there is no such member.
#[tactic(auto, unfolding(crate::specs::Readings::partial_of))]
pub(crate) fn partial(value: &Value) -> Option<bool>
    ensures { result ≡ partial_of (view value.now) }
{
    match value.get("partial") {
        Some(found) if found.is_null() => Some(false),
        Some(found) => found.as_bool(),
        None => Some(false),
    }
}

/// What a message is about.
#[tactic(auto, unfolding(crate::specs::Readings::method_of))]
pub(crate) fn method(value: &Value, name: &str) -> Option<Method>
    ensures { result ≡ member method_of name.now (view value.now) }
{
    method_named(value.get(name)?.as_str()?)
}

#[tactic(auto, unfolding(crate::specs::Readings::method_named))]
fn method_named(text: &str) -> Option<Method>
    ensures { result ≡ method_named text.now }
{
    match text {
        "pgfs.authorization" => Some(Method::Authorization),
        "pgfs.authorization.incremental" => Some(Method::Incremental),
        "x.void" => Some(Method::Void),
        "x.standin" => Some(Method::StandIn),
        "pgfs.authorization.reversal" => Some(Method::Reversal),
        "pgfs.authorization.capture" => Some(Method::Capture),
        "pgfs.refund" => Some(Method::Refund),
        "x.expiry" => Some(Method::Expiry),
        _ => None,
    }
}
