//! Whether the numbers of a value are numbers that data has: whole ones of 64 bits, and finite ones.
ghost use Rattle.std.specs.Prelude.{◌≡◌, ◌==◌, ◌<◌, length, true, false, is_some, slice_index, option_and_then};
ghost use Rattle.std.specs.Float.{float_is_finite, binary64};
ghost use Rattle.fast_float.specs.Text.{nearest};
ghost use Rattle.json.specs.Value.{value_view, items_view, members_view};
ghost use Rattle.serde_json.specs.Find.{as_u64};
ghost use Rattle.serde_json.specs.Read.{number_of, number_from};
ghost use Rattle.iss_field.specs.Seen.{fits, items_fit, members_fit, is_fit_object};

use fast_float::Numeral;
use json::Value;

/// Whether the value is an object and all its numbers fit.
#[tactic(auto, unfolding(crate::specs::Seen::is_fit_object))]
pub(crate) fn is_fit_object(value: &Value<'_>) -> bool
    ensures { result ≡ is_fit_object (value_view value.now) }
{
    match value {
        Value::Object(_) => fits(value),
        _ => false,
    }
}

/// Whether all numbers of the value fit.
#[tactic(auto, unfolding(crate::specs::Seen::fits))]
#[cycle(fits)]
fn fits(value: &Value<'_>) -> bool
    ensures { result ≡ fits (value_view value.now) }
{
    match value {
        Value::Number(text) => number_fits(text),
        Value::Array(items) => items_fit(items),
        Value::Object(members) => members_fit(members),
        Value::Null | Value::Bool(_) | Value::String(_) => true,
    }
}

#[cycle(fits)]
fn items_fit<'a>(items: &Vec<Value<'a>>) -> bool
    ensures { result ≡ items_fit (items_view items.now.items) }
{
    for item in items {
        if !fits(item) {
            return false;
        }
    }
    true
}

#[cycle(fits)]
fn members_fit<'a>(members: &Vec<(&'a str, Value<'a>)>) -> bool
    ensures { result ≡ members_fit (members_view members.now.items) }
{
    for member in members {
        if !is_text(&member.1) && !fits(&member.1) {
            return false;
        }
    }
    true
}

/// Whether the value is a text, which has no number. Most members are.
#[tactic(auto, unfolding(crate::specs::Seen::fits))]
fn is_text(value: &Value<'_>) -> bool
    ensures { result ≡ true → fits (value_view value.now) ≡ true }
{
    match value {
        Value::String(_) => true,
        _ => false,
    }
}

fn number_fits(text: &str) -> bool
    ensures { result ≡ is_some (number_of text.now) }
{
    let bytes = text.as_bytes();
    if has_minus(bytes) {
        negative_fits(&Numeral::scan(&bytes[1..]))
    } else {
        positive_fits(&Numeral::scan(bytes))
    }
}

fn positive_fits(numeral: &Numeral<'_>) -> bool
    ensures { result ≡ is_some (number_from false numeral.now) }
{
    numeral.to_u64().is_some() || is_finite(false, numeral)
}

fn negative_fits(numeral: &Numeral<'_>) -> bool
    ensures { result ≡ is_some (number_from true numeral.now) }
{
    if let Some(number) = numeral.to_i64(true) {
        if number < 0 {
            return true;
        }
    }
    is_finite(true, numeral)
}

fn is_finite(negative: bool, numeral: &Numeral<'_>) -> bool
    ensures { result ≡ float_is_finite (nearest binary64 negative numeral.now) }
{
    numeral.to_float::<f64>(negative).is_finite()
}

/// The whole number that a number's text spells, if it fits 64 bits.
pub(crate) fn whole_number(text: &str) -> Option<u64>
    ensures { result ≡ option_and_then as_u64 (number_of text.now) }
{
    whole_of(text.as_bytes())
}

/// The whole number that the bytes of a number spell, if it fits 64 bits.
pub(crate) fn whole_of(bytes: &[u8]) -> Option<u64>
    ensures { result ≡ option_and_then as_u64 (number_of bytes.now) }
{
    if has_minus(bytes) {
        None
    } else {
        positive_whole(&Numeral::scan(bytes))
    }
}

fn positive_whole(numeral: &Numeral<'_>) -> Option<u64>
    ensures { result ≡ option_and_then as_u64 (number_from false numeral.now) }
{
    numeral.to_u64()
}

fn has_minus(bytes: &[u8]) -> bool
    ensures value { result ≡ (slice_index bytes.now 0 == 45) }
    ensures some { result ≡ true → 0 < length bytes.now }
{
    !bytes.is_empty() && bytes[0] == b'-'
}
