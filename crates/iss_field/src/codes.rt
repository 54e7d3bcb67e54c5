//! Merchant category codes of ISO 18245: one, and a list of them.
ghost use Rattle.std.specs.Prelude.{◌≡◌, ◌-◌, ◌≤◌, ◌&&◌, nat_le, Some, None, [], IfSome, IfOk, option_map, if◌then◌else◌};
ghost use Rattle.json.specs.Find.{as_array};
ghost use Rattle.json.specs.Value.{value_view, items_view};
ghost use Rattle.iss_model.specs.Amounts.{is_digit};
ghost use Rattle.iss_field.specs.Seen.{seen, seen_items};
ghost use Rattle.iss_field.specs.Values.{mcc_of, mcc_of_text, codes_with, mccs_of, mccs_of_items};

use crate::fields::Form;
use crate::found::text;
use iss_model::Mccs;
use iss_model::limits::MOST_MCCS;
use json::Value;
use std::alloc::{AllocError, Global};
use std::collections::BTreeSet;

/// A text of four digits.
#[derive(Clone, Copy)]
pub struct MccForm;

impl Form for MccForm {
    type Said = u16;

    ghost said = { λ _. mcc_of };

    #[tactic(auto, unfolding(crate::specs::Values::mcc_of))]
    fn read(self, found: &Value<'_>) -> Option<u16> {
        mcc_of_text(text(found)?.as_bytes())
    }
}

#[tactic(auto, unfolding(crate::specs::Values::mcc_of_text))]
pub(crate) fn mcc_of_text(text: &[u8]) -> Option<u16>
    ensures { result ≡ mcc_of_text text.now }
{
    match text {
        [a, b, c, d] => Some(1000 * digit(*a)? + 100 * digit(*b)? + 10 * digit(*c)? + digit(*d)?),
        _ => None,
    }
}

fn digit(byte: u8) -> Option<u16>
    ensures value { result ≡ if is_digit byte then Some (byte - 48) else None }
    ensures small { IfSome result (λ n. n ≤ 9) }
{
    if byte.is_ascii_digit() {
        Some(u16::from(byte - b'0'))
    } else {
        None
    }
}

/// The codes of an array of 1 to 1000, rising and each once, or `None` if it is no such array.
pub(crate) fn mccs(alloc: Global, found: &Value<'_>) -> Result<Option<Mccs>, AllocError>
    ensures { IfOk result (λ codes. codes ≡ mccs_of (seen found.now)) }
{
    match array(found) {
        Some(items) => mccs_of_items(alloc, items),
        None => Ok(None),
    }
}

/// The items of an array.
fn array<'v, 'a>(found: &'v Value<'a>) -> Option<&'v Vec<Value<'a>>>
    ensures { option_map (λ items. items_view items.now.items) result ≡ as_array (value_view found.now) }
{
    match found {
        Value::Array(items) => Some(items),
        _ => None,
    }
}

fn mccs_of_items(alloc: Global, items: &[Value<'_>]) -> Result<Option<Mccs>, AllocError>
    ensures { IfOk result (λ codes. codes ≡ mccs_of_items (seen_items items.now)) }
{
    if !is_count(items.len()) {
        return Ok(None);
    }
    match codes_of(alloc, items)? {
        Some(codes) => Ok(Some(Mccs::from_rising(listed(alloc, &codes)?))),
        None => Ok(None),
    }
}

/// Whether a group may have `count` codes.
fn is_count(count: usize) -> bool
    ensures { result ≡ (nat_le 1 count && nat_le count MOST_MCCS) }
{
    (1..=MOST_MCCS).contains(&count)
}

/// The codes of the items, or `None` if one isn't a code.
fn codes_of(alloc: Global, items: &[Value<'_>]) -> Result<Option<BTreeSet<u16>>, AllocError>
    ensures { IfOk result (λ codes. option_map (λ set. set.keys) codes ≡ codes_with [] (seen_items items.now)) }
{
    let mut codes = BTreeSet::new(alloc);
    for item in items {
        match MccForm.read(item) {
            Some(code) => codes.insert(code)?,
            None => return Ok(None),
        };
    }
    Ok(Some(codes))
}

fn listed(alloc: Global, set: &BTreeSet<u16>) -> Result<Vec<u16>, AllocError>
    ensures { IfOk result (λ codes. codes.items ≡ set.now.keys) }
{
    let mut codes = Vec::new(alloc);
    for code in set {
        codes.push(*code)?;
    }
    Ok(codes)
}
