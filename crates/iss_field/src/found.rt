//! What is found in a line, as far as fields ask.
ghost use Rattle.std.specs.Prelude.{◌≡◌, true, is_some, option_map, option_and_then};
ghost use Rattle.std.specs.Str.{bytes_eq};
ghost use Rattle.json.specs.Find.{get as get_named, get_member};
ghost use Rattle.json.specs.Value.{value_view, members_view};
ghost use Rattle.serde_json.specs.Find.{get, as_null, as_str, as_bool, as_number, as_u64};
ghost use Rattle.iss_field.specs.Seen.{seen, fits};

use crate::fitting::whole_number;
use json::Value;

/// The last member of that name, if the value is an object.
pub(crate) fn member<'v, 'a>(line: &'v Value<'a>, name: &str) -> Option<&'v Value<'a>>
    requires { fits (value_view line.now) ≡ true }
    ensures { option_map (λ found. seen found.now) result ≡ get name.now (seen line.now) }
{
    last_member(line, name)
}

fn last_member<'v, 'a>(line: &'v Value<'a>, name: &str) -> Option<&'v Value<'a>>
    ensures { option_map (λ found. value_view found.now) result ≡ get_named name.now (value_view line.now) }
{
    match line {
        Value::Object(members) => last_named(members, name),
        _ => None,
    }
}

/// The last member of that name.
fn last_named<'v, 'a>(members: &'v [(&'a str, Value<'a>)], name: &str) -> Option<&'v Value<'a>>
    ensures { option_map (λ found. value_view found.now) result ≡ get_member name.now (members_view members.now) }
{
    for (spelled, value) in members.iter().rev() {
        if is_named(spelled.as_bytes(), name.as_bytes()) {
            return Some(value);
        }
    }
    None
}

/// Whether a member is spelled as that name. A name is short, and known where it is looked up, so it costs least to compare
/// its bytes one by one.
pub(crate) fn is_named(spelled: &[u8], name: &[u8]) -> bool
    ensures { result ≡ bytes_eq spelled.now name.now }
{
    if spelled.len() != name.len() {
        return false;
    }
    for i in 0..name.len() {
        if spelled[i] != name[i] {
            return false;
        }
    }
    true
}

/// Whether the value is `null`.
#[tactic(auto, using(crate::proofs::Views::null_seen))]
pub(crate) fn is_null(found: &Value<'_>) -> bool
    ensures { result ≡ is_some (as_null (seen found.now)) }
{
    found.is_null()
}

/// The value's text, if it is one.
#[tactic(auto, using(crate::proofs::Views::text_seen))]
pub fn text<'v, 'a>(found: &'v Value<'a>) -> Option<&'a str>
    ensures { option_map (λ text. text.now) result ≡ as_str (seen found.now) }
{
    found.as_str()
}

/// The value's flag, if it is one.
#[tactic(auto, using(crate::proofs::Views::flag_seen))]
pub(crate) fn flag(found: &Value<'_>) -> Option<bool>
    ensures { result ≡ as_bool (seen found.now) }
{
    found.as_bool()
}

/// The value as a whole number, if it is one that fits 64 bits.
#[tactic(auto, using(crate::proofs::Views::whole_seen))]
pub(crate) fn whole(found: &Value<'_>) -> Option<u64>
    ensures { result ≡ option_and_then as_u64 (as_number (seen found.now)) }
{
    whole_number(found.as_number()?)
}
