//! Members of a plain object, read one after the other in the order in which they stand: no object is made of them.
ghost use Rattle.std.specs.Prelude.{◌≡◌, ◌↔◌, [], ◌∷◌, ◌++◌, IfSome, IfNone, length, true};
ghost use Rattle.std.specs.Char.{is_ascii_digit};
ghost use Rattle.std.specs.List.{prefix_len};
ghost use Rattle.json.specs.Json.{boolean, number, string};
ghost use Rattle.json.specs.Print.{IsNumber, quoted};
ghost use Rattle.iss_field.specs.Names.{name_text};
ghost use Rattle.iss_field.specs.PlainObjects.{flag_text, member_text};
ghost use Rattle.iss_field.specs.NoMember.{HasNoText, HasNoNumber, HasNoFlag, HasNoValue, NoTextFirst, NoNumberFirst, NoFlagFirst};
ghost use Rattle.iss_field.specs.Wholes.{IsWhole};

use crate::Name;
use crate::fitting::whole_of;
use crate::found::is_named;
use crate::plain::{digits_end, plain_end};

/// The text of the member of that name that stands after the byte `first`, and what follows it. It is `None` if another member stands
/// there, or JSON escapes something in its text.
#[inline(always)]
pub fn text_member<'a>(first: u8, name: Name, rest: &'a [u8]) -> Option<(&'a [u8], &'a [u8])>
    ensures spelled { IfSome result (λ found. rest.now ≡ member_text first (name_text name) (string found.0.now) found.1.now) }
    ensures none { IfNone result (HasNoText first (name_text name) rest.now) }
{
    quoted_text(value_of(first, name, rest)?)
}

/// A whole number of 64 bits with its digits, of which the first isn't 0.
#[derive(Clone, Copy)]
pub struct Whole<'a> {
    pub(crate) digits: &'a [u8],
    pub(crate) value: u64,
}

impl Whole<'_> {
    /// The number.
    pub fn value(&self) -> u64
        ensures { result ≡ self.now.value }
    {
        self.value
    }
}

/// The number of the member of that name that stands after the byte `first`, and what follows it. It is `None` if another member stands
/// there, or its value begins with another byte than 1 to 9, or is greater than 64 bits hold.
#[inline(always)]
pub fn number_member<'a>(first: u8, name: Name, rest: &'a [u8]) -> Option<(Whole<'a>, &'a [u8])>
    ensures whole { IfSome result (λ found. IsWhole found.0) }
    ensures spelled { IfSome result (λ found. rest.now ≡ member_text first (name_text name) (number found.0.digits.now) found.1.now) }
    ensures none { IfNone result (HasNoNumber first (name_text name) rest.now) }
{
    let (digits, after) = number_text(value_of(first, name, rest)?)?;
    let value = whole_of(digits)?;
    Some((Whole { digits, value }, after))
}

/// The flag of the member of that name that stands after the byte `first`, and what follows it. It is `None` if another member stands
/// there, or its value is no flag.
#[inline(always)]
pub fn flag_member(first: u8, name: Name, rest: &[u8]) -> Option<(bool, &[u8])>
    ensures spelled { IfSome result (λ found. rest.now ≡ member_text first (name_text name) (boolean found.0) found.1.now) }
    ensures none { IfNone result (HasNoFlag first (name_text name) rest.now) }
{
    flag_value(value_of(first, name, rest)?)
}

/// Whether this is the brace that closes an object, and nothing after it.
pub fn is_end(rest: &[u8]) -> bool
    ensures { result ≡ true ↔ rest.now ≡ 125 ∷ [] }
{
    rest.len() == 1 && rest[0] == b'}'
}

/// What follows the colon of the member of that name that stands after the byte `first`.
#[inline(always)]
fn value_of(first: u8, name: Name, rest: &[u8]) -> Option<&[u8]>
    ensures spelled { IfSome result (λ value. rest.now ≡ first ∷ (quoted (name_text name) ++ (58 ∷ value.now))) }
    ensures none { IfNone result (HasNoValue first (name_text name) rest.now) }
{
    let text = name.text().as_bytes();
    let end = text.len() + 2;
    if rest.len() < end + 2 || rest[0] != first || rest[1] != b'"' {
        return None;
    }
    if rest[end] != b'"' || rest[end + 1] != b':' || !is_named(&rest[2..end], text) {
        return None;
    }
    Some(&rest[end + 2..])
}

/// The plain text in quotes that comes first, and what follows it.
fn quoted_text(rest: &[u8]) -> Option<(&[u8], &[u8])>
    ensures spelled { IfSome result (λ found. rest.now ≡ quoted found.0.now ++ found.1.now) }
    ensures none { IfNone result (NoTextFirst rest.now) }
{
    if rest.is_empty() || rest[0] != b'"' {
        return None;
    }
    let end = plain_end(rest, 1);
    if end == rest.len() || rest[end] != b'"' {
        return None;
    }
    Some((&rest[1..end], &rest[end + 1..]))
}

/// The digits that come first, of which the first isn't 0, and what follows them.
fn number_text(rest: &[u8]) -> Option<(&[u8], &[u8])>
    ensures number { IfSome result (λ found. IsNumber found.0.now) }
    ensures spelled { IfSome result (λ found. rest.now ≡ found.0.now ++ found.1.now) }
    ensures all { IfSome result (λ found. prefix_len is_ascii_digit rest.now ≡ length found.0.now) }
    ensures none { IfNone result (NoNumberFirst rest.now) }
{
    if rest.is_empty() || rest[0] < b'1' || rest[0] > b'9' {
        return None;
    }
    let end = digits_end(rest, 1);
    Some((&rest[..end], &rest[end..]))
}

/// The flag that comes first, and what follows it.
fn flag_value(rest: &[u8]) -> Option<(bool, &[u8])>
    ensures spelled { IfSome result (λ found. rest.now ≡ flag_text found.0 ++ found.1.now) }
    ensures none { IfNone result (NoFlagFirst rest.now) }
{
    if let Some(after) = rest.strip_prefix(b"true") {
        return Some((true, after));
    }
    let after = rest.strip_prefix(b"false")?;
    Some((false, after))
}
