//! Objects of plain members, as most lines are: each name and text is ASCII of which JSON escapes nothing, each number whole, and nothing
//! stands between them. They are read in one pass over the bytes.
ghost use Rattle.std.specs.Prelude.{◌≡◌, ◌+◌, ◌<◌, ◌≤◌, [], ◌∷◌, ◌++◌, length, drop, IfOk, IfSome, Some};
ghost use Rattle.std.specs.Char.{is_ascii_digit};
ghost use Rattle.std.specs.List.{prefix_len};
ghost use Rattle.std.specs.Str.{IsCharBoundary, IsUtf8};
ghost use Rattle.json.specs.Json.{object};
ghost use Rattle.json.specs.Print.{IsNumber, quoted};
ghost use Rattle.json.specs.Value.{value_view, members_view};
ghost use Rattle.iss_field.specs.PlainObjects.{is_plain_ascii, IsPlainValue, plain_text, flag_text};
ghost use Rattle.iss_field.specs.Seen.{json_text};

use crate::members::is_end;
use json::Value;
use std::alloc::{AllocError, Global};

/// How many members are read so at most: more than an event has.
const MOST_MEMBERS: usize = 16;

/// The members of an object of plain ones, or `None` if the text isn't such an object, or one of more than 16.
pub(crate) fn plain_members<'a>(
    alloc: Global,
    text: &'a str,
) -> Result<Option<Vec<(&'a str, Value<'a>)>>, AllocError>
    ensures { IfOk result (λ found. IfSome found (λ members. json_text text.now ≡ Some (object (members_view members.items)))) }
{
    let mut members = Vec::with_capacity(alloc, MOST_MEMBERS)?;
    let mut opener = b'{';
    let mut rest = text;
    for _ in 0..MOST_MEMBERS {
        let Some((name, after_name)) = quoted_after(opener, rest) else {
            return Ok(None);
        };
        let Some((value, after)) = value_after(after_name) else {
            return Ok(None);
        };
        members.push((name, value))?;
        if is_end(after.as_bytes()) {
            return Ok(Some(members));
        }
        opener = b',';
        rest = after;
    }
    Ok(None)
}

/// The plain value after a colon, and what follows it.
fn value_after(rest: &str) -> Option<(Value<'_>, &str)>
    ensures plain { IfSome result (λ found. IsPlainValue (value_view found.0)) }
    ensures text { IfSome result (λ found. IsUtf8 found.1.now) }
    ensures spelled { IfSome result (λ found. rest.now ≡ 58 ∷ (plain_text (value_view found.0) ++ found.1.now)) }
{
    if let Some((text, after)) = quoted_after(b':', rest) {
        return Some((Value::String(text), after));
    }
    if let Some((number, after)) = number_after(rest) {
        return Some((Value::Number(number), after));
    }
    let (flag, after) = flag_after(rest)?;
    Some((Value::Bool(flag), after))
}

/// The plain text in quotes after this byte, and what follows it.
fn quoted_after(first: u8, rest: &str) -> Option<(&str, &str)>
    ensures text { IfSome result (λ found. IsUtf8 found.1.now) }
    ensures spelled { IfSome result (λ found. rest.now ≡ first ∷ (quoted found.0.now ++ found.1.now)) }
{
    let bytes = rest.as_bytes();
    if bytes.len() < 2 || bytes[0] != first || bytes[1] != b'"' {
        return None;
    }
    let end = plain_end(bytes, 2);
    if end == bytes.len() || bytes[end] != b'"' {
        return None;
    }
    let after = cut(rest, end + 1)?;
    Some((&rest[2..end], after))
}

/// The number after a colon, and what follows it. It has no sign, no fraction and no exponent, and doesn't begin with 0.
fn number_after(rest: &str) -> Option<(&str, &str)>
    ensures number { IfSome result (λ found. IsNumber found.0.now) }
    ensures text { IfSome result (λ found. IsUtf8 found.1.now) }
    ensures spelled { IfSome result (λ found. rest.now ≡ 58 ∷ (found.0.now ++ found.1.now)) }
{
    let bytes = rest.as_bytes();
    if bytes.len() < 2 || bytes[0] != b':' || bytes[1] < b'1' || bytes[1] > b'9' {
        return None;
    }
    let end = digits_end(bytes, 2);
    let after = cut(rest, end)?;
    Some((&rest[1..end], after))
}

/// The flag after a colon, and what follows it.
fn flag_after(rest: &str) -> Option<(bool, &str)>
    ensures text { IfSome result (λ found. IsUtf8 found.1.now) }
    ensures spelled { IfSome result (λ found. rest.now ≡ 58 ∷ (flag_text found.0 ++ found.1.now)) }
{
    let bytes = rest.as_bytes();
    if bytes.starts_with(b":true") {
        return Some((true, cut(rest, 5)?));
    }
    if bytes.starts_with(b":false") {
        return Some((false, cut(rest, 6)?));
    }
    None
}

/// What follows a name or a value: a colon, a comma or a closing brace, with all after it.
fn cut(rest: &str, end: usize) -> Option<&str>
    ensures after { IfSome result (λ after. (end < length rest.now) × (after.now ≡ drop end rest.now)) }
    ensures boundary { IfSome result (λ _. IsCharBoundary rest.now end) }
    ensures text { IfSome result (λ after. IsUtf8 after.now) }
{
    let bytes = rest.as_bytes();
    if end < bytes.len() && matches!(bytes[end], b',' | b':' | b'}') {
        Some(&rest[end..])
    } else {
        None
    }
}

/// The first byte from there on that isn't plain, or the length.
pub(crate) fn plain_end(bytes: &[u8], from: usize) -> usize
    requires { from ≤ length bytes.now }
    ensures run { result ≡ from + prefix_len is_plain_ascii (drop from bytes.now) }
    ensures bound { result ≤ length bytes.now }
{
    for i in from..bytes.len() {
        if !is_plain(bytes[i]) {
            return i;
        }
    }
    bytes.len()
}

/// Whether a byte is of ASCII, and JSON doesn't escape it.
fn is_plain(byte: u8) -> bool
    ensures { result ≡ is_plain_ascii byte }
{
    (b' '..128).contains(&byte) && byte != b'"' && byte != b'\\'
}

/// The first byte from there on that isn't a digit, or the length.
pub(crate) fn digits_end(bytes: &[u8], from: usize) -> usize
    requires { from ≤ length bytes.now }
    ensures run { result ≡ from + prefix_len is_ascii_digit (drop from bytes.now) }
    ensures bound { result ≤ length bytes.now }
{
    for i in from..bytes.len() {
        if !bytes[i].is_ascii_digit() {
            return i;
        }
    }
    bytes.len()
}
