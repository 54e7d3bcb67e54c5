//! The length of a body, as the headers give it.
ghost use Rattle.std.specs.Prelude.{◌≡◌, ◌≤◌, length};
ghost use Rattle.iss_http.specs.Lengths.{number_after, length_of, good_length, content_length};
ghost use Rattle.iss_http.specs.Spans.{headers_at};

use crate::heads::{is_named, part};
use crate::limits::MOST_DIGITS;
use httparse::spans::HeaderSpan;

/// The body's length by the headers.
#[derive(Clone, Copy, PartialEq, Eq, Debug)]
pub(crate) enum ContentLength {
    /// No header gives it.
    Absent,
    /// More than one header gives it, or its value isn't 1 to 10 digits.
    Bad,
    /// The headers give this number of bytes.
    Good(u64),
}

/// The body's length by the headers.
#[tactic(auto, using(crate::proofs::LoneLengths::first_length, crate::proofs::LoneLengths::no_more), unfolding(crate::specs::Lengths::content_length))]
pub(crate) fn content_length(bytes: &[u8], headers: &[HeaderSpan]) -> ContentLength
    ensures { result ≡ content_length (headers_at bytes.now headers.now) }
{
    let mut length = ContentLength::Absent;
    for header in headers {
        if is_named(bytes, *header, "content-length") {
            match length {
                ContentLength::Absent => length = length_in(part(bytes, header.value)),
                _ => return ContentLength::Bad,
            }
        }
    }
    length
}

/// The length that a header's value spells.
fn length_in(text: &[u8]) -> ContentLength
    ensures { result ≡ good_length (length_of text.now) }
{
    match length_of(text) {
        Some(length) => ContentLength::Good(length),
        None => ContentLength::Bad,
    }
}

/// The number that 1 to 10 digits write.
#[tactic(auto, unfolding(crate::specs::Lengths::length_of))]
fn length_of(text: &[u8]) -> Option<u64>
    ensures { result ≡ length_of text.now }
{
    if text.is_empty() || text.len() > MOST_DIGITS {
        None
    } else {
        number_of(text)
    }
}

/// The number that up to 10 digits write.
#[tactic(auto, using(crate::proofs::Digits::more_digits, crate::proofs::Digits::fits))]
fn number_of(text: &[u8]) -> Option<u64>
    requires { length text.now ≤ 10 }
    ensures { result ≡ number_after 0 text.now }
{
    let mut number = 0u64;
    for digit in text {
        if !digit.is_ascii_digit() {
            return None;
        }
        number = number * 10 + u64::from(*digit - b'0');
    }
    Some(number)
}
