//! Heads of messages, as `httparse` finds their parts in the bytes.
ghost use Rattle.std.specs.Prelude.{◌≡◌, length, take, drop};
ghost use Rattle.iss_http.specs.Lengths.{is_named, has};
ghost use Rattle.iss_http.specs.Spans.{part_of, header_at, headers_at, IsRequestFound, IsResponseFound};

use crate::limits::{MOST_HEAD, MOST_HEADERS};
use httparse::Status;
use httparse::spans::{EMPTY_HEADER_SPAN, HeaderSpan, RequestSpans, ResponseSpans, Span};

/// What `httparse` finds at the front of a message.
pub(crate) enum Found<H> {
    /// A whole head.
    Whole(H),
    /// The head isn't whole yet.
    Part,
    /// No head begins with these bytes.
    Hopeless,
}

/// Room for the headers of a head.
pub(crate) type Headers = [HeaderSpan; MOST_HEADERS];

pub(crate) fn no_headers() -> Headers {
    [EMPTY_HEADER_SPAN; MOST_HEADERS]
}

/// The bytes that a head may have.
#[tactic(auto, using(crate::proofs::Cuts::take_within))]
pub(crate) fn front(bytes: &[u8]) -> &[u8]
    ensures { result.now ≡ take MOST_HEAD bytes.now }
{
    &bytes[..bytes.len().min(MOST_HEAD)]
}

/// The head of a request that the bytes begin with.
#[tactic(auto, using(crate::proofs::Found::request_whole, crate::proofs::Found::request_part, crate::proofs::Found::request_hopeless))]
pub(crate) fn find_request(bytes: &[u8], headers: &mut [HeaderSpan]) -> Found<RequestSpans>
    requires { length headers.old ≡ MOST_HEADERS }
    ensures { IsRequestFound bytes.now headers.new result }
{
    match httparse::spans::parse_request(bytes, headers) {
        Ok(Status::Complete(head)) => Found::Whole(head),
        Ok(Status::Partial) => Found::Part,
        Err(_) => Found::Hopeless,
    }
}

/// The head of a response that the bytes begin with.
#[tactic(auto, using(crate::proofs::FoundResponses::response_whole, crate::proofs::FoundResponses::response_part, crate::proofs::FoundResponses::response_hopeless))]
pub(crate) fn find_response(bytes: &[u8], headers: &mut [HeaderSpan]) -> Found<ResponseSpans>
    requires { length headers.old ≡ MOST_HEADERS }
    ensures { IsResponseFound bytes.now headers.new result }
{
    match httparse::spans::parse_response(bytes, headers) {
        Ok(Status::Complete(head)) => Found::Whole(head),
        Ok(Status::Partial) => Found::Part,
        Err(_) => Found::Hopeless,
    }
}

/// The bytes of a span, as far as they came.
#[tactic(auto, using(crate::proofs::Cuts::take_within))]
pub(crate) fn part(bytes: &[u8], span: Span) -> &[u8]
    ensures { result.now ≡ part_of bytes.now span }
{
    let rest = behind(bytes, span.start);
    let size = span.end.saturating_sub(span.start);
    &rest[..rest.len().min(size)]
}

/// The bytes from a place on.
#[tactic(auto, using(crate::proofs::Cuts::drop_within))]
pub(crate) fn behind(bytes: &[u8], place: usize) -> &[u8]
    ensures { result.now ≡ drop place bytes.now }
{
    &bytes[bytes.len().min(place)..]
}

/// Whether the header has this name, in letters of either case.
pub(crate) fn is_named(bytes: &[u8], header: HeaderSpan, name: &str) -> bool
    ensures { result ≡ is_named name.now (header_at bytes.now header) }
{
    part(bytes, header.name).eq_ignore_ascii_case(name.as_bytes())
}

/// Whether there is a header of this name.
pub(crate) fn has_header(bytes: &[u8], headers: &[HeaderSpan], name: &str) -> bool
    ensures { result ≡ has name.now (headers_at bytes.now headers.now) }
{
    for header in headers {
        if is_named(bytes, *header, name) {
            return true;
        }
    }
    false
}
