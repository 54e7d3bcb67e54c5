//! A client's request, read in any pieces.
ghost use Rattle.std.specs.Prelude.{◌≡◌, ◌≤◌, ◌++◌, [], length, option_map, IfOk, IfErr, IfNone};
ghost use Rattle.iss_http.specs.Requests.{request, jit_request, request_at, answered, told, request_headed, request_sized, HasFaultAs, IsCause, IsJitCause, IsCauseAs};
ghost use Rattle.iss_http.specs.Spans.{request_from};

use crate::faults::{FeedFault, HttpFault};
use crate::heads::{Found, behind, find_request, front, has_header, no_headers, part};
use crate::lengths::{ContentLength, content_length};
use crate::limits::{MOST_BODY, MOST_HEAD, MOST_REQUEST};
use crate::pieces::keep;
use http::Method;
use httparse::spans::{HeaderSpan, RequestSpans};
use std::alloc::{AllocError, Global};
use std::marker::Model;

/// The path of a client's requests.
const EVENTS: &str = "/events";

/// The path of requests to a gateway.
const JIT: &str = "/jit";

/// Reads one request, whose bytes come in any pieces. A contract sees the bytes that came so far.
#[derive(Drop)]
pub struct RequestReader {
    bytes: Vec<u8>,
}

impl Model for RequestReader {
    ghost use Rattle.std.specs.Prelude.{List, ℕ, length, ◌≤◌};
    ghost use Rattle.iss_http.specs.declared.limits.TheConstants.{MOST_REQUEST};

    ghost Value = { List ℕ };

    ghost view = { λ r. r.bytes.items };

    ghost invariant = { λ r. length r.bytes.items ≤ MOST_REQUEST };
}

impl RequestReader {
    /// A reader that has received no bytes.
    pub fn new(alloc: Global) -> Result<RequestReader, AllocError>
        ensures { IfOk result (λ reader. reader ≡ []) }
    {
        Ok(RequestReader {
            bytes: Vec::with_capacity(alloc, 1024)?,
        })
    }

    /// Takes the next bytes, and returns the body when the request is whole; what comes after it is ignored.
    ///
    /// It returns `None` if the bytes that came aren't yet a request, and else their first fault, in the order of
    /// `HttpFault`. It may return `Head` in place of `None` or `HeadLong` if no further bytes can make a head of them. At
    /// most 24576 bytes are kept. After another result than `None` the reader isn't fed again.
    #[tactic(auto, unfolding(crate::specs::Requests::request))]
    pub fn feed(&mut self, alloc: Global, piece: &[u8]) -> Result<Option<Vec<u8>>, FeedFault>
        ensures body { IfOk result
            (λ said. request (self.old ++ piece.now) ≡ answered (option_map (λ text. text.items) said)) }
        ensures fault { IfErr result (IsCause (self.old ++ piece.now)) }
        ensures kept { IfOk result (λ said. IfNone said (self.new ≡ self.old ++ piece.now)) }
        ensures bounded { length self.new ≤ MOST_REQUEST }
    {
        feed_bytes(EVENTS, &mut self.bytes, alloc, piece)
    }
}

/// Reads one request to a gateway, as `RequestReader` reads a client's. A contract sees the bytes that came so far.
#[derive(Drop)]
pub struct JitReader {
    bytes: Vec<u8>,
}

impl Model for JitReader {
    ghost use Rattle.std.specs.Prelude.{List, ℕ, length, ◌≤◌};
    ghost use Rattle.iss_http.specs.declared.limits.TheConstants.{MOST_REQUEST};

    ghost Value = { List ℕ };

    ghost view = { λ r. r.bytes.items };

    ghost invariant = { λ r. length r.bytes.items ≤ MOST_REQUEST };
}

impl JitReader {
    /// A reader that has received no bytes.
    pub fn new(alloc: Global) -> Result<JitReader, AllocError>
        ensures { IfOk result (λ reader. reader ≡ []) }
    {
        Ok(JitReader {
            bytes: Vec::with_capacity(alloc, 1024)?,
        })
    }

    /// Takes the next bytes, and returns the body when the request is whole; what comes after it is ignored.
    ///
    /// Its results are those of `RequestReader::feed`, and the target isn't faulty if it is `/jit`.
    #[tactic(auto, unfolding(crate::specs::Requests::jit_request))]
    pub fn feed(&mut self, alloc: Global, piece: &[u8]) -> Result<Option<Vec<u8>>, FeedFault>
        ensures body { IfOk result
            (λ said. jit_request (self.old ++ piece.now) ≡ answered (option_map (λ text. text.items) said)) }
        ensures fault { IfErr result (IsJitCause (self.old ++ piece.now)) }
        ensures kept { IfOk result (λ said. IfNone said (self.new ≡ self.old ++ piece.now)) }
        ensures bounded { length self.new ≤ MOST_REQUEST }
    {
        feed_bytes(JIT, &mut self.bytes, alloc, piece)
    }
}

/// Keeps a piece, and reads what is kept as a request to a path.
fn feed_bytes(
    path: &str,
    bytes: &mut Vec<u8>,
    alloc: Global,
    piece: &[u8],
) -> Result<Option<Vec<u8>>, FeedFault>
    requires { length bytes.old.items ≤ MOST_REQUEST }
    ensures body { IfOk result
        (λ said. request_at path.now (bytes.old.items ++ piece.now) ≡ answered (option_map (λ text. text.items) said)) }
    ensures fault { IfErr result (IsCauseAs (request_at path.now) (bytes.old.items ++ piece.now)) }
    ensures kept { IfOk result (λ said. IfNone said (bytes.new.items ≡ bytes.old.items ++ piece.now)) }
    ensures bounded { length bytes.new.items ≤ MOST_REQUEST }
{
    let Ok(()) = keep(bytes, piece, MOST_REQUEST) else {
        return Err(FeedFault::OutOfMemory);
    };
    body_in(path, alloc, bytes)
}

/// The body of the bytes, if they are a whole request to this path.
fn body_in(path: &str, alloc: Global, bytes: &[u8]) -> Result<Option<Vec<u8>>, FeedFault>
    ensures body { IfOk result
        (λ said. request_at path.now bytes.now ≡ answered (option_map (λ text. text.items) said)) }
    ensures fault { IfErr result (IsCauseAs (request_at path.now) bytes.now) }
{
    match body_of(path, bytes) {
        Ok(Some(body)) => match body.to_vec(alloc) {
            Ok(body) => Ok(Some(body)),
            Err(_) => Err(FeedFault::OutOfMemory),
        },
        Ok(None) => Ok(None),
        Err(fault) => Err(FeedFault::Http(fault)),
    }
}

/// Where the body lies in the bytes, if they are a whole request to this path.
fn body_of<'b>(path: &str, bytes: &'b [u8]) -> Result<Option<&'b [u8]>, HttpFault>
    ensures body { IfOk result
        (λ said. request_at path.now bytes.now ≡ answered (option_map (λ text. text.now) said)) }
    ensures fault { IfErr result (HasFaultAs (request_at path.now) bytes.now) }
{
    let mut headers = no_headers();
    let start = front(bytes);
    match find_request(start, &mut headers) {
        Found::Whole(head) => body_behind(path, bytes, start, head, &headers[..head.headers]),
        Found::Part if bytes.len() >= MOST_HEAD => Err(HttpFault::HeadLong),
        Found::Part => Ok(None),
        Found::Hopeless => Err(HttpFault::Head),
    }
}

/// What the bytes are by their head, whose parts lie in `start`.
#[tactic(auto, unfolding(crate::specs::Requests::request_headed))]
fn body_behind<'b>(
    path: &str,
    bytes: &'b [u8],
    start: &[u8],
    head: RequestSpans,
    headers: &[HeaderSpan],
) -> Result<Option<&'b [u8]>, HttpFault>
    ensures { told (λ text. text.now) result
        ≡ request_headed path.now bytes.now (request_from start.now headers.now head) }
{
    if part(start, head.method) != Method::POST.as_str().as_bytes() {
        return Err(HttpFault::Method);
    }
    if part(start, head.path) != path.as_bytes() {
        return Err(HttpFault::Path);
    }
    if has_header(start, headers, "transfer-encoding")
        || has_header(start, headers, "content-encoding")
    {
        return Err(HttpFault::Coding);
    }
    sized_body(behind(bytes, head.len), content_length(start, headers))
}

/// What the bytes after the head are, by the length of the body.
fn sized_body(rest: &[u8], length: ContentLength) -> Result<Option<&[u8]>, HttpFault>
    ensures { told (λ text. text.now) result ≡ request_sized rest.now length }
{
    match length {
        ContentLength::Good(size) if size > MOST_BODY => Err(HttpFault::BodyLong),
        ContentLength::Good(size) => Ok(rest.get(..size as usize)),
        _ => Err(HttpFault::NoLength),
    }
}
