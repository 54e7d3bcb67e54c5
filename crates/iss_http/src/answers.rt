//! The gateway's answer, read in any pieces.
ghost use Rattle.std.specs.Prelude.{◌≡◌, ◌≤◌, ◌++◌, [], length, IfOk, IfNone, true, false};
ghost use Rattle.iss_http.specs.Answers.{IsReadAs, answer_headed, open_body, answer_within, unless_over};
ghost use Rattle.iss_http.specs.Heard.{heard, reading_of, came_as};
ghost use Rattle.iss_http.specs.Spans.{response_from};

use crate::heads::{Found, behind, find_response, front, has_header, no_headers};
use crate::lengths::{ContentLength, content_length};
use crate::limits::{MOST_ANSWER, MOST_BODY, MOST_HEAD};
use crate::pieces::keep;
use httparse::spans::{HeaderSpan, ResponseSpans};
use std::alloc::{AllocError, Global};
use std::marker::Model;

/// What the gateway's bytes are.
#[derive(Drop)]
pub enum Answer {
    /// A response of this status with this body.
    Whole(u16, Vec<u8>),
    /// The bytes aren't a response, or are one with a transfer coding, a bad length or a body of more than 16384 bytes.
    Garbled,
    /// The bytes ended before an answer was whole.
    Ended,
}

/// Reads one answer, whose bytes come in any pieces. A contract sees the bytes that came so far.
#[derive(Drop)]
pub struct AnswerReader {
    bytes: Vec<u8>,
}

impl Model for AnswerReader {
    ghost use Rattle.std.specs.Prelude.{List, ℕ, length, ◌≤◌};
    ghost use Rattle.iss_http.specs.declared.limits.TheConstants.{MOST_ANSWER};

    ghost Value = { List ℕ };

    ghost view = { λ r. r.bytes.items };

    ghost invariant = { λ r. length r.bytes.items ≤ MOST_ANSWER };
}

impl AnswerReader {
    /// A reader that has received no bytes.
    pub fn new(alloc: Global) -> Result<AnswerReader, AllocError>
        ensures { IfOk result (λ reader. reader ≡ []) }
    {
        Ok(AnswerReader {
            bytes: Vec::with_capacity(alloc, 1024)?,
        })
    }

    /// Takes the next bytes, and returns the answer when it is whole; what comes after it is ignored.
    ///
    /// It returns `None` if the bytes that came aren't yet an answer, and `Garbled` if they never become one. After a bad
    /// head it may return `Garbled` as soon as no further bytes can mend that. At most 24577 bytes are kept. Once it has
    /// returned anything but `None`, the reader isn't fed again.
    pub fn feed(&mut self, alloc: Global, piece: &[u8]) -> Result<Option<Answer>, AllocError>
        ensures answer { IfOk result (λ said. IsReadAs (self.old ++ piece.now) false (heard said)) }
        ensures kept { IfOk result (λ said. IfNone said (self.new ≡ self.old ++ piece.now)) }
        ensures bounded { length self.new ≤ MOST_ANSWER }
    {
        feed_bytes(&mut self.bytes, alloc, piece)
    }

    /// The answer that the bytes are, now that no more come: `Ended` if more of them might still have made one.
    pub fn end(&self, alloc: Global) -> Result<Answer, AllocError>
        ensures { IfOk result (λ said. IsReadAs self.now true (reading_of said)) }
    {
        last_answer(alloc, &self.bytes)
    }
}

/// Keeps a piece, and reads what is kept.
fn feed_bytes(
    bytes: &mut Vec<u8>,
    alloc: Global,
    piece: &[u8],
) -> Result<Option<Answer>, AllocError>
    requires { length bytes.old.items ≤ MOST_ANSWER }
    ensures answer { IfOk result (λ said. IsReadAs (bytes.old.items ++ piece.now) false (heard said)) }
    ensures kept { IfOk result (λ said. IfNone said (bytes.new.items ≡ bytes.old.items ++ piece.now)) }
    ensures bounded { length bytes.new.items ≤ MOST_ANSWER }
{
    keep(bytes, piece, MOST_ANSWER)?;
    answer_so_far(alloc, bytes)
}

/// The answer that the bytes are so far, if it is whole.
#[tactic(auto, using(crate::proofs::Answering::answer_read_again))]
fn answer_so_far(alloc: Global, bytes: &[u8]) -> Result<Option<Answer>, AllocError>
    ensures { IfOk result (λ said. IsReadAs bytes.now false (heard said)) }
{
    let came = read(bytes, false);
    answer_of(alloc, &came)
}

/// The answer that the bytes are, now that no more come.
#[tactic(auto, using(crate::proofs::Answering::last_read))]
fn last_answer(alloc: Global, bytes: &[u8]) -> Result<Answer, AllocError>
    ensures { IfOk result (λ said. IsReadAs bytes.now true (reading_of said)) }
{
    let came = read(bytes, true);
    Ok(answer_of(alloc, &came)?.unwrap_or(Answer::Ended))
}

/// What came, with bytes of its own.
fn answer_of(alloc: Global, came: &Came<'_>) -> Result<Option<Answer>, AllocError>
    ensures { IfOk result (λ said. heard said ≡ came_as came.now) }
{
    match *came {
        Came::More => Ok(None),
        Came::Ended => Ok(Some(Answer::Ended)),
        Came::Garbled => Ok(Some(Answer::Garbled)),
        Came::Whole(status, body) => Ok(Some(Answer::Whole(status, body.to_vec(alloc)?))),
    }
}

/// What the bytes are read as.
#[derive(Clone, Copy)]
enum Came<'b> {
    More,
    Ended,
    Garbled,
    Whole(u16, &'b [u8]),
}

/// What the bytes are, and whether they are over.
#[tactic(auto, using(crate::proofs::Answering::read_whole, crate::proofs::Answering::read_long, crate::proofs::Answering::read_part))]
fn read(bytes: &[u8], over: bool) -> Came<'_>
    ensures { IsReadAs bytes.now over (came_as result) }
{
    let mut headers = no_headers();
    let start = front(bytes);
    match find_response(start, &mut headers) {
        Found::Whole(head) => behind_head(bytes, start, over, head, &headers[..head.headers]),
        Found::Part if bytes.len() >= MOST_HEAD => Came::Garbled,
        Found::Part => unless_over(over),
        Found::Hopeless => Came::Garbled,
    }
}

/// What the bytes are by their head, whose parts lie in `start`.
#[tactic(auto, unfolding(crate::specs::Answers::answer_headed))]
fn behind_head<'b>(
    bytes: &'b [u8],
    start: &[u8],
    over: bool,
    head: ResponseSpans,
    headers: &[HeaderSpan],
) -> Came<'b>
    ensures { came_as result ≡ answer_headed bytes.now over (response_from start.now headers.now head) }
{
    if has_header(start, headers, "transfer-encoding") {
        return Came::Garbled;
    }
    let rest = behind(bytes, head.len);
    match content_length(start, headers) {
        ContentLength::Absent => open_body(head.code, rest, over),
        ContentLength::Bad => Came::Garbled,
        ContentLength::Good(size) => body_within(head.code, rest, over, size),
    }
}

/// A body that ends with the bytes.
fn open_body(status: u16, rest: &[u8], over: bool) -> Came<'_>
    ensures { came_as result ≡ open_body status rest.now over }
{
    if rest.len() as u64 > MOST_BODY {
        Came::Garbled
    } else if over {
        Came::Whole(status, rest)
    } else {
        Came::More
    }
}

/// A body of `size` bytes.
fn body_within(status: u16, rest: &[u8], over: bool, size: u64) -> Came<'_>
    ensures { came_as result ≡ answer_within status rest.now over size }
{
    if size > MOST_BODY {
        return Came::Garbled;
    }
    match rest.get(..size as usize) {
        Some(body) => Came::Whole(status, body),
        None => unless_over(over),
    }
}

fn unless_over(over: bool) -> Came<'static>
    ensures { came_as result ≡ unless_over over }
{
    if over { Came::Ended } else { Came::More }
}
