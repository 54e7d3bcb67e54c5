//! Answers of the gateway, cut in two anywhere: what a call comes to by each, and whether a notice is acknowledged.
use crate::images::records_on;
use crate::playing::{Come, Played, play, start_of};
use crate::serving::{FIRST, FUNDED_1, FUNDED_2, SERVE, SETTLED};
use iss_edge::{Action, Channel};
use std::alloc::{AllocError, Global};
use std::test::Fail;

const APPROVED: &[u8] = b"{\"event\":\"a1\",\"reply\":\"approved\"}\n";

const DECLINED: &[u8] =
    b"{\"event\":\"a1\",\"reason\":\"GATEWAY_DECLINED\",\"reply\":\"declined\"}\n";

const APPLICATION: &[u8] =
    b"{\"event\":\"a1\",\"reason\":\"GATEWAY_APPLICATION\",\"reply\":\"declined\"}\n";

const CONNECTION: &[u8] =
    b"{\"event\":\"a1\",\"reason\":\"GATEWAY_CONNECTION\",\"reply\":\"declined\"}\n";

/// An answer, what the client of its call receives, and whether it acknowledges a notice.
type Row = (&'static [u8], &'static [u8], bool);

static ANSWERS: [Row; 24] = [
    (FUNDED_1, APPROVED, true),
    (FUNDED_2, APPLICATION, true),
    (
        b"HTTP/1.1 200 OK\r\nContent-Length: 2\r\n\r\n{} more",
        APPLICATION,
        true,
    ),
    (b"HTTP/1.1 402 \r\n\r\n", DECLINED, false),
    (
        b"HTTP/1.0 402 No\r\ncontent-length: 0\r\n\r\n",
        DECLINED,
        false,
    ),
    (
        b"HTTP/1.1 402 No\r\nContent-Length: 9\r\n\r\n{}",
        CONNECTION,
        false,
    ),
    (
        b"HTTP/1.1 200 OK\r\nContent-Length: 3\r\n\r\n{}",
        CONNECTION,
        false,
    ),
    (
        b"HTTP/1.1 200 OK\r\nContent-Length: 2\r\n",
        CONNECTION,
        false,
    ),
    (b"", CONNECTION, false),
    (b"HTTP/1.1", CONNECTION, false),
    (
        b"HTTP/1.1 200 OK\r\nTransfer-Encoding: chunked\r\n\r\n",
        APPLICATION,
        false,
    ),
    (
        b"HTTP/1.1 402 No\r\ntransfer-encoding: chunked\r\nContent-Length: 2\r\n\r\n{}",
        APPLICATION,
        false,
    ),
    (
        b"HTTP/1.1 200 OK\r\nContent-Length: 2\r\nContent-Length: 2\r\n\r\n{}",
        APPLICATION,
        false,
    ),
    (
        b"HTTP/1.1 402 No\r\nContent-Length: 2x\r\n\r\n{}",
        APPLICATION,
        false,
    ),
    (
        b"HTTP/1.1 402 No\r\nContent-Length: 16385\r\n\r\n{}",
        APPLICATION,
        false,
    ),
    (b"HTTP/2 402 No\r\n\r\n", APPLICATION, false),
    (b"HTTP/1.1 40x No\r\n\r\n", APPLICATION, false),
    (b"HTTP/1.1 4020 No\r\n\r\n", APPLICATION, false),
    (b"{}", APPLICATION, false),
    (b" HTTP/1.1 402 No\r\n\r\n", APPLICATION, false),
    (b"HTTP/1.1 402 N\0o\r\n\r\n", APPLICATION, false),
    (b"HTTP/1.1 100 Continue\r\n\r\n", APPLICATION, false),
    (b"HTTP/1.1 204 No Content\r\n\r\n", APPLICATION, false),
    (
        b"HTTP/1.1 503 No\r\nContent-Length: 0\r\n\r\n",
        APPLICATION,
        false,
    ),
];

fn answers() -> &'static [Row] {
    &ANSWERS
}

/// The number of the dial for the first purchase. If it fails, the channel that is dialled next is the notice's.
const DIAL: u64 = 18;

/// How many records stand once the notice of a call that wasn't reached is sent.
const NOTED: usize = 5;

/// A run with a purchase, whose first dialled channel brings these bytes, then those and then its end.
fn answered<'a>(
    alloc: Global,
    start: &[u8],
    front: &'a [u8],
    back: &'a [u8],
    failing: u64,
) -> Result<Played, AllocError> {
    let comes = [
        Come::Client(1),
        Come::Asks(1, FIRST),
        Come::More(1000001, front),
        Come::More(1000001, back),
        Come::Ended(1000001),
    ];
    play(alloc, &SERVE, &comes, start, failing)
}

/// Whether the client on channel 1 is answered with this body.
fn is_told(actions: &[Action], body: &[u8]) -> bool {
    actions.iter().any(|action| match action {
        Action::Emit {
            ch: Channel(1),
            bytes,
            ok: true,
        } => bytes.as_slice().ends_with(body),
        _ => false,
    })
}

/// Whether an answer that is cut here comes to what its row has. An empty piece is the end.
fn comes_to(alloc: Global, start: &[u8], row: &Row, at: usize) -> Result<bool, AllocError> {
    let (text, body, is_acked) = *row;
    let front = text.get(..at).unwrap_or(&[]);
    let back = text.get(at..).unwrap_or(&[]);
    let ends_first = front.is_empty();
    let call = answered(alloc, start, front, back, 0)?;
    let notice = answered(alloc, start, front, back, DIAL)?;
    let (records, _) = records_on(notice.edge.device());
    let body = if ends_first { CONNECTION } else { body };
    let is_acked = is_acked && !ends_first;
    Ok(is_told(call.edge.trace(), body) && records == NOTED + usize::from(is_acked))
}

/// The first cut of an answer that doesn't.
fn first_bad_cut(alloc: Global, start: &[u8], row: &Row) -> Result<Option<usize>, AllocError> {
    for at in 0..=row.0.len() {
        if !comes_to(alloc, start, row, at)? {
            return Ok(Some(at));
        }
    }
    Ok(None)
}

/// The number of the first answer that has such a cut, and the cut.
fn first_misheard(alloc: Global, rows: &[Row]) -> Result<Option<(usize, usize)>, AllocError> {
    let start = start_of(alloc, &SETTLED)?;
    for (number, row) in rows.iter().enumerate() {
        if let Some(at) = first_bad_cut(alloc, &start, row)? {
            return Ok(Some((number, at)));
        }
    }
    Ok(None)
}

#[test]
fn answers_in_every_cut(rt: HostRuntime) -> Result<(), Fail> {
    assert_eq!(rt; first_misheard(rt.alloc(), answers())?, None);
    Ok(())
}
