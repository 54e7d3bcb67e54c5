//! What strangers send as a request, and the limits of one.
use crate::filled::filled;
use iss_http::{FeedFault, HttpFault, RequestReader};
use std::alloc::{AllocError, Global};
use std::test::Fail;

/// What a request comes to: nothing yet, the length of its body, or a fault.
type Told = Option<Result<usize, HttpFault>>;

/// What bytes come to that arrive in two pieces.
fn read(alloc: Global, bytes: &[u8]) -> Result<Told, AllocError> {
    let mut reader = RequestReader::new(alloc)?;
    let (front, back) = bytes.split_at(bytes.len() / 2);
    for piece in [front, back] {
        match reader.feed(alloc, piece) {
            Ok(None) => {}
            Ok(Some(body)) => return Ok(Some(Ok(body.len()))),
            Err(FeedFault::Http(fault)) => return Ok(Some(Err(fault))),
            Err(FeedFault::OutOfMemory) => return Err(AllocError),
        }
    }
    Ok(None)
}

// In each table a tilde stands between two texts.

/// Requests with an empty body.
const EMPTY: &str = "POST /events HTTP/1.1\r\nContent-Length: 0\r\n\r\n~\
    POST /events HTTP/1.1\r\nA:\tb\tc\t\r\nContent-Length: 0\r\n\r\n";

/// Requests with a body of two bytes.
const TAKEN: &str = "POST /events HTTP/1.1\r\nContent-Length: 2\r\n\r\n{}~\
    POST /events HTTP/1.1\nContent-Length: 2\n\n{}~\
    \r\n\nPOST /events HTTP/1.0\r\ncontent-length:\t2 \r\n\n{} and more~\
    POST /events HTTP/1.1\r\nContent-Length: 0000000002\r\n\r\n{}~\
    POST /events HTTP/1.1\r\nX-Content-Length: 9\r\nCONTENT-LENGTH:2\r\n\r\n{}POST /x HTTP/1.1\r\n\r\n";

/// Fronts of requests. The first has no bytes.
const FRONTS: &str = "~\
    POST /events HTTP/1.1\r\nContent-Length: 3\r\n\r\n{}~\
    POST /events HTTP/1.1\r\nContent-Length: 2\r\n\r~\
    POST /events HTTP/1.1\r\nContent-Length: 16384\r\n\r\n1~\
    POST /events HTTP/1.1\r\nContent-Length: 2\r\n\r\n{~\
    POST~\
    POST ~\
    POST /ev~\
    POST /events~\
    POST /events ~\
    POST /events HTTP/~\
    POST /events HTTP/1.~\
    POST /events HTTP/1.1~\
    POST /events HTTP/1.1\r~\
    POST /events HTTP/1.1\r\n~\
    POST /events HTTP/1.1\r\nA~\
    POST /events HTTP/1.1\r\nA: ~\
    POST /events HTTP/1.1\r\nA: b\r~\
    POST /events HTTP/1.1\r\nA: b\r\n";

/// Bytes that no head begins with; of some the last byte alone is bad, and `FRONTS` has what is before it.
const NO_HEADS: &str = "\x20POST /events HTTP/1.1\r\n\r\n~\
    POST  /events HTTP/1.1\r\n\r\n~\
    POST /events\r\n\r\n~\
    GET /\r\n~\
    PRI * HTTP/2.0\r\n\r\nSM\r\n\r\n~\
    POST /events HTTP/1.1\r\nA: b\r\n c\r\n\r\n~\
    POST /events HTTP/1.1\r\nA : b\r\n\r\n~\
    POST /events HTTP/1.1\r\nA: \0\r\n\r\n~\
    POST /events HTTP/1.1\r\nA\r\n\r\n~\
    POST /ev\tents HTTP/1.1\r\n\r\n~\
    POST /events HTTP/1.1\r\nA: b\r\n\tc\r\n\r\n~\
    POST /events HTTP/1.1\rA: b\r\n\r\n~\
    POST /events HTTP/1.1\r\nA: b\rc\r\n\r\n~\
    POST\t/events\tHTTP/1.1\r\n\r\n~\
    \0POST /events HTTP/1.1\r\n\r\n~\
    POST /events HTTP/1.1\r\n: b\r\n\r\n~\
    POST /events HTTP/1.1 \r\n\r\n~\
    POST /events HTTP/1.2\r\n\r\n~\
    POST /events http/1.1\r\n\r\n~\
    POST /events HTTP/0.9\r\n\r\n~\
    POST /events HTTP/18446744073709551616\r\n\r\n~\
    {\"type\":\"user\"}\n~\
    \x20~\
    \0~\
    {~\
    POST\t~\
    POST  ~\
    POST /ev\t~\
    POST /events\r~\
    POST /events h~\
    POST /events HTTP/2~\
    POST /events HTTP/1.2~\
    POST /events HTTP/1.1 ~\
    POST /events HTTP/1.1\rA~\
    POST /events HTTP/1.1\r\n ~\
    POST /events HTTP/1.1\r\nA ~\
    POST /events HTTP/1.1\r\nA\r~\
    POST /events HTTP/1.1\r\nA: \0~\
    POST /events HTTP/1.1\r\nA: b\rc~\
    POST /events HTTP/1.1\r\nA: b\r\n ";

/// Requests with another method.
const METHODS: &str = "GET /events HTTP/1.1\r\n\r\n~\
    post /events HTTP/1.1\r\n\r\n~\
    GET /x HTTP/1.1\r\nTransfer-Encoding: chunked\r\n\r\n";

/// Requests for another path.
const PATHS: &str = "POST /events/ HTTP/1.1\r\n\r\n~\
    POST http://localhost/events HTTP/1.1\r\n\r\n~\
    POST /x HTTP/1.1\r\n\r\n~\
    POST /events?a=b HTTP/1.1\r\n\r\n~\
    POST /EVENTS HTTP/1.1\r\n\r\n~\
    POST * HTTP/1.1\r\n\r\n~\
    POST /x HTTP/1.1\r\nTransfer-Encoding: chunked\r\n\r\n";

/// Requests with a coding.
const CODINGS: &str = "POST /events HTTP/1.1\r\ntransfer-ENCODING: chunked\r\n\r\n~\
    POST /events HTTP/1.1\r\nContent-Encoding: gzip\r\n\r\n~\
    POST /events HTTP/1.1\r\nTransfer-Encoding: identity\r\nContent-Length: 2\r\n\r\n{}~\
    POST /events HTTP/1.1\r\nContent-Encoding: gzip\r\nContent-Length: 16385\r\n\r\n";

/// Requests without a length, or with a bad one.
const NO_LENGTHS: &str = "POST /events HTTP/1.1\r\n\r\n~\
    POST /events HTTP/1.1\r\nContent-Length: 1\r\nContent-Length: 1\r\n\r\n1~\
    POST /events HTTP/1.1\r\nContent-Length: +1\r\n\r\n1~\
    POST /events HTTP/1.1\r\nContent-Length: 1 1\r\n\r\n1~\
    POST /events HTTP/1.1\r\nContent-Length: 00000000001\r\n\r\n1~\
    POST /events HTTP/1.1\r\nContent-Length: 12x\r\n\r\n1~\
    POST /events HTTP/1.1\r\nContent-Length:\r\n\r\n~\
    POST /events HTTP/1.1\r\nContent-Length: -1\r\n\r\n1~\
    POST /events HTTP/1.1\r\nContent-Length: 0x1\r\n\r\n1~\
    POST /events HTTP/1.1\r\nContent-Length: 1, 1\r\n\r\n1~\
    POST /events HTTP/1.1\r\nContent-Length: 99999\r\ncontent-length: 1\r\n\r\n1~\
    POST /events HTTP/1.1\r\nContent-Length: 18446744073709551617\r\n\r\n1";

/// Requests with a body that is too long.
const LONG_BODIES: &str = "POST /events HTTP/1.1\r\nContent-Length: 9999999999\r\n\r\n1~\
    POST /events HTTP/1.1\r\nContent-Length: 16385\r\n\r\n1";

/// The first of these texts that comes to something else.
fn first_other(
    alloc: Global,
    texts: &'static str,
    wanted: Told,
) -> Result<Option<&'static str>, AllocError> {
    for text in texts.split('~') {
        if read(alloc, text.as_bytes())? != wanted {
            return Ok(Some(text));
        }
    }
    Ok(None)
}

#[test]
fn what_strangers_send(rt: HostRuntime) -> Result<(), Fail> {
    for (texts, told) in [
        (EMPTY, Some(Ok(0))),
        (TAKEN, Some(Ok(2))),
        (FRONTS, None),
        (NO_HEADS, Some(Err(HttpFault::Head))),
        (METHODS, Some(Err(HttpFault::Method))),
        (PATHS, Some(Err(HttpFault::Path))),
        (CODINGS, Some(Err(HttpFault::Coding))),
        (NO_LENGTHS, Some(Err(HttpFault::NoLength))),
        (LONG_BODIES, Some(Err(HttpFault::BodyLong))),
    ] {
        let other = first_other(rt.alloc(), texts, told)?;
        assert_eq!(rt; other, None);
    }
    Ok(())
}

#[test]
fn bytes_that_are_no_text(rt: HostRuntime) -> Result<(), Fail> {
    let target = read(rt.alloc(), b"POST /\xff HTTP/1.1\r\n\r\n")?;
    assert_eq!(rt; target, Some(Err(HttpFault::Head)));
    let cut = read(rt.alloc(), b"POST /\xc3")?;
    assert_eq!(rt; cut, None);
    let value = read(
        rt.alloc(),
        b"POST /events HTTP/1.1\r\nA: \xff\r\nContent-Length: 0\r\n\r\n",
    )?;
    assert_eq!(rt; value, Some(Ok(0)));
    Ok(())
}

/// What a text comes to with `times` of another in the place of its star, and with one more.
fn at_limit(
    alloc: Global,
    text: &str,
    again: &str,
    times: usize,
) -> Result<(Told, Told), AllocError> {
    let within = filled(alloc, text, again, times)?;
    let beyond = filled(alloc, text, again, times.saturating_add(1))?;
    Ok((read(alloc, &within)?, read(alloc, &beyond)?))
}

#[test]
fn requests_up_to_their_limits(rt: HostRuntime) -> Result<(), Fail> {
    let head = "POST /events HTTP/1.1\r\nA: *\r\nContent-Length: 0\r\n\r\n";
    let said = at_limit(rt.alloc(), head, "b", 8143)?;
    assert_eq!(rt; said, (Some(Ok(0)), Some(Err(HttpFault::HeadLong))));
    let front = "POST /events HTTP/1.1\r\nA: *";
    let said = at_limit(rt.alloc(), front, "b", 8165)?;
    assert_eq!(rt; said, (None, Some(Err(HttpFault::HeadLong))));
    let body = "POST /events HTTP/1.1\r\nContent-Length: 16384\r\n\r\n*";
    let said = at_limit(rt.alloc(), body, "b", 16383)?;
    assert_eq!(rt; said, (None, Some(Ok(16384))));
    let lines = "POST /events HTTP/1.1\r\n*Content-Length: 0\r\n\r\n";
    let said = at_limit(rt.alloc(), lines, "A: b\r\n", 63)?;
    assert_eq!(rt; said, (Some(Ok(0)), Some(Err(HttpFault::Head))));
    Ok(())
}
