//! What a gateway answers over HTTP, and the texts that are sent.
use crate::filled::filled;
use iss_http::{Answer, AnswerReader, ask, respond, write_ask, write_response};
use std::alloc::{AllocError, Global};
use std::test::Fail;

/// The status of an answer and the size of its body, or why there is none.
type Came = Result<(u16, usize), &'static str>;

fn came_of(answer: Answer) -> Came {
    match answer {
        Answer::Ended => Err("ended"),
        Answer::Garbled => Err("garbled"),
        Answer::Whole(status, body) => Ok((status, body.len())),
    }
}

/// What bytes come to that arrive in two pieces, and then may end.
fn hear(alloc: Global, bytes: &[u8], ended: bool) -> Result<Came, AllocError> {
    let mut reader = AnswerReader::new(alloc)?;
    let (front, back) = bytes.split_at(bytes.len() / 2);
    for piece in [front, back] {
        if let Some(answer) = reader.feed(alloc, piece)? {
            return Ok(came_of(answer));
        }
    }
    if ended {
        Ok(came_of(reader.end(alloc)?))
    } else {
        Ok(Err("more"))
    }
}

// In each table a tilde stands between two texts.

/// Answers of status 200 with two bytes.
const TWO_BYTES: &str = "HTTP/1.1 200 OK\r\nContent-Length: 2\r\n\r\n{} more~\
    HTTP/1.1 200\n\n{}~\
    HTTP/1.1 200 OK\r\nContent-Length: 0000000002\r\nContent-Encoding: gzip\r\n\r\n{}";

/// Answers that end early. The first has no bytes.
const CUT: &str = "~\
    HTTP/1.1 200 OK\r\nContent-Length: 3\r\n\r\n{}~\
    HTTP/1.1 200 OK\r\nContent-Length: 2\r\n~\
    HTTP/1.1 200 OK\r\n~\
    HTTP/1.1";

/// Bytes that are no answer, or one that isn't taken.
const GARBLED: &str = "HTTP/1.1 200 OK\r\nTransfer-Encoding: chunked\r\n\r\n~\
    HTTP/1.1 200 OK\r\nContent-Length: 2\r\nContent-Length: 2\r\n\r\n{}~\
    HTTP/1.1 200 OK\r\nContent-Length: 2x\r\n\r\n{}~\
    HTTP/1.1 200 OK\r\nContent-Length: 16385\r\n\r\n{}~\
    HTTP/2 200 OK\r\n\r\n~\
    HTTP/1.1 20x OK\r\n\r\n~\
    {}~\
    HTTP/1.1 402 No\r\ntransfer-encoding: chunked\r\nContent-Length: 2\r\n\r\n{}~\
    HTTP/1.1 200 OK\r\nContent-Length: +2\r\n\r\n{}~\
    HTTP/1.1 200 OK\r\nContent-Length:\r\n\r\n{}~\
    HTTP/1.1 200 OK\r\nContent-Length: 00000000002\r\n\r\n{}~\
    HTTP/1.1 200 OK\r\nA: b\r\n c\r\n\r\n~\
    HTTP/1.1 20 OK\r\n\r\n~\
    HTTP/1.1 2000 OK\r\n\r\n~\
    \x20HTTP/1.1 200 OK\r\n\r\n~\
    HTTP/1.1 200 O\0K\r\n\r\n";

/// The first of these texts that comes to something else once it ends.
fn first_other(
    alloc: Global,
    texts: &'static str,
    wanted: Came,
) -> Result<Option<&'static str>, AllocError> {
    for text in texts.split('~') {
        if hear(alloc, text.as_bytes(), true)? != wanted {
            return Ok(Some(text));
        }
    }
    Ok(None)
}

#[test]
fn what_a_gateway_answers(rt: HostRuntime) -> Result<(), Fail> {
    for (texts, came) in [
        (TWO_BYTES, Ok((200, 2))),
        (CUT, Err("ended")),
        (GARBLED, Err("garbled")),
        (
            "HTTP/1.1 200 OK\r\nContent-Length: 0\r\n\r\nHTTP/1.1 402 No\r\n\r\n",
            Ok((200, 0)),
        ),
        ("HTTP/1.0 402 \r\ncontent-length: 0\r\n\r\n", Ok((402, 0))),
        (
            "HTTP/1.1 402 Payment Required\r\n\r\n{\"a\":1}",
            Ok((402, 7)),
        ),
        ("\r\nHTTP/1.1 503 Service Unavailable\r\n\r\n", Ok((503, 0))),
        ("HTTP/1.1 100 Continue\r\n\r\n", Ok((100, 0))),
    ] {
        let other = first_other(rt.alloc(), texts, came)?;
        assert_eq!(rt; other, None);
    }
    Ok(())
}

/// What a text comes to with `times` of another in the place of its star, and with one more; then the bytes may end.
fn at_limit(
    alloc: Global,
    text: &str,
    again: &str,
    times: usize,
    ended: bool,
) -> Result<(Came, Came), AllocError> {
    let within = filled(alloc, text, again, times)?;
    let beyond = filled(alloc, text, again, times.saturating_add(1))?;
    Ok((hear(alloc, &within, ended)?, hear(alloc, &beyond, ended)?))
}

#[test]
fn answers_up_to_their_limits(rt: HostRuntime) -> Result<(), Fail> {
    let head = "HTTP/1.1 200 OK\r\nA: *\r\nContent-Length: 0\r\n\r\n";
    let came = at_limit(rt.alloc(), head, "b", 8149, false)?;
    assert_eq!(rt; came, (Ok((200, 0)), Err("garbled")));
    let front = "HTTP/1.1 200 OK\r\nA: *";
    let came = at_limit(rt.alloc(), front, "b", 8171, false)?;
    assert_eq!(rt; came, (Err("more"), Err("garbled")));
    let came = at_limit(rt.alloc(), front, "b", 8171, true)?;
    assert_eq!(rt; came, (Err("ended"), Err("garbled")));
    let open = "HTTP/1.1 200 OK\r\n\r\n*";
    let came = at_limit(rt.alloc(), open, "b", 16384, false)?;
    assert_eq!(rt; came, (Err("more"), Err("garbled")));
    let came = at_limit(rt.alloc(), open, "b", 16384, true)?;
    assert_eq!(rt; came, (Ok((200, 16384)), Err("garbled")));
    let body = "HTTP/1.1 200 OK\r\nContent-Length: 16384\r\n\r\n*";
    let came = at_limit(rt.alloc(), body, "b", 16383, false)?;
    assert_eq!(rt; came, (Err("more"), Ok((200, 16384))));
    let came = at_limit(rt.alloc(), body, "b", 16383, true)?;
    assert_eq!(rt; came, (Err("ended"), Ok((200, 16384))));
    let lines = "HTTP/1.1 200 OK\r\n*Content-Length: 0\r\n\r\n";
    let came = at_limit(rt.alloc(), lines, "A: b\r\n", 63, false)?;
    assert_eq!(rt; came, (Ok((200, 0)), Err("garbled")));
    Ok(())
}

/// A status and a body, and the response with them.
const RESPONSES: [(u16, &str, &str); 7] = [
    (
        200,
        "{\"event\":\"a2\",\"reply\":\"approved\"}\n",
        "HTTP/1.1 200 OK\r\nContent-Type: application/json\r\nContent-Length: 34\r\nConnection: close\r\n\r\n{\"event\":\"a2\",\"reply\":\"approved\"}\n",
    ),
    (
        200,
        "{\"event\":\"a1\",\"reason\":\"GATEWAY_DECLINED\",\"reply\":\"declined\"}\n",
        "HTTP/1.1 200 OK\r\nContent-Type: application/json\r\nContent-Length: 62\r\nConnection: close\r\n\r\n{\"event\":\"a1\",\"reason\":\"GATEWAY_DECLINED\",\"reply\":\"declined\"}\n",
    ),
    (
        400,
        "{\"fault\":\"CODING\",\"reply\":\"http\"}\n",
        "HTTP/1.1 400 Bad Request\r\nContent-Type: application/json\r\nContent-Length: 34\r\nConnection: close\r\n\r\n{\"fault\":\"CODING\",\"reply\":\"http\"}\n",
    ),
    (
        404,
        "{\"fault\":\"PATH\",\"reply\":\"http\"}\n",
        "HTTP/1.1 404 Not Found\r\nContent-Type: application/json\r\nContent-Length: 32\r\nConnection: close\r\n\r\n{\"fault\":\"PATH\",\"reply\":\"http\"}\n",
    ),
    (
        409,
        "x",
        "HTTP/1.1 409 Conflict\r\nContent-Type: application/json\r\nContent-Length: 1\r\nConnection: close\r\n\r\nx",
    ),
    (
        507,
        "",
        "HTTP/1.1 507 Insufficient Storage\r\nContent-Type: application/json\r\nContent-Length: 0\r\nConnection: close\r\n\r\n",
    ),
    (
        200,
        "\r\n\0\u{e9}",
        "HTTP/1.1 200 OK\r\nContent-Type: application/json\r\nContent-Length: 5\r\nConnection: close\r\n\r\n\r\n\0\u{e9}",
    ),
];

#[test]
fn texts_that_are_sent(rt: HostRuntime) -> Result<(), Fail> {
    let mut written = Vec::new(rt.alloc());
    for (status, body, want) in RESPONSES {
        assert!(rt; matches!(status, 200 | 400 | 404 | 409 | 507));
        let text = respond(rt.alloc(), status, body.as_bytes())?;
        assert!(rt; text.as_slice() == want.as_bytes(), "{status}: {body}");
        write_response(&mut written, status, body.as_bytes())?;
        assert!(rt; written.as_slice() == want.as_bytes(), "{status}: {body}");
    }
    write_ask(&mut written, b"{\"amount\":\"38.20\"}")?;
    let asked = ask(rt.alloc(), b"{\"amount\":\"38.20\"}")?;
    let want =
        "POST /jit HTTP/1.1\r\nHost: localhost\r\nContent-Type: application/json\r\nContent-Length: 18\r\nConnection: close\r\n\r\n{\"amount\":\"38.20\"}";
    assert!(rt; written.as_slice() == want.as_bytes());
    assert!(rt; asked.as_slice() == want.as_bytes());
    Ok(())
}
