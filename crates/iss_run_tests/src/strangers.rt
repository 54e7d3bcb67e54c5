//! What strangers send as requests, and broken gateways as answers.
use crate::playing::{Come, Device, Run};
use crate::serving::{FIRST, SERVE, SETTLED};

const BEGINS: &[u8] = b"POST /events HTTP/1.1\r\n";

/// 62 header lines, of which the last says how long the body is.
const HEADER_LINES: &[u8] =
    b"A:b\r\nA:b\r\nA:b\r\nA:b\r\nA:b\r\nA:b\r\nA:b\r\nA:b\r\nA:b\r\nA:b\r\nA:b\r\nA:b\r\nA:b\r\nA:b\r\nA:b\r\nA:b\r\nA:b\r\nA:b\r\nA:b\r\nA:b\r\nA:b\r\nA:b\r\nA:b\r\nA:b\r\nA:b\r\nA:b\r\nA:b\r\nA:b\r\nA:b\r\nA:b\r\nA:b\r\nA:b\r\nA:b\r\nA:b\r\nA:b\r\nA:b\r\nA:b\r\nA:b\r\nA:b\r\nA:b\r\nA:b\r\nA:b\r\nA:b\r\nA:b\r\nA:b\r\nA:b\r\nA:b\r\nA:b\r\nA:b\r\nA:b\r\nA:b\r\nA:b\r\nA:b\r\nA:b\r\nA:b\r\nA:b\r\nA:b\r\nA:b\r\nA:b\r\nA:b\r\nA:b\r\nContent-Length: 40\r\n";

/// Two header lines more, and a body of 40 bytes.
const TWO_MORE: &[u8] = b"A:b\r\nA:b\r\n\r\n{\"type\":\"user\",\"token\":\"t1\",\"user\":\"u1\"}";

/// Three header lines more, and the same body.
const THREE_MORE: &[u8] =
    b"A:b\r\nA:b\r\nA:b\r\n\r\n{\"type\":\"user\",\"token\":\"t1\",\"user\":\"u1\"}";

const USER: &str = r#"{"type":"user","token":"t1","user":"u1"}"#;

/// A head of 64 header lines; one of 65, an endless header line, lengths that are none, a body of no bytes, and a client that ends
/// inside its head. The event of the first is sent again by the last.
const HEADS: &[Come<'static>] = &[
    Come::Client(1),
    Come::More(1, BEGINS),
    Come::More(1, HEADER_LINES),
    Come::More(1, TWO_MORE),
    Come::Client(2),
    Come::More(2, BEGINS),
    Come::More(2, HEADER_LINES),
    Come::More(2, THREE_MORE),
    Come::Client(3),
    Come::More(3, BEGINS),
    Come::Letters(3, 4096),
    Come::Letters(3, 4096),
    Come::Client(4),
    Come::More(4, b"POST /events HTTP/1.1\r\nContent-Length: 12x\r\n\r\n"),
    Come::Client(5),
    Come::More(
        5,
        b"POST /events HTTP/1.1\r\nContent-Length: 12\r\nContent-Length: 12\r\n\r\n",
    ),
    Come::Client(6),
    Come::More(
        6,
        b"POST /events HTTP/1.1\r\nContent-Length: 00000000012\r\n\r\n",
    ),
    Come::Client(7),
    Come::More(7, b"POST /events HTTP/1.1\r\nContent-Length: 0\r\n\r\n"),
    Come::Client(8),
    Come::More(8, b"POST /events HTTP/1.1\r\nContent-Le"),
    Come::Ended(8),
    Come::Client(9),
    Come::Asks(9, USER),
];

/// What they are told, one after the other.
const HEADS_TOLD: &str =
    "HTTP/1.1 200 OK\r\nContent-Type: application/json\r\nContent-Length: 30\r\nConnection: close\r\n\r\n{\"event\":\"t1\",\"reply\":\"done\"}\n\
    HTTP/1.1 400 Bad Request\r\nContent-Type: application/json\r\nContent-Length: 32\r\nConnection: close\r\n\r\n{\"fault\":\"HEAD\",\"reply\":\"http\"}\n\
    HTTP/1.1 400 Bad Request\r\nContent-Type: application/json\r\nContent-Length: 37\r\nConnection: close\r\n\r\n{\"fault\":\"HEAD_LONG\",\"reply\":\"http\"}\n\
    HTTP/1.1 400 Bad Request\r\nContent-Type: application/json\r\nContent-Length: 37\r\nConnection: close\r\n\r\n{\"fault\":\"NO_LENGTH\",\"reply\":\"http\"}\n\
    HTTP/1.1 400 Bad Request\r\nContent-Type: application/json\r\nContent-Length: 37\r\nConnection: close\r\n\r\n{\"fault\":\"NO_LENGTH\",\"reply\":\"http\"}\n\
    HTTP/1.1 400 Bad Request\r\nContent-Type: application/json\r\nContent-Length: 37\r\nConnection: close\r\n\r\n{\"fault\":\"NO_LENGTH\",\"reply\":\"http\"}\n\
    HTTP/1.1 400 Bad Request\r\nContent-Type: application/json\r\nContent-Length: 32\r\nConnection: close\r\n\r\n{\"fault\":\"JSON\",\"reply\":\"form\"}\n\
    HTTP/1.1 200 OK\r\nContent-Type: application/json\r\nContent-Length: 30\r\nConnection: close\r\n\r\n{\"event\":\"t1\",\"reply\":\"done\"}\n";

const CHUNKED: &[Come<'static>] = &[
    Come::Client(1),
    Come::Asks(1, FIRST),
    Come::More(
        1000001,
        b"HTTP/1.1 200 OK\r\nTransfer-Encoding: chunked\r\n\r\n",
    ),
    Come::Ended(1000001),
];

const CUT: &[Come<'static>] = &[
    Come::Client(1),
    Come::Asks(1, FIRST),
    Come::More(
        1000001,
        b"HTTP/1.1 200 OK\r\nContent-Length: 65\r\n\r\n{\"token\":\"00000000-0007-8000-8000-000000000001\",\"amount\":\"60.00\"",
    ),
    Come::Ended(1000001),
];

const REFUSED: &[Come<'static>] = &[
    Come::Client(1),
    Come::Asks(1, FIRST),
    Come::More(1000001, b"HTTP/1.1 402 Payment Required\r\n\r\n"),
    Come::Ended(1000001),
];

const CHUNKED_TOLD: &str =
    "POST /jit HTTP/1.1\r\nHost: localhost\r\nContent-Type: application/json\r\nContent-Length: 195\r\nConnection: close\r\n\r\n{\"amount\":\"60.00\",\"card\":\"c1\",\"currency\":\"USD\",\"event\":\"a1\",\"mcc\":\"5411\",\"method\":\"pgfs.authorization\",\"mid\":\"m1\",\"number\":1,\"token\":\"00000000-0007-8000-8000-000000000001\",\"txn\":\"a1\",\"user\":\"u1\"}\
    POST /jit HTTP/1.1\r\nHost: localhost\r\nContent-Type: application/json\r\nContent-Length: 151\r\nConnection: close\r\n\r\n{\"amount\":\"60.00\",\"currency\":\"USD\",\"gateway\":\"0.00\",\"method\":\"x.void\",\"notice\":1,\"token\":\"00000000-0007-8000-8000-000000000001\",\"txn\":\"a1\",\"user\":\"u1\"}\
    HTTP/1.1 200 OK\r\nContent-Type: application/json\r\nContent-Length: 65\r\nConnection: close\r\n\r\n{\"event\":\"a1\",\"reason\":\"GATEWAY_APPLICATION\",\"reply\":\"declined\"}\n";

const CUT_TOLD: &str =
    "POST /jit HTTP/1.1\r\nHost: localhost\r\nContent-Type: application/json\r\nContent-Length: 195\r\nConnection: close\r\n\r\n{\"amount\":\"60.00\",\"card\":\"c1\",\"currency\":\"USD\",\"event\":\"a1\",\"mcc\":\"5411\",\"method\":\"pgfs.authorization\",\"mid\":\"m1\",\"number\":1,\"token\":\"00000000-0007-8000-8000-000000000001\",\"txn\":\"a1\",\"user\":\"u1\"}\
    POST /jit HTTP/1.1\r\nHost: localhost\r\nContent-Type: application/json\r\nContent-Length: 151\r\nConnection: close\r\n\r\n{\"amount\":\"60.00\",\"currency\":\"USD\",\"gateway\":\"0.00\",\"method\":\"x.void\",\"notice\":1,\"token\":\"00000000-0007-8000-8000-000000000001\",\"txn\":\"a1\",\"user\":\"u1\"}\
    HTTP/1.1 200 OK\r\nContent-Type: application/json\r\nContent-Length: 64\r\nConnection: close\r\n\r\n{\"event\":\"a1\",\"reason\":\"GATEWAY_CONNECTION\",\"reply\":\"declined\"}\n";

const REFUSED_TOLD: &str =
    "POST /jit HTTP/1.1\r\nHost: localhost\r\nContent-Type: application/json\r\nContent-Length: 195\r\nConnection: close\r\n\r\n{\"amount\":\"60.00\",\"card\":\"c1\",\"currency\":\"USD\",\"event\":\"a1\",\"mcc\":\"5411\",\"method\":\"pgfs.authorization\",\"mid\":\"m1\",\"number\":1,\"token\":\"00000000-0007-8000-8000-000000000001\",\"txn\":\"a1\",\"user\":\"u1\"}\
    HTTP/1.1 200 OK\r\nContent-Type: application/json\r\nContent-Length: 62\r\nConnection: close\r\n\r\n{\"event\":\"a1\",\"reason\":\"GATEWAY_DECLINED\",\"reply\":\"declined\"}\n";

static STRANGERS: [Run; 4] = [
    Run {
        what: "heads of strangers",
        device: Device {
            lines: "",
            ..SETTLED
        },
        comes: HEADS,
        done: "S.W.S.W.S.E1X1E2X2E3X3E4X4E5X5E6X6E7X7X8E9X9",
        heard: "C1R1T1R1T1R1T1E1C2R2T2R2T2R2T2E2C3R3T3R3T3R3T3E3C4R4T4E4C5R5T5E5C6R6T6E6C7R7T7E7C8R8T8R8T8C9R9T9E9Z.",
        sent: Some(HEADS_TOLD),
        ..SERVE
    },
    Run {
        what: "an answer with a coding",
        comes: CHUNKED,
        done: "S.W.S.W.S.DAEAXAW.S.W.S.DBEBE1X1XB",
        heard: "C1R1T1DAEARATADBEBE1RAZ.",
        sent: Some(CHUNKED_TOLD),
        ..SERVE
    },
    Run {
        what: "an answer that ends one byte early",
        comes: CUT,
        done: "S.W.S.W.S.DAEAXAW.S.W.S.DBEBE1X1XB",
        heard: "C1R1T1DAEARATARATADBEBE1Z.",
        sent: Some(CUT_TOLD),
        ..SERVE
    },
    Run {
        what: "a refusal without a length",
        comes: REFUSED,
        done: "S.W.S.W.S.DAEAXAW.S.W.S.E1X1",
        heard: "C1R1T1DAEARATARATAE1Z.",
        sent: Some(REFUSED_TOLD),
        ..SERVE
    },
];

pub(crate) fn strangers() -> &'static [Run] {
    &STRANGERS
}
