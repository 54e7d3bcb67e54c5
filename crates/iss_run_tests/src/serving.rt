//! Runs that serve clients, with a gateway on the channels that are dialled.
use crate::playing::{Come, Device, NO_DEVICE, OPENING, Run};
use crate::rows::HEADER_OF_7;

/// A product that a gateway funds, a user and a card.
pub(crate) const SETTINGS: &str =
    r#"{"type":"product","token":"p1","product":"g","currency":"USD","funding":"GATEWAY"}
{"type":"user","token":"t1","user":"u1"}
{"type":"card","token":"t2","card":"c1","user":"u1","product":"g"}
"#;

/// A product that a gateway funds, a user and a card, and a purchase that waits for the gateway.
const ONE_ASKED: &str =
    r#"{"type":"product","token":"p1","product":"g","currency":"USD","funding":"GATEWAY"}
{"type":"user","token":"t1","user":"u1"}
{"type":"card","token":"t2","card":"c1","user":"u1","product":"g"}
{"type":"authorization","token":"a1","card":"c1","currency":"USD","amount":"60.00","mcc":"5411","mid":"m1"}
"#;

/// A product, a user and a card, and two purchases that wait for the gateway.
const TWO_ASKED: &str =
    r#"{"type":"product","token":"p1","product":"g","currency":"USD","funding":"GATEWAY"}
{"type":"user","token":"t1","user":"u1"}
{"type":"card","token":"t2","card":"c1","user":"u1","product":"g"}
{"type":"authorization","token":"a1","card":"c1","currency":"USD","amount":"60.00","mcc":"5411","mid":"m1"}
{"type":"authorization","token":"a2","card":"c1","currency":"USD","amount":"30.00","mcc":"5411","mid":"m1"}
"#;

const USER: &str = r#"{"type":"user","token":"t1","user":"u1"}"#;

const ANOTHER_USER: &str = r#"{"type":"user","token":"t9","user":"u9"}"#;

const TIME: &str = r#"{"type":"time","at":1}"#;

/// Purchases, whose calls get the numbers 1, 2 and 3.
pub(crate) const FIRST: &str =
    r#"{"type":"authorization","token":"a1","card":"c1","currency":"USD","amount":"60.00","mcc":"5411","mid":"m1"}"#;

const SECOND: &str =
    r#"{"type":"authorization","token":"a2","card":"c1","currency":"USD","amount":"30.00","mcc":"5411","mid":"m1"}"#;

const THIRD: &str =
    r#"{"type":"authorization","token":"a3","card":"c1","currency":"USD","amount":"10.00","mcc":"5411","mid":"m1"}"#;

/// The gateway's answers to the first call and to the second.
pub(crate) const FUNDED_1: &[u8] =
    b"HTTP/1.1 200 OK\r\nContent-Length: 65\r\n\r\n{\"token\":\"00000000-0007-8000-8000-000000000001\",\"amount\":\"60.00\"}";

pub(crate) const FUNDED_2: &[u8] =
    b"HTTP/1.1 200 OK\r\nContent-Length: 65\r\n\r\n{\"token\":\"00000000-0007-8000-8000-000000000002\",\"amount\":\"30.00\"}";

const REFUSED: &[u8] = b"HTTP/1.1 402 Payment Required\r\nContent-Length: 0\r\n\r\n";

const ACKNOWLEDGED: &[u8] = b"HTTP/1.1 200 OK\r\nContent-Length: 0\r\n\r\n";

const DONE: &str =
    "HTTP/1.1 200 OK\r\nContent-Type: application/json\r\nContent-Length: 30\r\nConnection: close\r\n\r\n{\"event\":\"t1\",\"reply\":\"done\"}\n";

/// A device of instance 7 with the settings.
pub(crate) const SETTLED: Device = Device {
    size: 1000,
    pieces: &[HEADER_OF_7],
    lines: SETTINGS,
    ..NO_DEVICE
};

pub(crate) const SERVE: Run = Run {
    words: &["serve", "d", "80", "81", "1000"],
    device: SETTLED,
    ..OPENING
};

/// One request in three pieces, cut inside the last header line and inside the body.
const PIECES: &[Come<'static>] = &[
    Come::Client(1),
    Come::More(1, b"POST /events HTTP/1.1\r\nContent-Len"),
    Come::More(1, b"gth: 40\r\n\r\n{\"type\":\"user\",\"tok"),
    Come::More(1, b"en\":\"t1\",\"user\":\"u1\"}"),
];

/// An event, the same again, and a time, which no client may send.
const IN_TURN: &[Come<'static>] = &[
    Come::Client(1),
    Come::Asks(1, USER),
    Come::Client(2),
    Come::Asks(2, USER),
    Come::Client(3),
    Come::Asks(3, TIME),
];

/// A client that ends early, one that goes silent, and one that is answered all the same.
const ENDS_EARLY: &[Come<'static>] = &[
    Come::Client(2),
    Come::More(2, b"POST /ev"),
    Come::Client(3),
    Come::Ended(2),
    Come::Client(1),
    Come::Asks(1, USER),
];

/// Two purchases wait for the gateway at once. It funds the second one first and then refuses the first; a client comes and ends.
const TWO_IN_FLIGHT: &[Come<'static>] = &[
    Come::Client(1),
    Come::Asks(1, FIRST),
    Come::Client(2),
    Come::Asks(2, SECOND),
    Come::More(1000002, FUNDED_2),
    Come::Client(3),
    Come::Ended(3),
    Come::More(1000001, REFUSED),
];

/// A purchase, and the time at which the gateway's answer is too late; then what became of the notice.
const TOO_LATE: &[Come<'static>] = &[
    Come::Client(1),
    Come::Asks(1, FIRST),
    Come::Time(3000),
    Come::More(1000002, ACKNOWLEDGED),
    Come::More(1000001, REFUSED),
];

/// A purchase on which the gateway says nothing, and another user.
const SILENT: &[Come<'static>] = &[
    Come::Client(1),
    Come::Asks(1, FIRST),
    Come::Client(2),
    Come::Asks(2, ANOTHER_USER),
];

/// A purchase is funded, two more wait for the gateway, and at a time these have ended and the first has expired.
const THREE_NOTICES: &[Come<'static>] = &[
    Come::Client(1),
    Come::Asks(1, FIRST),
    Come::More(1000001, FUNDED_1),
    Come::Time(604796999),
    Come::Client(5),
    Come::Asks(5, SECOND),
    Come::Time(604797000),
    Come::Client(6),
    Come::Asks(6, THIRD),
    Come::Time(604800000),
];

/// Two purchases that wait for the gateway at once, and what becomes of them.
pub(crate) const TWO_CALLS: Run = Run {
    what: "two calls at once",
    comes: TWO_IN_FLIGHT,
    done: "S.W.S.W.S.DAEAW.S.W.S.DBEBXBW.S.W.S.E2X2X3XAW.S.W.S.E1X1",
    heard: "C1R1T1DAEAC2R2T2DBEBRBTBE2C3R3T3RATAE1Z.",
    calls: 46,
    levels: &[4, 5, 6, 7],
    ..SERVE
};

/// Runs that serve, each of which may stop.
static SERVED: [Run; 18] = [
    Run {
        what: "a request comes in three pieces",
        device: Device {
            lines: "",
            ..SETTLED
        },
        comes: PIECES,
        done: "S.W.S.W.S.E1X1",
        heard: "C1R1T1R1T1R1T1E1Z.",
        sent: Some(DONE),
        calls: 17,
        levels: &[1],
        ..SERVE
    },
    Run {
        what: "its answer is torn",
        device: Device {
            lines: "",
            ..SETTLED
        },
        comes: PIECES,
        fails: &[16],
        done: "S.W.S.W.S.e1X1",
        heard: "C1R1T1R1T1R1T1e1Z.",
        sent: Some("HTT"),
        levels: &[1],
        ..SERVE
    },
    Run {
        what: "it comes by the last wait",
        words: &["serve", "d", "80", "81", "4"],
        device: Device {
            lines: "",
            ..SETTLED
        },
        comes: PIECES,
        done: "S.W.S.W.S.E1X1",
        heard: "C1R1T1R1T1R1T1E1",
        sent: Some(DONE),
        calls: 16,
        levels: &[1],
        ..SERVE
    },
    Run {
        what: "it needs one wait more",
        words: &["serve", "d", "80", "81", "3"],
        device: Device {
            lines: "",
            ..SETTLED
        },
        comes: PIECES,
        done: "S.X1",
        heard: "C1R1T1R1T1",
        sent: Some(""),
        calls: 9,
        levels: &[0],
        ..SERVE
    },
    Run {
        what: "clients are answered in turn",
        device: Device {
            lines: "",
            ..SETTLED
        },
        comes: IN_TURN,
        done: "S.W.S.W.S.E1X1E2X2E3X3",
        heard: "C1R1T1E1C2R2T2E2C3R3T3E3Z.",
        calls: 21,
        levels: &[1, 1, 1],
        ..SERVE
    },
    Run {
        what: "a client that ends early costs itself",
        device: Device {
            lines: "",
            ..SETTLED
        },
        comes: ENDS_EARLY,
        done: "S.X2W.S.W.S.E1X1X3",
        heard: "C2R2T2C3R2T2C1R1T1E1Z.",
        sent: Some(DONE),
        calls: 19,
        levels: &[1],
        ..SERVE
    },
    TWO_CALLS,
    Run {
        what: "two calls are open at the end",
        words: &["serve", "d", "80", "81", "4"],
        comes: TWO_IN_FLIGHT,
        done: "S.W.S.W.S.DAEAW.S.W.S.DBEBX1X2XAXB",
        heard: "C1R1T1DAEAC2R2T2DBEB",
        calls: 28,
        levels: &[4, 5],
        ..SERVE
    },
    Run {
        what: "a call is open at the end, and a client has said nothing",
        words: &["serve", "d", "80", "81", "3"],
        comes: TWO_IN_FLIGHT,
        done: "S.W.S.W.S.DAEAX2X1XA",
        heard: "C1R1T1DAEAC2",
        calls: 20,
        levels: &[4],
        ..SERVE
    },
    Run {
        what: "a gateway that isn't reached for the first purchase",
        words: &["serve", "d", "80", "81", "4"],
        comes: TWO_IN_FLIGHT,
        fails: &[18],
        done: "S.W.S.W.S.W.S.W.S.DAEAE1X1W.S.W.S.DBEBX2XAXB",
        heard: "C1R1T1d.DAEAE1C2R2T2DBEB",
        levels: &[5, 5, 6],
        ..SERVE
    },
    Run {
        what: "an answer that is too late",
        comes: TOO_LATE,
        done: "S.W.S.W.S.DAEAW.S.W.S.DBEBE1X1XBW.S.W.S.XA",
        heard: "C1R1T1DAEAM.DBEBE1RBTBRATAZ.",
        calls: 36,
        levels: &[4, 5, 5],
        ..SERVE
    },
    Run {
        what: "a call that has ended at the end",
        words: &["serve", "d", "80", "81", "3"],
        comes: TOO_LATE,
        done: "S.W.S.W.S.DAEAW.S.W.S.DBEBE1X1XAXB",
        heard: "C1R1T1DAEAM.DBEBE1",
        calls: 27,
        levels: &[4, 5, 5],
        ..SERVE
    },
    Run {
        what: "a gateway that says nothing",
        comes: SILENT,
        done: "S.W.S.W.S.DAEAW.S.W.S.E2X2X1XA",
        heard: "C1R1T1DAEAC2R2T2E2Z.",
        calls: 28,
        levels: &[4, 5],
        ..SERVE
    },
    Run {
        what: "three notices, with two decisions between them",
        comes: THREE_NOTICES,
        done: "S.W.S.W.S.DAEAXAW.S.W.S.E1X1W.S.W.S.DBEBW.S.W.S.DCECW.S.W.S.DDEDE5X5DEEEE6X6DFEFXBXCXDXEXF",
        heard: "C1R1T1DAEARATAE1M.C5R5T5DBEBM.C6R6T6DCECM.DDEDE5DEEEE6DFEFZ.",
        calls: 60,
        levels: &[4, 5, 6, 7, 8, 8, 8, 8, 8],
        ..SERVE
    },
    Run {
        what: "nothing comes",
        words: &["serve", "d", "80", "81", "2"],
        comes: &[],
        done: "S.",
        heard: "Z.",
        calls: 11,
        levels: &[3],
        ..SERVE
    },
    Run {
        what: "two calls are asked again",
        words: &["serve", "d", "80", "81", "1"],
        device: Device {
            lines: TWO_ASKED,
            ..SETTLED
        },
        comes: &[],
        done: "S.DAEADBEBXAXB",
        heard: "DAEADBEBZ.",
        calls: 19,
        levels: &[5, 5],
        ..SERVE
    },
    Run {
        what: "two calls are asked again, and their events come again",
        words: &["serve", "d", "80", "81", "4"],
        device: Device {
            lines: TWO_ASKED,
            ..SETTLED
        },
        comes: TWO_IN_FLIGHT,
        done: "S.DAEADBEBE1X1E2X2XAXB",
        heard: "DAEADBEBC1R1T1E1C2R2T2E2",
        calls: 26,
        levels: &[5, 5, 5, 5],
        ..SERVE
    },
    Run {
        what: "a call is asked again, and another one is new",
        words: &["serve", "d", "80", "81", "4"],
        device: Device {
            lines: ONE_ASKED,
            ..SETTLED
        },
        comes: TWO_IN_FLIGHT,
        done: "S.DAEAE1X1W.S.W.S.DBEBX2XAXB",
        heard: "DAEAC1R1T1E1C2R2T2DBEB",
        calls: 27,
        levels: &[4, 4, 5],
        ..SERVE
    },
];

pub(crate) fn served() -> &'static [Run] {
    &SERVED
}
