//! Worked runs on a device that is nearly full: it turns before the first record of each.
use crate::lines::{DAY, DAY_TOLD};
use crate::playing::{Device, NO_DEVICE, OPENING, Run, Waiting};
use crate::rows::HALVES;

/// A device in halves of 2882 bytes each. Its 50 records leave 29 bytes, and the first record of each run needs 30.
const PADDED: Device = Device {
    size: 5781,
    pieces: &[HALVES],
    moves: 49,
    ..NO_DEVICE
};

/// How many bytes the image of those 50 records has.
pub(crate) const IMAGE_LENGTH: usize = 1529;

const PURCHASE_AGAIN: &str =
    r#"{"type":"product","token":"p1","product":"g","currency":"USD","funding":"GATEWAY"}
{"type":"user","token":"t1","user":"u1"}
{"type":"card","token":"t2","card":"c1","user":"u1","product":"g"}
{"type":"authorization","token":"a1","card":"c1","currency":"USD","amount":"60.00","mcc":"5411","mid":"m1","at":1000}
{"type":"authorization","token":"a1","card":"c1","currency":"USD","amount":"60.00","mcc":"5411","mid":"m1"}
{"type":"answer","call":1,"outcome":"FUNDED"}
{"type":"answer","call":1,"outcome":"FUNDED"}
{"type":"answer","call":2,"outcome":"FUNDED"}
"#;

const PURCHASE_AGAIN_TOLD: &str = r#"{"event":"p1","reply":"done"}
{"event":"t1","reply":"done"}
{"event":"t2","reply":"done"}
{"amount":"60.00","card":"c1","currency":"USD","event":"a1","mcc":"5411","method":"pgfs.authorization","mid":"m1","number":1,"token":"00000000-0000-8000-8000-000000000001","txn":"a1","user":"u1"}
{"event":"a1","reply":"pending"}
{"event":"a1","reply":"approved"}
{"call":1,"reply":"late","state":"FUNDED"}
{"call":2,"reply":"unknown"}
"#;

const STAND_IN: &str =
    r#"{"type":"product","token":"p1","product":"g","currency":"USD","funding":"GATEWAY"}
{"type":"user","token":"t1","user":"u1"}
{"type":"card","token":"t2","card":"c1","user":"u1","product":"g"}
{"type":"set","token":"t5","set":"s1","product":"g","currency":"USD","connection":true,"max":"100.00","day_limit":"100.00"}
{"type":"authorization","token":"a1","card":"c1","currency":"USD","amount":"100.00","mcc":"5411","mid":"m1"}
{"type":"answer","call":1,"outcome":"CONNECTION"}
{"type":"authorization","token":"a2","card":"c1","currency":"USD","amount":"0.01","mcc":"5411","mid":"m1"}
{"type":"answer","call":2,"outcome":"CONNECTION"}
{"type":"authorization","token":"a3","card":"c1","currency":"USD","amount":"1.00","mcc":"5411","mid":"m1"}
{"type":"answer","call":3,"outcome":"APPLICATION"}
{"type":"switch","token":"t6","product":"g","on":true}
{"type":"authorization","token":"a4","card":"c1","currency":"USD","amount":"1.00","mcc":"5411","mid":"m1"}
"#;

const STAND_IN_TOLD: &str = r#"{"event":"p1","reply":"done"}
{"event":"t1","reply":"done"}
{"event":"t2","reply":"done"}
{"event":"t5","reply":"done"}
{"amount":"100.00","card":"c1","currency":"USD","event":"a1","mcc":"5411","method":"pgfs.authorization","mid":"m1","number":1,"token":"00000000-0000-8000-8000-000000000001","txn":"a1","user":"u1"}
{"amount":"100.00","currency":"USD","gateway":"0.00","method":"x.void","notice":1,"token":"00000000-0000-8000-8000-000000000001","txn":"a1","user":"u1"}
{"amount":"100.00","currency":"USD","gateway":"0.00","method":"x.standin","notice":2,"txn":"a1","user":"u1"}
{"event":"a1","reply":"approved"}
{"amount":"0.01","card":"c1","currency":"USD","event":"a2","mcc":"5411","method":"pgfs.authorization","mid":"m1","number":2,"token":"00000000-0000-8000-8000-000000000002","txn":"a2","user":"u1"}
{"amount":"0.01","currency":"USD","gateway":"0.00","method":"x.void","notice":3,"token":"00000000-0000-8000-8000-000000000002","txn":"a2","user":"u1"}
{"event":"a2","reason":"STAND_IN_LIMIT:s1","reply":"declined"}
{"amount":"1.00","card":"c1","currency":"USD","event":"a3","mcc":"5411","method":"pgfs.authorization","mid":"m1","number":3,"token":"00000000-0000-8000-8000-000000000003","txn":"a3","user":"u1"}
{"amount":"1.00","currency":"USD","gateway":"0.00","method":"x.void","notice":4,"token":"00000000-0000-8000-8000-000000000003","txn":"a3","user":"u1"}
{"event":"a3","reason":"GATEWAY_APPLICATION","reply":"declined"}
{"event":"t6","reply":"done"}
{"event":"a4","reason":"STAND_IN_LIMIT:s1","reply":"declined"}
"#;

const REVERSED: &str =
    r#"{"type":"product","token":"p1","product":"g","currency":"USD","funding":"GATEWAY"}
{"type":"user","token":"t1","user":"u1"}
{"type":"card","token":"t2","card":"c1","user":"u1","product":"g"}
{"type":"authorization","token":"a1","card":"c1","currency":"USD","amount":"60.00","mcc":"5411","mid":"m1","at":1000}
{"type":"reversal","token":"r1","txn":"a1","currency":"USD","amount":"60.00"}
{"type":"answer","call":1,"outcome":"FUNDED"}
{"type":"ack","notice":1}
{"type":"ack","notice":1}
{"type":"reversal","token":"r2","txn":"a1","currency":"USD","amount":"1.00"}
"#;

const REVERSED_TOLD: &str = r#"{"event":"p1","reply":"done"}
{"event":"t1","reply":"done"}
{"event":"t2","reply":"done"}
{"amount":"60.00","card":"c1","currency":"USD","event":"a1","mcc":"5411","method":"pgfs.authorization","mid":"m1","number":1,"token":"00000000-0000-8000-8000-000000000001","txn":"a1","user":"u1"}
{"amount":"60.00","currency":"USD","gateway":"0.00","method":"x.void","notice":1,"token":"00000000-0000-8000-8000-000000000001","txn":"a1","user":"u1"}
{"event":"a1","reason":"REVERSED","reply":"declined"}
{"event":"r1","reply":"done"}
{"call":1,"reply":"late","state":"ABANDONED"}
{"notice":1,"reply":"acked"}
{"notice":1,"reply":"already"}
{"event":"r2","reason":"TXN_CLOSED","reply":"declined"}
"#;

const CLEARED: &str =
    r#"{"type":"product","token":"p1","product":"g","currency":"USD","funding":"GATEWAY"}
{"type":"user","token":"t1","user":"u1"}
{"type":"card","token":"t2","card":"c1","user":"u1","product":"g"}
{"type":"authorization","token":"a1","card":"c1","currency":"USD","amount":"20.00","mcc":"5411","mid":"m1"}
{"type":"answer","call":1,"outcome":"FUNDED"}
{"type":"clearing","token":"k1","txn":"a1","currency":"USD","amount":"15.00"}
{"type":"clearing","token":"k2","txn":"a1","currency":"USD","amount":"7.00","final":true}
"#;

const CLEARED_TOLD: &str = r#"{"event":"p1","reply":"done"}
{"event":"t1","reply":"done"}
{"event":"t2","reply":"done"}
{"amount":"20.00","card":"c1","currency":"USD","event":"a1","mcc":"5411","method":"pgfs.authorization","mid":"m1","number":1,"token":"00000000-0000-8000-8000-000000000001","txn":"a1","user":"u1"}
{"event":"a1","reply":"approved"}
{"amount":"15.00","currency":"USD","gateway":"0.00","method":"pgfs.authorization.capture","notice":1,"txn":"a1","user":"u1"}
{"event":"k1","reply":"done"}
{"amount":"7.00","currency":"USD","gateway":"0.00","method":"pgfs.authorization.capture","notice":2,"txn":"a1","user":"u1"}
{"event":"k2","reply":"done"}
"#;

/// The least number of records at which a text no longer waits that is never acknowledged.
const NEVER: usize = 1000;

static WORKED: [Run; 4] = [
    Run {
        what: "a purchase that comes again, and a late answer",
        device: PADDED,
        input: PURCHASE_AGAIN,
        done: "S.W.S.W.S.W.S.W.S.E0W.S.W.S.E0W.S.W.S.E0W.S.W.S.E0E0W.S.W.S.E0E0E0",
        heard: "T0E0E0E0E0E0E0E0E0T0",
        sent: Some(PURCHASE_AGAIN_TOLD),
        levels: &[51, 52, 53, 54, 54, 55, 55, 55],
        waiting: Some(&[Waiting {
            text: 3,
            from: 54,
            until: 55,
        }]),
        ..OPENING
    },
    Run {
        what: "a set that stands in, up to its limits",
        device: PADDED,
        input: STAND_IN,
        done: "S.W.S.W.S.W.S.W.S.E0W.S.W.S.E0W.S.W.S.E0W.S.W.S.E0W.S.W.S.E0W.S.W.S.E0E0E0W.S.W.S.E0W.S.W.S.E0E0W.S.W.S.E0W.S.W.S.E0E0W.S.W.S.E0W.S.W.S.E0",
        heard: "T0E0E0E0E0E0E0E0E0E0E0E0E0E0E0E0E0T0",
        sent: Some(STAND_IN_TOLD),
        levels: &[
            51, 52, 53, 54, 55, 56, 56, 56, 57, 58, 58, 59, 60, 60, 61, 62,
        ],
        waiting: Some(&[
            Waiting {
                text: 4,
                from: 55,
                until: 56,
            },
            Waiting {
                text: 8,
                from: 57,
                until: 58,
            },
            Waiting {
                text: 11,
                from: 59,
                until: 60,
            },
            Waiting {
                text: 5,
                from: 56,
                until: NEVER,
            },
            Waiting {
                text: 6,
                from: 56,
                until: NEVER,
            },
            Waiting {
                text: 9,
                from: 58,
                until: NEVER,
            },
            Waiting {
                text: 12,
                from: 60,
                until: NEVER,
            },
        ]),
        ..OPENING
    },
    Run {
        what: "a purchase that is reversed while the gateway is asked",
        device: PADDED,
        input: REVERSED,
        done: "S.W.S.W.S.W.S.W.S.E0W.S.W.S.E0W.S.W.S.E0W.S.W.S.E0W.S.W.S.E0E0E0E0W.S.W.S.E0E0W.S.W.S.E0",
        heard: "T0E0E0E0E0E0E0E0E0E0E0E0T0",
        sent: Some(REVERSED_TOLD),
        levels: &[51, 52, 53, 54, 55, 55, 55, 55, 56, 56, 57],
        waiting: Some(&[
            Waiting {
                text: 3,
                from: 54,
                until: 55,
            },
            Waiting {
                text: 4,
                from: 55,
                until: 56,
            },
        ]),
        ..OPENING
    },
    Run {
        what: "a purchase that is cleared in two parts",
        device: PADDED,
        input: CLEARED,
        done: "S.W.S.W.S.W.S.W.S.E0W.S.W.S.E0W.S.W.S.E0W.S.W.S.E0W.S.W.S.E0W.S.W.S.E0E0W.S.W.S.E0E0",
        heard: "T0E0E0E0E0E0E0E0E0E0T0",
        sent: Some(CLEARED_TOLD),
        levels: &[51, 52, 53, 54, 55, 56, 56, 57, 57],
        waiting: Some(&[
            Waiting {
                text: 3,
                from: 54,
                until: 55,
            },
            Waiting {
                text: 5,
                from: 56,
                until: NEVER,
            },
            Waiting {
                text: 7,
                from: 57,
                until: NEVER,
            },
        ]),
        ..OPENING
    },
];

static WORKED_DAY: [Run; 1] = [Run {
    what: "a day",
    device: PADDED,
    input: DAY,
    done: "S.W.S.W.S.W.S.W.S.E0W.S.W.S.E0W.S.W.S.E0W.S.W.S.E0W.S.W.S.E0W.S.W.S.E0W.S.W.S.E0W.S.W.S.E0E0W.S.W.S.E0W.S.W.S.E0W.S.W.S.E0W.S.W.S.E0W.S.W.S.E0E0W.S.W.S.E0W.S.W.S.E0W.S.W.S.E0E0W.S.W.S.E0E0W.S.W.S.E0W.S.W.S.E0E0E0W.S.W.S.E0E0",
    heard: "T0E0E0E0E0E0E0E0E0E0E0E0E0E0E0E0E0E0E0E0E0E0E0E0E0E0E0E0T0",
    sent: Some(DAY_TOLD),
    calls: 221,
    levels: &[
        51, 52, 53, 54, 55, 56, 57, 58, 58, 59, 60, 61, 62, 63, 63, 64, 65, 66, 66, 67, 67, 68, 69,
        69, 69, 70, 70,
    ],
    waiting: Some(&[
        Waiting {
            text: 5,
            from: 56,
            until: 57,
        },
        Waiting {
            text: 9,
            from: 59,
            until: 60,
        },
        Waiting {
            text: 11,
            from: 61,
            until: 62,
        },
        Waiting {
            text: 15,
            from: 64,
            until: 65,
        },
        Waiting {
            text: 21,
            from: 68,
            until: 69,
        },
        Waiting {
            text: 7,
            from: 58,
            until: NEVER,
        },
        Waiting {
            text: 13,
            from: 63,
            until: NEVER,
        },
        Waiting {
            text: 17,
            from: 66,
            until: NEVER,
        },
        Waiting {
            text: 19,
            from: 67,
            until: NEVER,
        },
        Waiting {
            text: 22,
            from: 69,
            until: NEVER,
        },
        Waiting {
            text: 23,
            from: 69,
            until: NEVER,
        },
        Waiting {
            text: 25,
            from: 70,
            until: NEVER,
        },
    ]),
    ..OPENING
}];

/// Four runs, which make two to twelve records.
pub(crate) fn padded() -> &'static [Run] {
    &WORKED
}

/// The day, which makes twenty.
pub(crate) fn padded_day() -> &'static [Run] {
    &WORKED_DAY
}
