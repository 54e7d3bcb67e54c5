//! Runs that leave no records, and devices that aren't opened or whose end gate was torn.
use crate::lines::{
    ONE_USER_AND_A_HALF, ONE_USER_REPORTED, TWO_TIMEOUTS_AND_AN_EXPIRY,
    TWO_TIMEOUTS_AND_AN_EXPIRY_TOLD, TWO_USERS, TWO_USERS_DONE, USER, USER_DONE,
};
use crate::playing::{Device, NO_DEVICE, OPENING, Run};

/// The header of instance 0.
pub(crate) const HEADER: &[u8] = b"\x01ISS1\x01\0\0\0\0\0\0\0\0\0\0";

pub(crate) const HEADER_OF_7: &[u8] = b"\x01ISS1\x01\0\0\0\0\0\0\0\0\0\x07";

/// The header of a device in halves, of instance 0. Zeros after it name the first half, with an image of no bytes and no records.
pub(crate) const HALVES: &[u8] = b"\x01ISS1\x02\0\0\0\0\0\0\0\0\0\0";

pub(crate) const HALVES_OF_7: &[u8] = b"\x01ISS1\x02\0\0\0\0\0\0\0\0\0\x07";

/// The selector of the first half, the length of its image, and its first gate.
const NOTHING_IN_HALVES: &[u8] = b"\0\0\0\0\0\0";

/// The image of the user `u1`, made by the event `t1`, after its length and the selector. Its verdict is one that no event has.
const BAD_IMAGE: &[u8] =
    b"\0\0\0\0\x49\0\0\0\x01\0\0\0\0\0\0\0\0\0\0\0\x02\x02t1\x02u1\0\0\0\x01\0\0\0\x01\x01\0\0\0\0\0\0\0\0\0\0\0\0\0\0\0\x01\x02\0";

/// The record of the user `u1`, made by the event `t1`, after its open gate.
pub(crate) const USER_RECORD: &[u8] = b"\x01\0\0\0\x0f\x01\0\0\0\0\0\0\0\0\x02t1\x02u1";

/// An end gate that was torn.
const TORN: &[u8] = b"\x07";

/// Another user's record, without its gate.
const RECORD_LEFT: &[u8] = b"\0\0\0\x0f\x01\0\0\0\0\0\0\0\0\x02t9\x02u9\0";

/// The words of each command that opens a device.
pub(crate) const WORDS: [&[&str]; 3] = [
    &["replay", "d"],
    &["balances", "d"],
    &["serve", "d", "80", "81", "1000"],
];

const DRY: Run = Run {
    words: &["dry"],
    ..OPENING
};

const FORMAT: Run = Run {
    words: &["format", "d", "100", "7"],
    ..OPENING
};

/// There is input too, which no report reads.
pub(crate) const REPORT: Run = Run {
    words: &["balances", "d"],
    input: "x",
    ..OPENING
};

const REFUSED: Run = Run {
    input: USER,
    status: 4,
    sent: Some(""),
    ..OPENING
};

/// Runs that leave no records, and runs on devices whose end gate was torn. An image of these may have one record more,
/// which was left behind.
static PLAIN: [Run; 10] = [
    Run {
        what: "a dry run of nothing is one take",
        heard: "T0",
        sent: Some(""),
        calls: 1,
        ..DRY
    },
    Run {
        what: "a dry run of two users is two emits",
        input: TWO_USERS,
        done: "E0E0",
        heard: "T0E0E0T0",
        sent: Some(TWO_USERS_DONE),
        calls: 4,
        ..DRY
    },
    Run {
        what: "a dry run of lines with many texts",
        input: TWO_TIMEOUTS_AND_AN_EXPIRY,
        done: "E0E0E0E0E0E0E0E0E0E0E0E0E0",
        heard: "T0E0E0E0E0E0E0E0E0E0E0E0E0E0T0",
        sent: Some(TWO_TIMEOUTS_AND_AN_EXPIRY_TOLD),
        calls: 15,
        ..DRY
    },
    Run {
        what: "a dry run whose first emit fails sends three bytes",
        input: TWO_USERS,
        fails: &[2],
        status: 5,
        done: "e0",
        heard: "T0e0",
        sent: Some("{\"e"),
        ..DRY
    },
    Run {
        what: "a dry run whose second take fails doesn't answer half a line",
        input: ONE_USER_AND_A_HALF,
        fails: &[3],
        status: 3,
        done: "E0",
        heard: "T0E0t0",
        sent: Some(USER_DONE),
        ..DRY
    },
    Run {
        what: "formatting is six actions",
        device: Device {
            size: 100,
            pieces: &[&[9; 100]],
            lines: "",
            ..NO_DEVICE
        },
        done: "W0S.W1S.W0S.",
        leaves: Some(Device {
            size: 100,
            pieces: &[HALVES_OF_7, NOTHING_IN_HALVES, &[9; 78]],
            lines: "",
            ..NO_DEVICE
        }),
        calls: 6,
        ..FORMAT
    },
    Run {
        what: "a device of another size is not formatted",
        device: Device {
            size: 99,
            pieces: &[&[9; 99]],
            lines: "",
            ..NO_DEVICE
        },
        status: 4,
        leaves: Some(Device {
            size: 99,
            pieces: &[&[9; 99]],
            lines: "",
            ..NO_DEVICE
        }),
        ..FORMAT
    },
    Run {
        what: "a record left behind a torn end gate is no record",
        device: Device {
            size: 100,
            pieces: &[HEADER, USER_RECORD, TORN, RECORD_LEFT],
            lines: "",
            ..NO_DEVICE
        },
        input: USER,
        done: "S.W.S.E0",
        heard: "T0E0T0",
        sent: Some(USER_DONE),
        leaves: Some(Device {
            size: 100,
            pieces: &[HEADER, USER_RECORD, &[0], RECORD_LEFT],
            lines: "",
            ..NO_DEVICE
        }),
        ..OPENING
    },
    Run {
        what: "a torn end gate is mended",
        device: Device {
            size: 100,
            pieces: &[HEADER, USER_RECORD, TORN],
            lines: "",
            ..NO_DEVICE
        },
        done: "S.W.S.",
        heard: "T0",
        sent: Some(""),
        leaves: Some(Device {
            size: 100,
            pieces: &[HEADER, USER_RECORD],
            lines: "",
            ..NO_DEVICE
        }),
        calls: 9,
        ..OPENING
    },
    Run {
        what: "a report mends a torn end gate",
        device: Device {
            size: 100,
            pieces: &[HEADER, USER_RECORD, TORN],
            lines: "",
            ..NO_DEVICE
        },
        done: "S.W.S.E0",
        heard: "E0",
        sent: Some(ONE_USER_REPORTED),
        leaves: Some(Device {
            size: 100,
            pieces: &[HEADER, USER_RECORD],
            lines: "",
            ..NO_DEVICE
        }),
        calls: 9,
        ..REPORT
    },
];

/// Devices on which no records stand. No input is taken, and nothing is written.
static UNOPENED: [Run; 14] = [
    Run {
        what: "a device of no bytes",
        device: Device {
            size: 0,
            pieces: &[],
            lines: "",
            ..NO_DEVICE
        },
        ..REFUSED
    },
    Run {
        what: "a header without an end gate",
        device: Device {
            size: 16,
            pieces: &[HEADER],
            lines: "",
            ..NO_DEVICE
        },
        ..REFUSED
    },
    Run {
        what: "a header whose gate is closed",
        device: Device {
            size: 17,
            pieces: &[b"\0ISS1\x01"],
            lines: "",
            ..NO_DEVICE
        },
        ..REFUSED
    },
    Run {
        what: "a header whose gate is torn",
        device: Device {
            size: 17,
            pieces: &[b"\x02ISS1\x01"],
            lines: "",
            ..NO_DEVICE
        },
        ..REFUSED
    },
    Run {
        what: "a later version",
        device: Device {
            size: 27,
            pieces: &[b"\x01ISS1\x03"],
            lines: "",
            ..NO_DEVICE
        },
        ..REFUSED
    },
    Run {
        what: "halves without a gate",
        device: Device {
            size: 26,
            pieces: &[HALVES],
            lines: "",
            ..NO_DEVICE
        },
        ..REFUSED
    },
    Run {
        what: "an image that leaves no room for a gate",
        device: Device {
            size: 100,
            pieces: &[HALVES, b"\0\0\0\0\x25"],
            lines: "",
            ..NO_DEVICE
        },
        ..REFUSED
    },
    Run {
        what: "an image of no sound state",
        device: Device {
            size: 300,
            pieces: &[HALVES, BAD_IMAGE],
            lines: "",
            ..NO_DEVICE
        },
        ..REFUSED
    },
    Run {
        what: "a record longer than its device",
        device: Device {
            size: 100,
            pieces: &[HEADER, b"\x01\0\0\xff\xff"],
            lines: "",
            ..NO_DEVICE
        },
        done: "S.",
        ..REFUSED
    },
    Run {
        what: "a record of no bytes",
        device: Device {
            size: 48,
            pieces: &[HEADER, b"\x01\0\0\0\0"],
            lines: "",
            ..NO_DEVICE
        },
        done: "S.",
        ..REFUSED
    },
    Run {
        what: "a record longer than any",
        device: Device {
            size: 9000,
            pieces: &[HEADER, b"\x01\0\0\x20\x01"],
            lines: "",
            ..NO_DEVICE
        },
        done: "S.",
        ..REFUSED
    },
    Run {
        what: "a record that leaves no room for an end gate",
        device: Device {
            size: 48,
            pieces: &[HEADER, b"\x01\0\0\0\x1b"],
            lines: "",
            ..NO_DEVICE
        },
        done: "S.",
        ..REFUSED
    },
    Run {
        what: "a record that spells nothing",
        device: Device {
            size: 100,
            pieces: &[HEADER, b"\x01\0\0\0\x01\x63"],
            lines: "",
            ..NO_DEVICE
        },
        done: "S.",
        ..REFUSED
    },
    Run {
        what: "a record twice",
        device: Device {
            size: 100,
            pieces: &[HEADER, USER_RECORD, USER_RECORD],
            lines: "",
            ..NO_DEVICE
        },
        done: "S.",
        ..REFUSED
    },
];

pub(crate) fn plain() -> &'static [Run] {
    &PLAIN
}

pub(crate) fn unopened() -> &'static [Run] {
    &UNOPENED
}
