//! Runs of lines and of reports on devices that stand for records.
use crate::lines::{
    ASKED, EARLY_ACKNOWLEDGEMENT, EARLY_ACKNOWLEDGEMENT_TOLD, FIVE_USERS, FIVE_USERS_TOLD, FUNDED,
    HOLDING, HOLDING_REPORTED, ONE_USER_AND_A_FAULT, ONE_USER_AND_A_HALF, REPEAT_AT_THE_DEADLINE,
    REPEAT_AT_THE_DEADLINE_TOLD, REPEATED, REQUEST, REQUEST_AND_APPROVED, REQUEST_AND_REPEATED,
    REQUEST_OF_7, TWO_TIMEOUTS_AND_AN_EXPIRY, TWO_TIMEOUTS_AND_AN_EXPIRY_TOLD, USER,
    USER_AND_A_TIME, USER_AND_IDLE, USER_DONE,
};
use crate::playing::{Device, NO_DEVICE, OPENING, Run};
use crate::rows::{HEADER, HEADER_OF_7, REPORT, USER_RECORD};

/// Runs on devices that stand for records, each of which may stop.
static LINES: [Run; 14] = [
    Run {
        what: "a record lasts before it is told",
        device: Device {
            size: 100,
            pieces: &[HEADER],
            lines: "",
            ..NO_DEVICE
        },
        input: USER,
        done: "S.W.S.W.S.E0",
        heard: "T0E0T0",
        sent: Some(USER_DONE),
        leaves: Some(Device {
            size: 100,
            pieces: &[HEADER, USER_RECORD],
            lines: "",
            ..NO_DEVICE
        }),
        calls: 11,
        levels: &[1],
        ..OPENING
    },
    Run {
        what: "half a line is told at the end",
        device: Device {
            size: 100,
            pieces: &[HEADER],
            lines: "",
            ..NO_DEVICE
        },
        input: ONE_USER_AND_A_HALF,
        done: "S.W.S.W.S.E0E0",
        heard: "T0E0T0E0",
        sent: Some(ONE_USER_AND_A_FAULT),
        calls: 12,
        levels: &[1, 1],
        ..OPENING
    },
    Run {
        what: "half a line isn't told where a take fails",
        device: Device {
            size: 100,
            pieces: &[HEADER],
            lines: "",
            ..NO_DEVICE
        },
        input: ONE_USER_AND_A_HALF,
        fails: &[11],
        status: 3,
        done: "S.W.S.W.S.E0",
        heard: "T0E0t0",
        sent: Some(USER_DONE),
        levels: &[1],
        ..OPENING
    },
    Run {
        what: "five users, of whom two don't fit",
        device: Device {
            size: 75,
            pieces: &[HEADER],
            lines: "",
            ..NO_DEVICE
        },
        input: FIVE_USERS,
        done: "S.W.S.W.S.E0W.S.W.S.E0E0W.S.W.S.E0E0E0",
        heard: "T0E0E0E0E0E0E0T0",
        sent: Some(FIVE_USERS_TOLD),
        calls: 24,
        levels: &[1, 2, 2, 3, 3, 3],
        ..OPENING
    },
    Run {
        what: "an event again and an idle time make no record",
        device: Device {
            size: 75,
            pieces: &[HEADER],
            lines: USER,
            ..NO_DEVICE
        },
        input: USER_AND_A_TIME,
        done: "S.E0E0",
        heard: "T0E0T0E0",
        sent: Some(USER_AND_IDLE),
        leaves: Some(Device {
            size: 75,
            pieces: &[HEADER, USER_RECORD],
            lines: "",
            ..NO_DEVICE
        }),
        calls: 10,
        levels: &[1, 1],
        ..OPENING
    },
    Run {
        what: "a purchase again at its deadline",
        device: Device {
            size: 1000,
            pieces: &[HEADER],
            lines: "",
            ..NO_DEVICE
        },
        input: REPEAT_AT_THE_DEADLINE,
        done: "S.W.S.W.S.E0W.S.W.S.E0W.S.W.S.E0W.S.W.S.E0W.S.W.S.E0E0E0E0",
        heard: "T0E0E0E0E0E0E0E0E0T0",
        sent: Some(REPEAT_AT_THE_DEADLINE_TOLD),
        calls: 34,
        levels: &[1, 2, 3, 4, 5, 5, 5, 5],
        ..OPENING
    },
    Run {
        what: "an early acknowledgement",
        device: Device {
            size: 1000,
            pieces: &[HEADER],
            lines: "",
            ..NO_DEVICE
        },
        input: EARLY_ACKNOWLEDGEMENT,
        done: "S.W.S.W.S.E0W.S.W.S.E0W.S.W.S.E0W.S.W.S.E0E0W.S.W.S.E0E0E0W.S.W.S.E0",
        heard: "T0E0E0E0E0E0E0E0E0E0T0",
        sent: Some(EARLY_ACKNOWLEDGEMENT_TOLD),
        calls: 39,
        levels: &[1, 2, 3, 4, 4, 5, 5, 5, 6],
        ..OPENING
    },
    Run {
        what: "two timeouts and an expiry",
        device: Device {
            size: 1000,
            pieces: &[HEADER],
            lines: "",
            ..NO_DEVICE
        },
        input: TWO_TIMEOUTS_AND_AN_EXPIRY,
        done: "S.W.S.W.S.E0W.S.W.S.E0W.S.W.S.E0W.S.W.S.E0W.S.W.S.E0W.S.W.S.E0W.S.W.S.E0W.S.W.S.E0E0E0E0E0E0",
        heard: "T0E0E0E0E0E0E0E0E0E0E0E0E0E0T0",
        sent: Some(TWO_TIMEOUTS_AND_AN_EXPIRY_TOLD),
        calls: 51,
        levels: &[1, 2, 3, 4, 5, 6, 7, 8, 8, 8, 8, 8, 8],
        ..OPENING
    },
    Run {
        what: "a request that waits is written again",
        device: Device {
            size: 1000,
            pieces: &[HEADER],
            lines: ASKED,
            ..NO_DEVICE
        },
        done: "S.E0",
        heard: "E0T0",
        sent: Some(REQUEST),
        calls: 14,
        levels: &[4],
        ..OPENING
    },
    Run {
        what: "a request of instance 7",
        device: Device {
            size: 1000,
            pieces: &[HEADER_OF_7],
            lines: ASKED,
            ..NO_DEVICE
        },
        done: "S.E0",
        heard: "E0T0",
        sent: Some(REQUEST_OF_7),
        calls: 14,
        levels: &[4],
        ..OPENING
    },
    Run {
        what: "an answer to a request that waits",
        device: Device {
            size: 1000,
            pieces: &[HEADER],
            lines: ASKED,
            ..NO_DEVICE
        },
        input: FUNDED,
        done: "S.E0W.S.W.S.E0",
        heard: "E0T0E0T0",
        sent: Some(REQUEST_AND_APPROVED),
        calls: 20,
        levels: &[4, 5],
        ..OPENING
    },
    Run {
        what: "a second run continues the first",
        device: Device {
            size: 1000,
            pieces: &[HEADER],
            lines: ASKED,
            ..NO_DEVICE
        },
        input: REPEATED,
        done: "S.E0W.S.W.S.E0E0E0E0",
        heard: "E0T0E0E0E0E0T0",
        sent: Some(REQUEST_AND_REPEATED),
        leaves: Some(Device {
            size: 1000,
            pieces: &[HEADER],
            lines: REPEAT_AT_THE_DEADLINE,
            ..NO_DEVICE
        }),
        calls: 23,
        levels: &[4, 5, 5, 5, 5],
        ..OPENING
    },
    Run {
        what: "nothing waits once it is acknowledged",
        device: Device {
            size: 1000,
            pieces: &[HEADER],
            lines: EARLY_ACKNOWLEDGEMENT,
            ..NO_DEVICE
        },
        done: "S.",
        heard: "T0",
        sent: Some(""),
        calls: 17,
        levels: &[6],
        ..OPENING
    },
    Run {
        what: "a report is an emit a line",
        device: Device {
            size: 1000,
            pieces: &[HEADER],
            lines: HOLDING,
            ..NO_DEVICE
        },
        done: "S.E0E0E0E0E0E0",
        heard: "E0E0E0E0E0E0",
        sent: Some(HOLDING_REPORTED),
        calls: 24,
        levels: &[7],
        ..REPORT
    },
];

pub(crate) fn lines() -> &'static [Run] {
    &LINES
}
