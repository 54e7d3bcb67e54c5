//! Statements from what the runs before them archived.
use crate::devices::Device;
use crate::playing::{FIVE, Run, SIX, first_in_database, first_in_memory};
use std::test::Fail;

/// The clearing's day. There is no device.
const SECOND_DAY: Run = Run {
    words: &["statement", "a", "u1", "USD", "1970-01-02", "1970-01-02"],
    device: Device::Blank,
    done: "E",
    sent: "{\"balance\":\"60.00\",\"line\":\"opening\"}\n{\"amount\":\"-60.00\",\"at\":86400000,\"other\":\"network\",\"record\":6,\"txn\":\"a1\"}\n{\"balance\":\"0.00\",\"line\":\"closing\"}\n",
    ..SIX
};

/// A user of whom nothing is archived.
const NOTHING: Run = Run {
    words: &["statement", "a", "u9", "USD", "1970-01-02", "1970-01-02"],
    sent: "{\"balance\":\"0.00\",\"line\":\"opening\"}\n{\"balance\":\"0.00\",\"line\":\"closing\"}\n",
    ..SECOND_DAY
};

/// Words that ask for no statement.
const REFUSED: Run = Run {
    words: &["statement", "a", "u1", "USD", "1970-01-02", "1970-01-01"],
    status: 2,
    done: "",
    sent: "",
    ..SECOND_DAY
};

static STATEMENTS: [Run; 13] = [
    FIVE,
    SIX,
    SECOND_DAY,
    Run {
        words: &["statement", "a", "u1", "USD", "1970-01-01", "1970-01-01"],
        sent: "{\"balance\":\"0.00\",\"line\":\"opening\"}\n{\"amount\":\"60.00\",\"at\":1000,\"other\":\"gateway\",\"record\":5,\"txn\":\"a1\"}\n{\"balance\":\"60.00\",\"line\":\"closing\"}\n",
        ..SECOND_DAY
    },
    NOTHING,
    Run {
        words: &["statement", "a", "u1", "USD", "1970-01-03", "9998-12-31"],
        ..NOTHING
    },
    Run {
        words: &["statement", "a", "u1", "JPY", "1970-01-02", "1970-01-02"],
        sent: "{\"balance\":\"0\",\"line\":\"opening\"}\n{\"balance\":\"0\",\"line\":\"closing\"}\n",
        ..SECOND_DAY
    },
    REFUSED,
    Run {
        words: &["statement", "a", "u1", "USD", "1970-02-30", "1970-03-01"],
        ..REFUSED
    },
    Run {
        words: &["statement", "a", "u1", "XXX", "1970-01-02", "1970-01-02"],
        ..REFUSED
    },
    Run {
        words: &["statement", "", "u1", "USD", "1970-01-02", "1970-01-02"],
        ..REFUSED
    },
    // The emit is the first call that may fail, and there is no second one.
    Run {
        failing: 1,
        status: 5,
        done: "e",
        sent: "{\"b",
        ..SECOND_DAY
    },
    Run {
        failing: 2,
        ..SECOND_DAY
    },
];

#[test]
fn a_statement_is_written_without_a_device(rt: HostRuntime) -> Result<(), Fail> {
    assert_eq!(rt; first_in_memory(rt.alloc(), 0, &STATEMENTS)?, None);
    assert_eq!(rt; first_in_database(rt.alloc(), &STATEMENTS)?, None);
    Ok(())
}

/// Ten calls archive six records and ask for them after each run. The eleventh is the statement's.
static UNASKED: [Run; 4] = [
    FIVE,
    SIX,
    Run {
        status: 13,
        done: "",
        sent: "",
        ..SECOND_DAY
    },
    SECOND_DAY,
];

#[test]
fn a_keeper_that_fails_gives_no_statement(rt: HostRuntime) -> Result<(), Fail> {
    assert_eq!(rt; first_in_memory(rt.alloc(), 11, &UNASKED)?, None);
    Ok(())
}
