//! What is archived of a device, and why it isn't.
use crate::devices::Device;
use crate::playing::{FIVE, Run, SIX, first_astray, first_in_database, first_in_memory};
use iss_sql_keeper::SqliteKeeper;
use sqlite::MemStore;
use std::alloc::{AllocError, Global};
use std::test::Fail;

/// Five records, six, and the same six again.
static THREE: [Run; 3] = [FIVE, SIX, SIX];

#[test]
fn each_record_is_archived_once(rt: HostRuntime) -> Result<(), Fail> {
    assert_eq!(rt; first_in_memory(rt.alloc(), 0, &THREE)?, None);
    assert_eq!(rt; first_in_database(rt.alloc(), &THREE)?, None);
    Ok(())
}

/// A device that has turned, over a keeper of fewer records than are in its image.
const GAP: Run = Run {
    device: Device::Moves(8),
    status: 11,
    done: "S",
    sent: "",
    held: Some((0, 0)),
    ..FIVE
};

/// So many records that make no posting.
const FIVE_MOVES: Run = Run {
    device: Device::Moves(5),
    sent: "{\"posts\":0,\"records\":5}\n",
    held: Some((5, 0)),
    ..FIVE
};

const SIX_MOVES: Run = Run {
    device: Device::Moves(6),
    sent: "{\"posts\":0,\"records\":6}\n",
    held: Some((6, 0)),
    ..FIVE
};

const SEVEN_MOVES: Run = Run {
    device: Device::Moves(7),
    sent: "{\"posts\":0,\"records\":7}\n",
    held: Some((7, 0)),
    ..FIVE
};

const EIGHT_MOVES: Run = Run {
    device: Device::Moves(8),
    sent: "{\"posts\":0,\"records\":8}\n",
    held: Some((8, 0)),
    ..FIVE
};

/// With seven records, six are in the image. So a keeper of five has a gap, and one of six has none.
static TURNED: [Run; 7] = [
    GAP,
    FIVE_MOVES,
    Run {
        device: Device::Moves(7),
        held: Some((5, 0)),
        ..GAP
    },
    SIX_MOVES,
    SEVEN_MOVES,
    EIGHT_MOVES,
    EIGHT_MOVES,
];

#[test]
fn a_device_that_has_turned_may_leave_a_gap(rt: HostRuntime) -> Result<(), Fail> {
    assert_eq!(rt; first_in_memory(rt.alloc(), 0, &TURNED)?, None);
    assert_eq!(rt; first_in_database(rt.alloc(), &TURNED)?, None);
    Ok(())
}

/// An archive of five records, with a device of another instance.
const STRANGE: Run = Run {
    device: Device::Foreign(5),
    status: 12,
    done: "S",
    sent: "",
    ..FIVE
};

/// Another instance, also of a device that has turned, and more records than the device has. What isn't opened is told before
/// that.
static REFUSED: [Run; 7] = [
    FIVE,
    STRANGE,
    Run {
        device: Device::ForeignMoves(8),
        ..STRANGE
    },
    Run {
        device: Device::Purchase(4),
        ..STRANGE
    },
    Run {
        device: Device::Blank,
        status: 4,
        done: "",
        ..STRANGE
    },
    SIX,
    Run {
        device: Device::Purchase(5),
        held: Some((6, 2)),
        ..STRANGE
    },
];

#[test]
fn a_strange_archive_is_left_as_it_was(rt: HostRuntime) -> Result<(), Fail> {
    assert_eq!(rt; first_in_memory(rt.alloc(), 0, &REFUSED)?, None);
    assert_eq!(rt; first_in_database(rt.alloc(), &REFUSED)?, None);
    Ok(())
}

/// Words that are no command.
const USAGE: Run = Run {
    words: &[],
    status: 2,
    done: "",
    sent: "",
    held: Some((0, 0)),
    ..FIVE
};

static NO_COMMANDS: [Run; 7] = [
    USAGE,
    Run {
        words: &["archive", "d"],
        ..USAGE
    },
    Run {
        words: &["archive", "d", "a", "b"],
        ..USAGE
    },
    Run {
        words: &["archive", "", "a"],
        ..USAGE
    },
    Run {
        words: &["archive", "d", "-a"],
        ..USAGE
    },
    Run {
        words: &["Archive", "d", "a"],
        ..USAGE
    },
    Run {
        words: &["statement", "d", "a"],
        ..USAGE
    },
];

#[test]
fn other_words_are_refused(rt: HostRuntime) -> Result<(), Fail> {
    assert_eq!(rt; first_in_memory(rt.alloc(), 0, &NO_COMMANDS)?, None);
    assert_eq!(rt; first_in_database(rt.alloc(), &NO_COMMANDS)?, None);
    Ok(())
}

/// How many calls on the outside a run with five records makes that may fail. The first one reads the header and the second one is the
/// sync. Then come two reads a record, one of the end's gate with what comes after it, one of the gate alone, and the emit.
const CALLS: u64 = 15;

/// A run of which this call on the outside fails. With the emit's failure all is archived.
fn failing_at(call: u64) -> Run {
    let unread = Run {
        failing: call,
        status: 6,
        done: "S",
        sent: "",
        held: Some((0, 0)),
        ..FIVE
    };
    match call {
        1 => Run { done: "", ..unread },
        2 => Run {
            done: "s",
            ..unread
        },
        CALLS => Run {
            failing: call,
            status: 5,
            done: "Se",
            sent: "{\"p",
            ..FIVE
        },
        _ => unread,
    }
}

/// The runs of which a call fails, and then one of which none does.
fn each_call(alloc: Global) -> Result<Vec<Run>, AllocError> {
    let mut runs = Vec::new(alloc);
    for call in 1..=CALLS {
        runs.push(failing_at(call))?;
    }
    runs.push(Run {
        failing: CALLS + 1,
        ..FIVE
    })?;
    Ok(runs)
}

/// The first of these that comes to something else, over a keeper in memory and over a database.
fn first_failing(alloc: Global) -> Result<[Option<usize>; 2], AllocError> {
    let runs = each_call(alloc)?;
    Ok([
        first_in_memory(alloc, 0, runs.as_slice())?,
        first_in_database(alloc, runs.as_slice())?,
    ])
}

#[test]
fn each_call_that_fails_is_told(rt: HostRuntime) -> Result<(), Fail> {
    assert_eq!(rt; first_failing(rt.alloc())?, [None, None]);
    Ok(())
}

/// The keeper fails.
const UNKEPT: Run = Run {
    status: 13,
    done: "S",
    sent: "",
    ..SIX
};

/// Six calls archive five records, and the seventh asks for them. The eighth reads the head, and the ninth is to add the sixth record.
static AFTER_FIVE: [Run; 3] = [
    FIVE,
    Run {
        held: Some((5, 1)),
        ..UNKEPT
    },
    SIX,
];

/// The first call reads the head, and the fourth is to add the third record.
static AFTER_TWO: [Run; 2] = [
    Run {
        held: Some((2, 0)),
        ..UNKEPT
    },
    SIX,
];

#[test]
fn a_keeper_in_memory_that_fails_is_told(rt: HostRuntime) -> Result<(), Fail> {
    assert_eq!(rt; first_in_memory(rt.alloc(), 8, &AFTER_FIVE)?, None);
    assert_eq!(rt; first_in_memory(rt.alloc(), 9, &AFTER_FIVE)?, None);
    assert_eq!(rt; first_in_memory(rt.alloc(), 4, &AFTER_TWO)?, None);
    Ok(())
}

/// Nothing can be asked of a keeper without a database.
static WITHOUT: [Run; 1] = [Run {
    held: None,
    ..UNKEPT
}];

fn first_without(alloc: Global, runs: &[Run]) -> Result<Option<usize>, AllocError> {
    let mut keeper: SqliteKeeper<MemStore> = SqliteKeeper::new(alloc, None)?;
    Ok(first_astray(alloc, &mut keeper, runs))
}

#[test]
fn a_database_that_cannot_be_had_is_told(rt: HostRuntime) -> Result<(), Fail> {
    assert_eq!(rt; first_without(rt.alloc(), &WITHOUT)?, None);
    Ok(())
}
