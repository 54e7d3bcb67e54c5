//! Runs on devices in halves: what is free, when a device turns, and what a stop within a turn leaves.
use crate::images::{WAYS, image_of, point_on, records_on};
use crate::lines::{
    ASKED, ASKED_AND_FUNDED, DAY, DAY_REPORTED, DAY_TOLD, FUNDED, REQUEST, REQUEST_AND_APPROVED,
    SEVENTH_DONE, SEVENTH_MOVE, SIX_MOVES, SPENT, TWO_USERS, TWO_USERS_AND_ONE_TOLD, USER,
    USER_THAT_MOVES, USER_THAT_MOVES_TOLD,
};
use crate::playing::{Device, NO_DEVICE, OPENING, Played, Run, play, start_of};
use crate::rows::{HALVES, HALVES_OF_7, REPORT};
use crate::serving::{SETTINGS, TWO_CALLS};
use iss_edge::Action;
use std::alloc::{AllocError, Global};
use std::test::Fail;

/// A device of 707 bytes: its halves have 345 bytes each, and begin at 17 and at 362.
const EMPTY: Device = Device {
    size: 707,
    pieces: &[HALVES],
    lines: "",
    ..NO_DEVICE
};

/// A device in halves that needs no turn for what is taken here.
const LARGE: Device = Device {
    size: 8000,
    ..EMPTY
};

/// The line that the device turns for.
const TURNING: Run = Run {
    what: "a device turns before a record that doesn't fit",
    device: Device {
        lines: SIX_MOVES,
        ..EMPTY
    },
    input: SEVENTH_MOVE,
    done: "S.W.S.W.S.W.S.W.S.E0",
    heard: "T0E0T0",
    sent: Some(SEVENTH_DONE),
    ..OPENING
};

static IN_HALVES: [Run; 10] = [
    Run {
        what: "a record that fits neither half",
        device: Device { size: 100, ..EMPTY },
        input: TWO_USERS,
        done: "S.W.S.W.S.E0E0",
        heard: "T0E0E0T0",
        sent: Some(TWO_USERS_AND_ONE_TOLD),
        ..OPENING
    },
    Run {
        what: "turns before the seventh and the eighth record",
        device: EMPTY,
        input: USER_THAT_MOVES,
        done: "S.W.S.W.S.E0W.S.W.S.E0W.S.W.S.E0W.S.W.S.E0W.S.W.S.E0W.S.W.S.E0W.S.W.S.W.S.W.S.E0W.S.W.S.W.S.W.S.E0E0",
        heard: "T0E0E0E0E0E0E0E0E0E0T0",
        sent: Some(USER_THAT_MOVES_TOLD),
        ..OPENING
    },
    TURNING,
    Run {
        what: "no record after as many as there may be",
        device: Device {
            size: 200,
            pieces: &[HALVES, b"\0\0\0\0\x2c\x3f\xff\xff\xff"],
            lines: "",
            ..NO_DEVICE
        },
        input: USER,
        done: "S.E0",
        heard: "T0E0T0",
        sent: Some(SPENT),
        ..OPENING
    },
    Run {
        what: "a day",
        device: LARGE,
        input: DAY,
        done: "S.W.S.W.S.E0W.S.W.S.E0W.S.W.S.E0W.S.W.S.E0W.S.W.S.E0W.S.W.S.E0W.S.W.S.E0W.S.W.S.E0E0W.S.W.S.E0W.S.W.S.E0W.S.W.S.E0W.S.W.S.E0W.S.W.S.E0E0W.S.W.S.E0W.S.W.S.E0W.S.W.S.E0E0W.S.W.S.E0E0W.S.W.S.E0W.S.W.S.E0E0E0W.S.W.S.E0E0",
        heard: "T0E0E0E0E0E0E0E0E0E0E0E0E0E0E0E0E0E0E0E0E0E0E0E0E0E0E0E0T0",
        sent: Some(DAY_TOLD),
        ..OPENING
    },
    Run {
        what: "a report of a day",
        device: Device {
            lines: DAY,
            ..LARGE
        },
        done: "S.E0E0E0E0E0",
        heard: "E0E0E0E0E0",
        sent: Some(DAY_REPORTED),
        ..REPORT
    },
    Run {
        what: "a request that waits is written again",
        device: Device {
            lines: ASKED,
            ..LARGE
        },
        done: "S.E0",
        heard: "E0T0",
        sent: Some(REQUEST),
        ..OPENING
    },
    Run {
        what: "an answer to a request that waits",
        device: Device {
            lines: ASKED,
            ..LARGE
        },
        input: FUNDED,
        done: "S.E0W.S.W.S.E0",
        heard: "E0T0E0T0",
        sent: Some(REQUEST_AND_APPROVED),
        ..OPENING
    },
    Run {
        what: "nothing waits once it is answered",
        device: Device {
            lines: ASKED_AND_FUNDED,
            ..LARGE
        },
        done: "S.",
        heard: "T0",
        sent: Some(""),
        ..OPENING
    },
    Run {
        device: Device {
            size: 8000,
            pieces: &[HALVES_OF_7],
            lines: SETTINGS,
            ..NO_DEVICE
        },
        levels: &[],
        ..TWO_CALLS
    },
];

pub(crate) fn in_halves() -> &'static [Run] {
    &IN_HALVES
}

/// What one write of a turn, and of the record after it, begins at, and how many bytes it has: the image with its length and a gate, the
/// byte that names the other half, the record without its gate, and that gate.
const WRITES: [(u64, usize); 4] = [(362, 252), (16, 1), (614, 56), (613, 1)];

/// The place and the number of bytes of each write, if there are four.
fn writes_of(actions: &[Action]) -> [(u64, usize); 4] {
    let mut writes = [(0, 0); 4];
    let mut count = 0usize;
    for action in actions {
        if let Action::Write { at, bytes, .. } = action {
            if let Some(write) = writes.get_mut(count) {
                *write = (*at, bytes.as_slice().len());
            }
            count = count.saturating_add(1);
        }
    }
    writes
}

#[test]
fn a_turn_writes_the_other_half_first(rt: HostRuntime) -> Result<(), Fail> {
    let start = start_of(rt.alloc(), &TURNING.device)?;
    let played = play(rt.alloc(), &TURNING, &[], &start, 0)?;
    assert_eq!(rt; writes_of(played.edge.trace()), WRITES);
    Ok(())
}

/// What may stand after a stop: two numbers of records, and two points.
#[derive(Clone, Copy)]
struct Stands {
    records: (usize, usize),
    points: (usize, usize),
}

const BEFORE: Stands = Stands {
    records: (6, 6),
    points: (0, 0),
};

const TURNED: Stands = Stands {
    records: (6, 6),
    points: (6, 6),
};

/// What stands after each action: after the opening's sync, the eight of the turn and of the record, and the emit.
const STOPS: [Stands; 10] = [
    BEFORE,
    BEFORE,
    BEFORE,
    Stands {
        records: (6, 6),
        points: (0, 6),
    },
    TURNED,
    TURNED,
    TURNED,
    Stands {
        records: (6, 7),
        points: (6, 6),
    },
    Stands {
        records: (7, 7),
        points: (6, 6),
    },
    Stands {
        records: (7, 7),
        points: (6, 6),
    },
];

/// Whether a number is one of two.
fn is_one_of(number: usize, two: (usize, usize)) -> bool {
    number == two.0 || number == two.1
}

/// Whether what was opened ended well, with a number of records and a point that are allowed.
fn is_allowed(opened: &Played, allowed: Stands) -> bool {
    let (count, _) = records_on(opened.edge.device());
    let point = point_on(opened.edge.device());
    opened.status == 0 && is_one_of(count, allowed.records) && is_one_of(point, allowed.points)
}

/// Whether each of three images after this many actions opens, and stands for what it may.
fn stands_after(
    alloc: Global,
    start: &[u8],
    actions: &[Action],
    allowed: Stands,
) -> Result<bool, AllocError> {
    for left in WAYS {
        let image = image_of(alloc, start, actions, left)?;
        let opened = play(alloc, &OPENING, &[], &image, 0)?;
        if !is_allowed(&opened, allowed) {
            return Ok(false);
        }
    }
    Ok(true)
}

/// After how many actions a stop leaves an image that it must not.
fn first_lost(alloc: Global) -> Result<Option<usize>, AllocError> {
    let start = start_of(alloc, &TURNING.device)?;
    let played = play(alloc, &TURNING, &[], &start, 0)?;
    for (count, allowed) in (1usize..).zip(STOPS) {
        let actions = played.edge.trace().get(..count).unwrap_or(&[]);
        if !stands_after(alloc, &start, actions, allowed)? {
            return Ok(Some(count));
        }
    }
    Ok(None)
}

#[test]
fn a_stop_within_a_turn_leaves_the_old_or_the_new_half(rt: HostRuntime) -> Result<(), Fail> {
    assert_eq!(rt; first_lost(rt.alloc())?, None);
    Ok(())
}

/// The number of records and the point, once all of these lines were taken on an empty device.
fn left_by(alloc: Global, lines: &'static str) -> Result<(usize, usize), AllocError> {
    let device = Device { lines, ..EMPTY };
    let bytes = start_of(alloc, &device)?;
    let (count, _) = records_on(&bytes);
    Ok((count, point_on(&bytes)))
}

#[test]
fn a_turn_moves_the_point(rt: HostRuntime) -> Result<(), Fail> {
    assert_eq!(rt; left_by(rt.alloc(), SIX_MOVES)?, (6, 0));
    assert_eq!(rt; left_by(rt.alloc(), USER_THAT_MOVES)?, (8, 7));
    Ok(())
}
