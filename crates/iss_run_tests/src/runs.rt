//! What each run does, and that each of its calls may fail.
use crate::halves::in_halves;
use crate::padded::{padded, padded_day};
use crate::playing::{Played, Run, play, start_of};
use crate::replays::lines;
use crate::rows::{WORDS, plain, unopened};
use crate::serving::{TWO_CALLS, served};
use crate::stops::{Serving, goes_on_after, stands_after};
use crate::strangers::strangers;
use crate::told::{is_done, is_heard, status_after, unsent};
use iss_edge::status::DISK_FAULT;
use std::alloc::{AllocError, Global};
use std::test::Fail;

/// Whether a run does what it has to.
fn does(alloc: Global, row: &Run) -> Result<bool, AllocError> {
    let start = start_of(alloc, &row.device)?;
    let played = play(alloc, row, row.comes, &start, 0)?;
    let is_sent = match row.sent {
        Some(text) => unsent(played.edge.trace(), text).is_some_and(|rest| rest.is_empty()),
        None => true,
    };
    let leaves = match &row.leaves {
        Some(device) => played.edge.device() == start_of(alloc, device)?.as_slice(),
        None => true,
    };
    Ok(
        played.status == row.status
            && is_done(played.edge.trace(), row.done)
            && is_heard(played.edge.heard(), row.heard)
            && is_sent
            && leaves,
    )
}

/// The first of these runs that doesn't do what it has to.
fn first_wrong(alloc: Global, rows: &[Run]) -> Result<Option<&'static str>, AllocError> {
    for row in rows {
        if !does(alloc, row)? {
            return Ok(Some(row.what));
        }
    }
    Ok(None)
}

#[test]
fn each_run_does_what_it_has_to(rt: HostRuntime) -> Result<(), Fail> {
    assert_eq!(rt; first_wrong(rt.alloc(), plain())?, None);
    assert_eq!(rt; first_wrong(rt.alloc(), lines())?, None);
    assert_eq!(rt; first_wrong(rt.alloc(), served())?, None);
    assert_eq!(rt; first_wrong(rt.alloc(), in_halves())?, None);
    assert_eq!(rt; first_wrong(rt.alloc(), padded())?, None);
    assert_eq!(rt; first_wrong(rt.alloc(), padded_day())?, None);
    assert_eq!(rt; first_wrong(rt.alloc(), strangers())?, None);
    Ok(())
}

/// Whether each command that opens a device refuses this one.
fn is_refused(alloc: Global, row: &Run) -> Result<bool, AllocError> {
    for words in WORDS {
        if !does(alloc, &Run { words, ..*row })? {
            return Ok(false);
        }
    }
    Ok(true)
}

/// The first of these devices that a command doesn't refuse.
fn first_opened(alloc: Global, rows: &[Run]) -> Result<Option<&'static str>, AllocError> {
    for row in rows {
        if !is_refused(alloc, row)? {
            return Ok(Some(row.what));
        }
    }
    Ok(None)
}

#[test]
fn other_devices_are_refused_by_each_command(rt: HostRuntime) -> Result<(), Fail> {
    assert_eq!(rt; first_opened(rt.alloc(), unopened())?, None);
    Ok(())
}

/// Whether the run ends by its cause if the call of this number fails, and what went out stands then.
fn fails_well(
    alloc: Global,
    row: &Run,
    start: &[u8],
    whole: &Played,
    failing: u64,
) -> Result<bool, AllocError> {
    let played = play(alloc, row, row.comes, start, failing)?;
    let actions = played.edge.trace();
    let is_caused = played.status == status_after(played.edge.heard());
    match row.sent {
        Some(text) if is_caused => Ok(
            unsent(actions, text).is_some() && stands_after(alloc, row, start, whole, actions)?,
        ),
        _ => Ok(is_caused),
    }
}

/// The first of the calls with these numbers that doesn't fail well.
fn first_bad_among(
    alloc: Global,
    row: &Run,
    first: u64,
    last: u64,
) -> Result<Option<u64>, AllocError> {
    let start = start_of(alloc, &row.device)?;
    let whole = play(alloc, row, row.comes, &start, 0)?;
    for failing in first..=last {
        if !fails_well(alloc, row, &start, &whole, failing)? {
            return Ok(Some(failing));
        }
    }
    Ok(None)
}

/// The first call of a run from this number on that doesn't fail well, up to the one after its last, which no longer changes anything.
fn first_bad_from(alloc: Global, row: &Run, first: u64) -> Result<Option<u64>, AllocError> {
    if let Some(failing) = first_bad_among(alloc, row, first, row.calls)? {
        return Ok(Some(failing));
    }
    let start = start_of(alloc, &row.device)?;
    let after = row.calls.saturating_add(1);
    let ended = play(alloc, row, row.comes, &start, after)?;
    let is_whole = ended.status == row.status && is_done(ended.edge.trace(), row.done);
    Ok(if is_whole { None } else { Some(after) })
}

/// The first of these runs that has such a call, and its number.
fn first_unfit(alloc: Global, rows: &[Run]) -> Result<Option<(&'static str, u64)>, AllocError> {
    for row in rows {
        if row.calls > 0
            && let Some(failing) = first_bad_from(alloc, row, 1)?
        {
            return Ok(Some((row.what, failing)));
        }
    }
    Ok(None)
}

#[test]
fn each_call_may_fail(rt: HostRuntime) -> Result<(), Fail> {
    assert_eq!(rt; first_unfit(rt.alloc(), plain())?, None);
    assert_eq!(rt; first_unfit(rt.alloc(), lines())?, None);
    assert_eq!(rt; first_unfit(rt.alloc(), served())?, None);
    Ok(())
}

/// Where the calls of a day are parted, so that no test takes long.
const NOON: u64 = 120;

#[test]
fn each_call_of_a_day_up_to_noon_may_fail(rt: HostRuntime) -> Result<(), Fail> {
    for row in padded_day() {
        assert_eq!(rt; first_bad_among(rt.alloc(), row, 1, NOON)?, None);
    }
    Ok(())
}

#[test]
fn each_call_of_a_day_from_noon_on_may_fail(rt: HostRuntime) -> Result<(), Fail> {
    for row in padded_day() {
        assert_eq!(rt; first_bad_from(rt.alloc(), row, NOON)?, None);
    }
    Ok(())
}

/// Whether the next run goes on if the call of this number fails. Unless the device failed, what stands is what that run made.
fn is_left_well<'a>(
    alloc: Global,
    row: &'a Run,
    start: &'a [u8],
    whole: &'a Played,
    failing: u64,
) -> Result<bool, AllocError> {
    let played = play(alloc, row, row.comes, start, failing)?;
    let made = if played.status == DISK_FAULT {
        whole
    } else {
        &played
    };
    let serving = Serving {
        row,
        start,
        made,
        is_whole: false,
    };
    goes_on_after(alloc, &serving, played.edge.trace())
}

/// The number of the first call of a run that serves after whose failure the next run doesn't go on.
fn first_left(alloc: Global, row: &Run) -> Result<Option<u64>, AllocError> {
    let start = start_of(alloc, &row.device)?;
    let whole = play(alloc, row, row.comes, &start, 0)?;
    for failing in 1..=row.calls {
        if !is_left_well(alloc, row, &start, &whole, failing)? {
            return Ok(Some(failing));
        }
    }
    Ok(None)
}

/// Two calls at once, without levels: after a failed call other texts may go out.
const FAILING: Run = Run {
    levels: &[],
    ..TWO_CALLS
};

#[test]
fn the_next_run_goes_on_after_each_failed_call(rt: HostRuntime) -> Result<(), Fail> {
    assert_eq!(rt; first_left(rt.alloc(), &FAILING)?, None);
    Ok(())
}
