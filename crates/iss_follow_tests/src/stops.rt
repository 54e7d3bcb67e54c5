//! What a run that stops after each of its actions leaves of both devices, and what one does of which a call fails.
use crate::devices::{HALVES, ONE_JOURNAL, Played, device_of, eight, play, with_users};
use crate::images::{LOOKS, letters_of};
use std::alloc::Global;
use std::test::Fail;

const COPY: &[&str] = &["copy", "a", "b", "633"];

const CATCH: &[&str] = &["catch", "a", "b"];

/// What a run begins with: its words and both devices.
#[derive(Drop)]
struct Start {
    words: &'static [&'static str],
    from: Vec<u8>,
    to: Vec<u8>,
}

/// A copy of eight records to a device of 633 bytes.
fn copying(alloc: Global) -> Option<Start> {
    Some(Start {
        words: COPY,
        from: eight(alloc)?,
        to: device_of(alloc, b"", 633).ok()?,
    })
}

/// Two records are caught up, on a device that has none.
fn catching(alloc: Global) -> Option<Start> {
    let users: [(&[u8], &[u8]); 2] = [(b"t1", b"u1"), (b"t2", b"u2")];
    let empty = device_of(alloc, ONE_JOURNAL, 200).ok()?;
    Some(Start {
        words: CATCH,
        from: with_users(alloc, empty.as_slice(), &users)?,
        to: device_of(alloc, HALVES, 1000).ok()?,
    })
}

/// The run. Of the calls on the one device and on the other, those of these numbers fail.
fn played(alloc: Global, start: &Start, failing: u64, other_failing: u64) -> Option<Played> {
    play(
        alloc,
        start.words,
        (start.from.as_slice(), failing),
        (start.to.as_slice(), other_failing),
    )
    .ok()
}

/// Whether the run ends well, and each stop of it leaves on both devices what these letters say, for each look of what isn't settled.
fn leaves(alloc: Global, start: &Start, from: &[u8], to: [&[u8]; 3]) -> Option<bool> {
    let ran = played(alloc, start, 0, 0)?;
    let mut right = ran.status == 0;
    for (looks, letters) in LOOKS.iter().zip(&to) {
        let first = letters_of(alloc, start.from.as_slice(), ran.from.trace(), *looks).ok()?;
        let second = letters_of(alloc, start.to.as_slice(), ran.to.trace(), *looks).ok()?;
        if first.as_slice() != from || second.as_slice() != *letters {
            right = false;
        }
    }
    Some(right)
}

#[test]
fn a_copy_stands_once_its_first_byte_is_written(rt: HostRuntime) -> Result<(), Fail> {
    let start = copying(rt.alloc()).ok_or("no devices")?;
    let to: [&[u8]; 3] = [b"......8", b".....88", b"......8"];
    let right = leaves(rt.alloc(), &start, b"88", to).ok_or("no run")?;
    assert!(rt; right);
    Ok(())
}

#[test]
fn a_record_is_caught_up_once_its_gate_is_open(rt: HostRuntime) -> Result<(), Fail> {
    let start = catching(rt.alloc()).ok_or("no devices")?;
    let to: [&[u8]; 3] = [b"0000011112", b"0000111122", b"0000011112"];
    let right = leaves(rt.alloc(), &start, b"22", to).ok_or("no run")?;
    assert!(rt; right);
    Ok(())
}

/// The statuses of runs of which a call fails, the first, the second and so on, on one of the devices.
fn statuses(alloc: Global, start: &Start, on_other: bool) -> Option<[u8; 12]> {
    let mut statuses = [0; 12];
    for (i, status) in statuses.iter_mut().enumerate() {
        let number = (i as u64).saturating_add(1);
        let ran = if on_other {
            played(alloc, start, 0, number)?
        } else {
            played(alloc, start, number, 0)?
        };
        *status = ran.status;
    }
    Some(statuses)
}

#[test]
fn a_call_of_a_copy_that_fails_is_told(rt: HostRuntime) -> Result<(), Fail> {
    let start = copying(rt.alloc()).ok_or("no devices")?;
    let first = statuses(rt.alloc(), &start, false).ok_or("no run")?;
    let second = statuses(rt.alloc(), &start, true).ok_or("no run")?;
    assert_eq!(rt; first, [6, 6, 6, 6, 6, 6, 6, 6, 6, 6, 0, 0]);
    assert_eq!(rt; second, [6, 6, 6, 6, 6, 6, 0, 0, 0, 0, 0, 0]);
    Ok(())
}

#[test]
fn a_call_of_a_catching_up_that_fails_is_told(rt: HostRuntime) -> Result<(), Fail> {
    let start = catching(rt.alloc()).ok_or("no devices")?;
    let first = statuses(rt.alloc(), &start, false).ok_or("no run")?;
    let second = statuses(rt.alloc(), &start, true).ok_or("no run")?;
    assert_eq!(rt; first, [6, 6, 6, 6, 6, 6, 6, 6, 0, 0, 0, 0]);
    assert_eq!(rt; second, [6, 6, 6, 6, 6, 6, 6, 6, 6, 6, 6, 6]);
    Ok(())
}
