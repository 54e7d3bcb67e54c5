//! What each command comes to.
use crate::devices::{
    HALVES, HALVES_OF_7, ONE_JOURNAL, counts_of, device_of, eight, is_sent, play, with_users,
};
use std::alloc::Global;
use std::test::Fail;

const CATCH: &[&str] = &["catch", "a", "b"];

const SAME: &[&str] = &["same", "a", "b"];

/// The device of 633 bytes to which those eight records are copied.
fn copied(alloc: Global) -> Option<Vec<u8>> {
    let from = eight(alloc)?;
    let to = device_of(alloc, b"", 633).ok()?;
    let played = play(
        alloc,
        &["copy", "a", "b", "633"],
        (from.as_slice(), 0),
        (to.as_slice(), 0),
    )
    .ok()?;
    if played.status != 0 {
        return None;
    }
    played.to.device().to_vec(alloc).ok()
}

#[test]
fn a_copy_has_room_for_the_image(rt: HostRuntime) -> Result<(), Fail> {
    let from = eight(rt.alloc()).ok_or("no device")?;
    let to = device_of(rt.alloc(), b"", 633)?;
    let played = play(
        rt.alloc(),
        &["copy", "a", "b", "633"],
        (from.as_slice(), 0),
        (to.as_slice(), 0),
    )?;
    let done = (
        played.status,
        counts_of(played.from.trace()),
        counts_of(played.to.trace()),
    );
    assert_eq!(rt; done, (0, (0, 1), (3, 3)));
    Ok(())
}

#[test]
fn a_copy_of_a_byte_less_has_none(rt: HostRuntime) -> Result<(), Fail> {
    let from = eight(rt.alloc()).ok_or("no device")?;
    let to = device_of(rt.alloc(), b"", 632)?;
    let played = play(
        rt.alloc(),
        &["copy", "a", "b", "632"],
        (from.as_slice(), 0),
        (to.as_slice(), 0),
    )?;
    let done = (
        played.status,
        counts_of(played.from.trace()),
        counts_of(played.to.trace()),
    );
    assert_eq!(rt; done, (9, (0, 1), (0, 0)));
    Ok(())
}

#[test]
fn a_copy_to_a_device_of_another_size_does_nothing(rt: HostRuntime) -> Result<(), Fail> {
    let from = eight(rt.alloc()).ok_or("no device")?;
    let to = device_of(rt.alloc(), b"", 632)?;
    let played = play(
        rt.alloc(),
        &["copy", "a", "b", "633"],
        (from.as_slice(), 0),
        (to.as_slice(), 0),
    )?;
    let done = (
        played.status,
        counts_of(played.from.trace()),
        counts_of(played.to.trace()),
    );
    assert_eq!(rt; done, (4, (0, 0), (0, 0)));
    Ok(())
}

#[test]
fn a_formatted_device_is_not_behind_one_that_turned(rt: HostRuntime) -> Result<(), Fail> {
    let from = eight(rt.alloc()).ok_or("no device")?;
    let to = device_of(rt.alloc(), HALVES, 2000)?;
    let played = play(rt.alloc(), CATCH, (from.as_slice(), 0), (to.as_slice(), 0))?;
    let done = (
        played.status,
        counts_of(played.from.trace()),
        counts_of(played.to.trace()),
    );
    assert_eq!(rt; done, (10, (0, 1), (0, 1)));
    Ok(())
}

#[test]
fn a_device_of_another_instance_is_not_behind(rt: HostRuntime) -> Result<(), Fail> {
    let empty = device_of(rt.alloc(), ONE_JOURNAL, 200)?;
    let from = with_users(rt.alloc(), empty.as_slice(), &[(b"t1", b"u1")]).ok_or("no device")?;
    let to = device_of(rt.alloc(), HALVES_OF_7, 2000)?;
    let played = play(rt.alloc(), CATCH, (from.as_slice(), 0), (to.as_slice(), 0))?;
    let done = (
        played.status,
        counts_of(played.from.trace()),
        counts_of(played.to.trace()),
    );
    assert_eq!(rt; done, (10, (0, 1), (0, 1)));
    Ok(())
}

#[test]
fn a_copy_has_caught_up(rt: HostRuntime) -> Result<(), Fail> {
    let from = eight(rt.alloc()).ok_or("no device")?;
    let to = copied(rt.alloc()).ok_or("no copy")?;
    let played = play(rt.alloc(), CATCH, (from.as_slice(), 0), (to.as_slice(), 0))?;
    let done = (
        played.status,
        counts_of(played.from.trace()),
        counts_of(played.to.trace()),
    );
    assert_eq!(rt; done, (0, (0, 1), (0, 1)));
    Ok(())
}

#[test]
fn a_copy_is_the_same(rt: HostRuntime) -> Result<(), Fail> {
    let from = eight(rt.alloc()).ok_or("no device")?;
    let to = copied(rt.alloc()).ok_or("no copy")?;
    let played = play(rt.alloc(), SAME, (from.as_slice(), 0), (to.as_slice(), 0))?;
    let sent = is_sent(played.from.trace(), b"{\"records\":8,\"same\":true}\n");
    assert_eq!(rt; (played.status, sent), (0, true));
    Ok(())
}

/// One journal with two users, caught up on a device of 1000 bytes.
#[test]
fn one_journal_is_caught_up_on_halves(rt: HostRuntime) -> Result<(), Fail> {
    let empty = device_of(rt.alloc(), ONE_JOURNAL, 200)?;
    let users: [(&[u8], &[u8]); 2] = [(b"t1", b"u1"), (b"t2", b"u2")];
    let from = with_users(rt.alloc(), empty.as_slice(), &users).ok_or("no device")?;
    let to = device_of(rt.alloc(), HALVES, 1000)?;
    let caught = play(rt.alloc(), CATCH, (from.as_slice(), 0), (to.as_slice(), 0))?;
    let told = play(
        rt.alloc(),
        SAME,
        (caught.from.device(), 0),
        (caught.to.device(), 0),
    )?;
    let sent = is_sent(told.from.trace(), b"{\"records\":2,\"same\":true}\n");
    let done = (
        caught.status,
        counts_of(caught.to.trace()),
        told.status,
        sent,
    );
    assert_eq!(rt; done, (0, (4, 5), 0, true));
    Ok(())
}

#[test]
fn a_device_without_the_records_is_not_the_same(rt: HostRuntime) -> Result<(), Fail> {
    let empty = device_of(rt.alloc(), ONE_JOURNAL, 200)?;
    let from = with_users(rt.alloc(), empty.as_slice(), &[(b"t1", b"u1")]).ok_or("no device")?;
    let to = device_of(rt.alloc(), HALVES, 1000)?;
    let told = play(rt.alloc(), SAME, (from.as_slice(), 0), (to.as_slice(), 0))?;
    let sent = is_sent(told.from.trace(), b"{\"records\":1,\"same\":false}\n");
    assert_eq!(rt; (told.status, sent), (0, true));
    Ok(())
}

/// A record that has no room is told by the status, and those before it were committed.
#[test]
fn records_go_as_far_as_there_is_room(rt: HostRuntime) -> Result<(), Fail> {
    let empty = device_of(rt.alloc(), ONE_JOURNAL, 200)?;
    let users: [(&[u8], &[u8]); 2] = [(b"t1", b"u1"), (b"t2", b"u2")];
    let from = with_users(rt.alloc(), empty.as_slice(), &users).ok_or("no device")?;
    let to = device_of(rt.alloc(), HALVES, 100)?;
    let caught = play(rt.alloc(), CATCH, (from.as_slice(), 0), (to.as_slice(), 0))?;
    let done = (caught.status, counts_of(caught.to.trace()));
    assert_eq!(rt; done, (9, (2, 3)));
    Ok(())
}
