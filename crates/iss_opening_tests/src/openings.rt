//! A device in halves with an image and two records after it, opened at once and record by record.
ghost use Rattle.std.specs.Prelude.{◌≡◌};

use iss_edge::{Edge, MemoryEdge};
use iss_opening::{Opened, Reading, open};
use std::alloc::{AllocError, Global};
use std::test::Fail;

/// The header, and in the first half the image of five records that left nothing but their number. Then come the record of a user and
/// that of its card, and an end gate.
const FRONT: &[u8] =
    b"\x01ISS1\x02\0\0\0\0\0\0\0\0\0\x07\0\0\0\0\x2c\0\0\0\x05\0\0\0\0\0\0\0\0\0\0\0\0\0\0\0\0\0\0\0\0\0\0\0\0\0\0\0\0\0\0\0\0\0\0\0\0\0\0\0\0\x01\0\0\0\x0f\x01\0\0\0\0\0\0\0\0\x02t1\x02u1\x01\0\0\0\x1b\x02\0\0\0\0\0\0\0\0\x02t2\x02c1\x02u1\x07default\x01\0";

/// How many bytes the device has. Its first half ends at place 158.
const SIZE: usize = 300;

/// An outside with this device.
fn edge_of(alloc: Global) -> Result<MemoryEdge, AllocError> {
    let mut device = FRONT.to_vec(alloc)?;
    device.resize(SIZE, 0)?;
    let script = Vec::new(alloc);
    MemoryEdge::new(alloc, device, Vec::new(alloc), script, Vec::new(alloc))
}

/// How many records stand, how many of them are in the image alone, and how many bytes are free.
fn told(opened: Opened) -> (u32, u32, u64) {
    let (core, journal, _, point) = opened.into_parts();
    (core.count(), point, journal.free())
}

/// The same of a device that is opened at once.
fn opened_at_once<E: Edge>(alloc: Global, edge: &mut E) -> Option<(u32, u32, u64)> {
    Some(told(open(alloc, edge).ok()?))
}

/// The numbers of both records and whether there is no third, and what is told then.
fn opened_by_records<E: Edge>(
    alloc: Global,
    edge: &mut E,
) -> Option<(u32, u32, bool, (u32, u32, u64))> {
    let reading = Reading::start(alloc, edge).ok()?;
    let (reading, first) = reading.next(alloc, edge).ok()?;
    let (reading, second) = reading.next(alloc, edge).ok()?;
    let (reading, third) = reading.next(alloc, edge).ok()?;
    let opened = reading.finish(edge).ok()?;
    Some((first?.number, second?.number, third.is_none(), told(opened)))
}

#[test]
fn an_image_and_two_records(rt: HostRuntime) -> Result<(), Fail> {
    let mut edge = edge_of(rt.alloc())?;
    let at_once = opened_at_once(rt.alloc(), &mut edge).ok_or("it isn't opened")?;
    let by_records = opened_by_records(rt.alloc(), &mut edge).ok_or("it isn't read")?;
    assert_eq!(rt; at_once, (7, 5, 40));
    assert_eq!(rt; by_records, (6, 7, true, (7, 5, 40)));
    Ok(())
}
