//! A device in halves through a turn, one that is made with an image, and one of version 1: what stands on each, byte by byte, and what
//! an opening finds.
ghost use Rattle.std.specs.Prelude.{◌≡◌, ◌≤◌, IfSome};
ghost use Rattle.iss_edge.specs.World.{Stays};
ghost use Rattle.iss_journal.specs.declared.layout.TheConstants.{GREATEST_SIZE};
ghost use Rattle.iss_halves.specs.declared.layout.TheConstants.{LEAST_HALVES_SIZE};

use iss_edge::{Bytes, Edge, MemoryEdge};
use iss_halves::layout::LEAST_HALVES_SIZE;
use iss_halves::{Half, Halves, append_turned, format, make};
use iss_journal::layout::{GREATEST_SIZE, LONGEST_BODY};
use iss_journal::{Frame, Journal, Scan};
use std::alloc::{AllocError, Global};
use std::test::Fail;

/// A device in halves of 25 bytes each, after two records, a turn with an image of three bytes, and two records more.
const TURNED: &[u8; 67] =
    b"\x01ISS1\x02\0\0\0\0\0\0\0\0\0\x07\x01\0\0\0\0\x01\0\0\0\x03abc\x01\0\0\0\x05defgh\0\0\0\0\0\0\x03IMG\x01\0\0\0\x02ij\x01\0\0\0\x01k\0\0\0\0\0";

/// What comes after the first byte of a device in halves that is made with an image of three bytes.
const TAIL: &[u8; 24] = b"ISS1\x02\0\0\0\0\0\0\0\0\0\x07\0\0\0\0\x03IMG\0";

/// A device of version 1 with a record.
const ONE_JOURNAL: &[u8; 40] =
    b"\x01ISS1\x01\0\0\0\0\0\0\0\0\0\x07\x01\0\0\0\x03abc\0\0\0\0\0\0\0\0\0\0\0\0\0\0\0\0";

/// The same after another record.
const GOES_ON: &[u8; 40] =
    b"\x01ISS1\x01\0\0\0\0\0\0\0\0\0\x07\x01\0\0\0\x03abc\x01\0\0\0\x05defgh\0\0\0\0\0\0";

/// An outside with this device.
fn edge_of(alloc: Global, device: &[u8]) -> Result<MemoryEdge, AllocError> {
    let device = device.to_vec(alloc)?;
    let script = Vec::new(alloc);
    MemoryEdge::new(alloc, device, Vec::new(alloc), script, Vec::new(alloc))
}

/// The frame of a body.
fn frame_of(alloc: Global, body: &[u8]) -> Option<Frame> {
    if body.is_empty() || LONGEST_BODY < body.len() as u64 {
        return None;
    }
    let mut bytes = Frame::begin(alloc).ok()?;
    bytes.extend_from_slice(body).ok()?;
    Frame::close(bytes).ok()
}

/// The journal after a record more.
fn appended<E: Edge>(
    alloc: Global,
    edge: &mut E,
    mut journal: Journal,
    body: &[u8],
) -> Option<Journal>
    requires { journal.to ≤ E.extent edge.old }
    ensures to { IfSome result (λ journal. journal.to ≤ E.extent edge.new) }
    ensures kept { Stays E.extent edge.old edge.new }
{
    let frame = frame_of(alloc, body)?;
    journal.append(edge, &frame).ok()?;
    Some(journal)
}

/// The other half's journal, after a turn with this image and a record.
#[tactic(auto, unfolding(iss_halves::specs::Halves::half_start))]
fn turned<E: Edge>(
    alloc: Global,
    edge: &mut E,
    layout: &mut Halves,
    image: &[u8],
    body: &[u8],
) -> Option<Journal>
    requires { layout.old.size ≤ E.extent edge.old }
    ensures { IfSome result (λ journal. journal.to ≤ E.extent edge.new) }
{
    if !layout.is_halved() || LONGEST_BODY < image.len() as u64 {
        return None;
    }
    let half = Half::of(alloc, image).ok()?;
    let frame = frame_of(alloc, body)?;
    let room = layout.half_size();
    if room < half.size() || room - half.size() < frame.size() {
        return None;
    }
    append_turned(layout, edge, &half, &frame).ok()
}

/// What an opening finds.
#[derive(Drop)]
struct Found {
    layout: Halves,
    image: Bytes,
    bodies: [Option<Bytes>; 3],
    journal: Journal,
}

/// Opens a device that has at most three records after its image.
fn opened<E: Edge>(alloc: Global, edge: &mut E) -> Option<Found>
    ensures size { IfSome result (λ found. found.layout.size ≤ E.extent edge.new) }
    ensures to { IfSome result (λ found. found.journal.to ≤ E.extent edge.new) }
{
    let layout = Halves::open(edge).ok()?;
    let image = layout.image(alloc, edge).ok()?;
    let (from, to) = layout.region(image.len() as u64);
    let mut scan = Scan::start(edge, from, to).ok()?;
    let first = scan.next(alloc, edge).ok()?;
    let second = scan.next(alloc, edge).ok()?;
    let third = scan.next(alloc, edge).ok()?;
    let journal = scan.finish(edge).ok()?;
    Some(Found {
        layout,
        image,
        bodies: [first, second, third],
        journal,
    })
}

/// The version, the instance, and how many bytes are free; then whether the image and the bodies are these. No body stands for none.
fn told(found: &Found, image: &[u8], bodies: [&[u8]; 3]) -> (u8, u64, u64, bool) {
    let [first, second, third] = &found.bodies;
    let same = found.image.as_slice() == image
        && is_body(first, bodies[0])
        && is_body(second, bodies[1])
        && is_body(third, bodies[2]);
    (
        found.layout.version(),
        found.layout.instance(),
        found.journal.free(),
        same,
    )
}

fn is_body(body: &Option<Bytes>, bytes: &[u8]) -> bool {
    match body {
        Some(body) => body.as_slice() == bytes,
        None => bytes.is_empty(),
    }
}

/// Formats the device, adds two records, turns with a third, and adds a fourth.
fn goes_through_a_turn<E: Edge>(alloc: Global, edge: &mut E) -> Option<Found> {
    let size = edge.size();
    if size < LEAST_HALVES_SIZE || GREATEST_SIZE < size {
        return None;
    }
    format(edge, 7).ok()?;
    let Found {
        mut layout,
        journal,
        ..
    } = opened(alloc, edge)?;
    let journal = appended(alloc, edge, journal, b"abc")?;
    appended(alloc, edge, journal, b"defgh")?;
    let journal = turned(alloc, edge, &mut layout, b"IMG", b"ij")?;
    appended(alloc, edge, journal, b"k")?;
    opened(alloc, edge)
}

#[test]
fn a_device_that_turns(rt: HostRuntime) -> Result<(), Fail> {
    let mut edge = edge_of(rt.alloc(), &[0; 67])?;
    let found = goes_through_a_turn(rt.alloc(), &mut edge).ok_or("a call fails")?;
    assert_eq!(rt; told(&found, b"IMG", [b"ij", b"k", b""]), (2, 7, 4, true));
    assert!(rt; edge.device() == TURNED.as_slice());
    Ok(())
}

/// Makes the device with an image, and opens it.
fn made<E: Edge>(alloc: Global, edge: &mut E) -> Option<Found> {
    if edge.size() < 25 {
        return None;
    }
    make(edge, TAIL).ok()?;
    opened(alloc, edge)
}

#[test]
fn a_device_that_is_made_with_an_image(rt: HostRuntime) -> Result<(), Fail> {
    let mut edge = edge_of(rt.alloc(), &[9; 67])?;
    let found = made(rt.alloc(), &mut edge).ok_or("a call fails")?;
    assert_eq!(rt; told(&found, b"IMG", [b"", b"", b""]), (2, 7, 17, true));
    Ok(())
}

/// Opens the device, adds a record, and opens it again.
fn goes_on<E: Edge>(alloc: Global, edge: &mut E) -> Option<Found> {
    let found = opened(alloc, edge)?;
    appended(alloc, edge, found.journal, b"defgh")?;
    opened(alloc, edge)
}

#[test]
fn a_device_of_version_1(rt: HostRuntime) -> Result<(), Fail> {
    let mut edge = edge_of(rt.alloc(), ONE_JOURNAL)?;
    let found = goes_on(rt.alloc(), &mut edge).ok_or("a call fails")?;
    assert_eq!(rt; told(&found, b"", [b"abc", b"defgh", b""]), (1, 7, 5, true));
    assert!(rt; edge.device() == GOES_ON.as_slice());
    Ok(())
}
