//! Devices with the records of event lines on them, as bytes.
use iss_edge::{Edge, MemoryEdge};
use iss_event::{Mode, read_line};
use iss_store::Store;
use std::alloc::{AllocError, Global};

/// A device, by the records that stand on it.
#[derive(Clone, Copy)]
pub(crate) enum Device {
    /// One journal of instance 0, with so many records of the purchase.
    Purchase(usize),
    /// The same of instance 7.
    Foreign(usize),
    /// Halves of instance 0, with so many records of a user that moves. It turns before the seventh and the eighth record.
    Moves(usize),
    /// The same of instance 7.
    ForeignMoves(usize),
    /// Zeros, which are no device.
    Blank,
}

/// The header of one journal, of instance 0, without records.
const ONE_JOURNAL: &[u8] = b"\x01ISS1\x01\0\0\0\0\0\0\0\0\0";

/// The same of instance 7.
const ONE_JOURNAL_OF_7: &[u8] = b"\x01ISS1\x01\0\0\0\0\0\0\0\0\x07";

/// The header of a device in halves, of instance 0, without records.
const HALVES: &[u8] = b"\x01ISS1\x02\0\0\0\0\0\0\0\0\0";

/// The same of instance 7.
const HALVES_OF_7: &[u8] = b"\x01ISS1\x02\0\0\0\0\0\0\0\0\x07";

/// How many bytes a device of one journal has.
const JOURNAL_SIZE: usize = 600;

/// How many bytes a device in halves has: the user's seventh record doesn't fit its first half.
const HALVES_SIZE: usize = 707;

/// A purchase that the gateway funds with the fifth record, and its clearing on the next day.
static PURCHASE: [&str; 6] = [
    r#"{"type":"product","token":"p1","product":"g","currency":"USD","funding":"GATEWAY","at":0}"#,
    r#"{"type":"user","token":"t1","user":"u1","at":0}"#,
    r#"{"type":"card","token":"t2","card":"c1","user":"u1","product":"g","at":0}"#,
    r#"{"type":"authorization","token":"a1","card":"c1","currency":"USD","amount":"60.00","mcc":"5411","mid":"m1","at":1000}"#,
    r#"{"type":"answer","call":1,"outcome":"FUNDED","at":1000}"#,
    r#"{"type":"clearing","token":"k1","txn":"a1","currency":"USD","amount":"60.00","final":true,"at":86400000}"#,
];

/// A user with a long name, who is suspended and made active in turns.
static MOVES: [&str; 8] = [
    r#"{"type":"user","token":"t1","user":"wwwwwwwwwwwwwwwwwwwwwwwwwwwwwwwwwwww","at":0}"#,
    r#"{"type":"move","token":"t2","user":"wwwwwwwwwwwwwwwwwwwwwwwwwwwwwwwwwwww","to":"SUSPENDED","at":0}"#,
    r#"{"type":"move","token":"t3","user":"wwwwwwwwwwwwwwwwwwwwwwwwwwwwwwwwwwww","to":"ACTIVE","at":0}"#,
    r#"{"type":"move","token":"t4","user":"wwwwwwwwwwwwwwwwwwwwwwwwwwwwwwwwwwww","to":"SUSPENDED","at":0}"#,
    r#"{"type":"move","token":"t5","user":"wwwwwwwwwwwwwwwwwwwwwwwwwwwwwwwwwwww","to":"ACTIVE","at":0}"#,
    r#"{"type":"move","token":"t6","user":"wwwwwwwwwwwwwwwwwwwwwwwwwwwwwwwwwwww","to":"SUSPENDED","at":0}"#,
    r#"{"type":"move","token":"t7","user":"wwwwwwwwwwwwwwwwwwwwwwwwwwwwwwwwwwww","to":"ACTIVE","at":0}"#,
    r#"{"type":"move","token":"t8","user":"wwwwwwwwwwwwwwwwwwwwwwwwwwwwwwwwwwww","to":"SUSPENDED","at":0}"#,
];

fn purchase() -> &'static [&'static str] {
    &PURCHASE
}

fn moves() -> &'static [&'static str] {
    &MOVES
}

/// The device's bytes.
pub(crate) fn bytes_of(alloc: Global, device: Device) -> Option<Vec<u8>> {
    match device {
        Device::Purchase(count) => filled(alloc, ONE_JOURNAL, JOURNAL_SIZE, purchase(), count),
        Device::Foreign(count) => filled(alloc, ONE_JOURNAL_OF_7, JOURNAL_SIZE, purchase(), count),
        Device::Moves(count) => filled(alloc, HALVES, HALVES_SIZE, moves(), count),
        Device::ForeignMoves(count) => filled(alloc, HALVES_OF_7, HALVES_SIZE, moves(), count),
        Device::Blank => filled(alloc, b"", JOURNAL_SIZE, purchase(), 0),
    }
}

/// A device of this size that begins so, with the records of the first lines.
fn filled(
    alloc: Global,
    front: &[u8],
    size: usize,
    lines: &[&str],
    count: usize,
) -> Option<Vec<u8>> {
    let mut device = front.to_vec(alloc).ok()?;
    device.resize(size, 0).ok()?;
    let mut edge = edge_of(alloc, device, 0).ok()?;
    for line in lines.iter().take(count) {
        committed(alloc, &mut edge, line)?;
    }
    edge.device().to_vec(alloc).ok()
}

/// An outside with this device, of whose calls the one of this number fails.
pub(crate) fn edge_of(
    alloc: Global,
    device: Vec<u8>,
    failing: u64,
) -> Result<MemoryEdge, AllocError> {
    let mut fails = Vec::new(alloc);
    fails.push(failing)?;
    MemoryEdge::new(alloc, device, Vec::new(alloc), Vec::new(alloc), fails)
}

/// Commits the record of this line, which has a stamp.
fn committed<E: Edge>(alloc: Global, edge: &mut E, line: &str) -> Option<()> {
    let said = read_line(alloc, line.as_bytes(), Mode::Lines).ok()?;
    let at = said.at?;
    let mut store = Store::open(alloc, edge).ok()?;
    let planned = store.plan(alloc, &said.input, at).ok()?;
    store.commit(alloc, edge, planned).ok()?;
    Some(())
}
