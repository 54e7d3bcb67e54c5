//! Reading a selector, a length and an image.

ghost use Rattle.std.specs.Prelude.{◌≡◌, ◌+◌, ◌^◌, ◌<◌, ◌≤◌, length, IfOk, OnErr};
ghost use Rattle.std.specs.Int.{w32, to_be_bytes};
ghost use Rattle.iss_edge.specs.World.{Told, HasCause, Stays};
ghost use Rattle.iss_edge.specs.Calls.{Same, Reads, HearsNothing};
ghost use Rattle.iss_journal.specs.Answers.{DiskCause, DiskOrMemory};
ghost use Rattle.iss_journal.specs.Opening.{ReadsGate};
ghost use Rattle.iss_journal.specs.declared.layout.TheConstants.{LENGTH};
ghost use Rattle.iss_halves.specs.Finding.{ReadsLength};

use iss_edge::{Bytes, Edge, Failed};
use iss_journal::JournalFault;
use iss_journal::layout::LENGTH;
use std::alloc::Global;

/// How long a buffer for a length is.
const LENGTH_LEN: usize = LENGTH as usize;

/// The byte at this place.
#[tactic(auto, using(iss_journal::proofs::Readings::reads_gate))]
pub(crate) fn read_byte<E: Edge>(edge: &mut E, at: u64) -> Result<u8, Failed>
    requires { at < E.extent edge.old }
    ensures read { IfOk result (λ byte. Told (ReadsGate at byte) (E.told edge.old) (E.told edge.new)) }
    ensures unchanged { OnErr result (Told Same (E.told edge.old) (E.told edge.new)) }
    ensures cause { HasCause (λ f. f.disk) (E.faults edge.old) (E.faults edge.new) result }
    ensures heard { Told HearsNothing (E.heard edge.old) (E.heard edge.new) }
    ensures kept { Stays E.extent edge.old edge.new }
    ensures channels { Stays E.channels edge.old edge.new }
{
    let mut buf = [0; 1];
    edge.read_at(at, &mut buf)?;
    Ok(buf[0])
}

/// A length of four bytes at this place.
#[tactic(auto, using(crate::proofs::Findings::length_is))]
pub(crate) fn read_length<E: Edge>(edge: &mut E, at: u64) -> Result<u32, Failed>
    requires { at + LENGTH ≤ E.extent edge.old }
    ensures read { IfOk result (λ n. Told (ReadsLength at n) (E.told edge.old) (E.told edge.new)) }
    ensures unchanged { OnErr result (Told Same (E.told edge.old) (E.told edge.new)) }
    ensures cause { HasCause (λ f. f.disk) (E.faults edge.old) (E.faults edge.new) result }
    ensures heard { Told HearsNothing (E.heard edge.old) (E.heard edge.new) }
    ensures kept { Stays E.extent edge.old edge.new }
    ensures channels { Stays E.channels edge.old edge.new }
{
    let mut buf = [0; LENGTH_LEN];
    edge.read_at(at, &mut buf)?;
    Ok(number_of(buf))
}

/// An image of this length from this place on.
#[tactic(auto, using(iss_journal::proofs::Readings::read_same))]
pub(crate) fn read_image<E: Edge>(
    alloc: Global,
    edge: &mut E,
    at: u64,
    len: usize,
) -> Result<Bytes, JournalFault>
    requires { at + len ≤ E.extent edge.old }
    ensures read { IfOk result (λ image. Told (Reads at image) (E.told edge.old) (E.told edge.new)) }
    ensures len { IfOk result (λ image. length image ≡ len) }
    ensures unchanged { OnErr result (Told Same (E.told edge.old) (E.told edge.new)) }
    ensures faults { DiskOrMemory result }
    ensures cause { DiskCause (E.faults edge.old) (E.faults edge.new) result }
    ensures heard { Told HearsNothing (E.heard edge.old) (E.heard edge.new) }
    ensures kept { Stays E.extent edge.old edge.new }
    ensures channels { Stays E.channels edge.old edge.new }
{
    let mut image = vec![in alloc; 0; len]?;
    edge.read_at(at, image.as_mut_slice())?;
    Ok(Bytes::from(image))
}

/// The number that four bytes spell, the highest first.
fn number_of(bytes: [u8; LENGTH_LEN]) -> u32
    ensures spelled { bytes ≡ to_be_bytes w32 result }
    ensures small { result < 2 ^ 32 }
{
    let [a, b, c, d] = bytes;
    u32::from_be_bytes([a, b, c, d])
}
