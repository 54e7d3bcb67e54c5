//! Reading a gate, a length and a body.

ghost use Rattle.std.specs.Prelude.{◌≡◌, ◌+◌, ◌^◌, ◌<◌, ◌≤◌, ◌∷◌, length, IfOk, OnErr};
ghost use Rattle.std.specs.Int.{w32, to_be_bytes};
ghost use Rattle.iss_edge.specs.World.{Told, HasCause, Stays};
ghost use Rattle.iss_edge.specs.Calls.{Same, Reads, HearsNothing};
ghost use Rattle.iss_journal.specs.Answers.{DiskCause, DiskOrMemory};
ghost use Rattle.iss_journal.specs.Opening.{ReadsGate, ReadsHead};

use crate::JournalFault;
use crate::layout::HEAD;
use iss_edge::{Bytes, Edge, Failed};
use std::alloc::Global;

/// How long a buffer for a gate and a length is.
const HEAD_LEN: usize = HEAD as usize;

/// A gate and the length after it.
#[derive(Clone, Copy)]
pub(crate) struct Head {
    pub(crate) gate: u8,
    pub(crate) length: u32,
}

/// The byte at this place.
#[tactic(auto, using(crate::proofs::Readings::reads_gate))]
pub(crate) fn read_gate<E: Edge>(edge: &mut E, at: u64) -> Result<u8, Failed>
    requires { at < E.extent edge.old }
    ensures read { IfOk result (λ gate. Told (ReadsGate at gate) (E.told edge.old) (E.told edge.new)) }
    ensures unchanged { OnErr result (Told Same (E.told edge.old) (E.told edge.new)) }
    ensures cause { HasCause (λ f. f.disk) (E.faults edge.old) (E.faults edge.new) result }
    ensures heard { Told HearsNothing (E.heard edge.old) (E.heard edge.new) }
    ensures kept { Stays E.extent edge.old edge.new }
    ensures channels { Stays E.channels edge.old edge.new }
{
    let mut buf = [0; 1];
    edge.read_at(at, &mut buf)?;
    Ok(buf[0])
}

/// The gate at this place and the length after it, or 0 if the region ends before a record could.
#[tactic(auto, using(crate::proofs::Readings::reads_short, crate::proofs::Readings::reads_head))]
pub(crate) fn read_head<E: Edge>(edge: &mut E, at: u64, to: u64) -> Result<Head, Failed>
    requires gate { at < to }
    requires room { to ≤ E.extent edge.old }
    ensures read { IfOk result (λ head. Told
        (ReadsHead (record { gate = at; to = to }) head.gate head.length) (E.told edge.old) (E.told edge.new)) }
    ensures unchanged { OnErr result (Told Same (E.told edge.old) (E.told edge.new)) }
    ensures cause { HasCause (λ f. f.disk) (E.faults edge.old) (E.faults edge.new) result }
    ensures heard { Told HearsNothing (E.heard edge.old) (E.heard edge.new) }
    ensures kept { Stays E.extent edge.old edge.new }
    ensures channels { Stays E.channels edge.old edge.new }
{
    if to - at <= HEAD {
        let gate = read_gate(edge, at)?;
        return Ok(Head { gate, length: 0 });
    }
    let mut buf = [0; HEAD_LEN];
    edge.read_at(at, &mut buf)?;
    Ok(head_of(buf))
}

/// A body of this length from this place on.
#[tactic(auto, using(crate::proofs::Readings::read_same))]
pub(crate) fn read_body<E: Edge>(
    alloc: Global,
    edge: &mut E,
    at: u64,
    len: usize,
) -> Result<Bytes, JournalFault>
    requires { at + len ≤ E.extent edge.old }
    ensures read { IfOk result (λ body. Told (Reads at body) (E.told edge.old) (E.told edge.new)) }
    ensures len { IfOk result (λ body. length body ≡ len) }
    ensures unchanged { OnErr result (Told Same (E.told edge.old) (E.told edge.new)) }
    ensures faults { DiskOrMemory result }
    ensures cause { DiskCause (E.faults edge.old) (E.faults edge.new) result }
    ensures heard { Told HearsNothing (E.heard edge.old) (E.heard edge.new) }
    ensures kept { Stays E.extent edge.old edge.new }
    ensures channels { Stays E.channels edge.old edge.new }
{
    let mut body = vec![in alloc; 0; len]?;
    edge.read_at(at, body.as_mut_slice())?;
    Ok(Bytes::from(body))
}

/// A gate and a length as five bytes spell them.
fn head_of(bytes: [u8; HEAD_LEN]) -> Head
    ensures spelled { bytes ≡ result.gate ∷ to_be_bytes w32 result.length }
    ensures small { result.length < 2 ^ 32 }
{
    let [gate, a, b, c, d] = bytes;
    Head {
        gate,
        length: u32::from_be_bytes([a, b, c, d]),
    }
}
