//! Formatting a device in halves.

ghost use Rattle.std.specs.Prelude.{◌≡◌, ◌+◌, ◌<◌, ◌≤◌, List, [], length, OnOk};
ghost use Rattle.iss_edge.specs.World.{Told, Stays};
ghost use Rattle.iss_edge.specs.Calls.{HearsNothing};
ghost use Rattle.iss_journal.specs.Answers.{DiskCause, DiskAlone};
ghost use Rattle.iss_journal.specs.declared.layout.TheConstants.{HEADER_INSTANCES, GREATEST_SIZE};
ghost use Rattle.iss_halves.specs.declared.layout.TheConstants.{LEAST_HALVES_SIZE};
ghost use Rattle.iss_halves.specs.Making.{Makes, MakesGood, TailMakes, TailMakesGood};

use crate::header::tail_of;
use iss_edge::{Edge, put};
use iss_journal::JournalFault;

/// Makes the device, of 27 to 2^32 bytes, one in halves of this instance that stands for no records. Until one of its syncs has
/// succeeded, a stop leaves the device as it was but for its first byte. From then on it leaves a device without a header, or one
/// of this instance that stands for no records. Its one fault is `Disk`.
#[tactic(auto, using(crate::proofs::Makings::formatted, crate::proofs::Makings::formatted_good))]
pub fn format<E: Edge>(edge: &mut E, instance: u64) -> Result<(), JournalFault>
    requires least { LEAST_HALVES_SIZE ≤ E.extent edge.old }
    requires most { E.extent edge.old ≤ GREATEST_SIZE }
    requires small { instance < HEADER_INSTANCES }
    ensures formatted { OnOk result (Told (Makes instance []) (E.told edge.old) (E.told edge.new)) }
    ensures moments { Told (MakesGood instance []) (E.told edge.old) (E.told edge.new) }
    ensures alone { DiskAlone result }
    ensures cause { DiskCause (E.faults edge.old) (E.faults edge.new) result }
    ensures heard { Told HearsNothing (E.heard edge.old) (E.heard edge.new) }
    ensures kept { Stays E.extent edge.old edge.new }
    ensures channels { Stays E.channels edge.old edge.new }
{
    let tail = tail_of(instance);
    make(edge, &tail)
}

/// Makes the device one in halves whose first half holds an image and no records. `tail` is what comes after the first byte: the rest
/// of the header, the selector of the first half, and the bytes of a `Half`. At each moment a stop leaves the device as it was but
/// for its first byte, or one without a header, or one that holds the image. Its one fault is `Disk`.
#[tactic(auto, using(crate::proofs::Makings::making_first, crate::proofs::Makings::making_second, crate::proofs::Makings::making_third, crate::proofs::Makings::making_done, crate::proofs::Makings::making_done_good, iss_edge::proofs::ToldPuts::hears_nothing))]
pub fn make<E: Edge>(edge: &mut E, tail: &[u8]) -> Result<(), JournalFault>
    requires room { 1 + length tail.now ≤ E.extent edge.old }
    ensures made { OnOk result (Told (TailMakes tail.now) (E.told edge.old) (E.told edge.new)) }
    ensures moments { Told (TailMakesGood tail.now) (E.told edge.old) (E.told edge.new) }
    ensures alone { DiskAlone result }
    ensures cause { DiskCause (E.faults edge.old) (E.faults edge.new) result }
    ensures heard { Told HearsNothing (E.heard edge.old) (E.heard edge.new) }
    ensures kept { Stays E.extent edge.old edge.new }
    ensures channels { Stays E.channels edge.old edge.new }
{
    put(edge, 0, &[0])?;
    put(edge, 1, tail)?;
    put(edge, 0, &[1])?;
    Ok(())
}
