//! Formatting a device.
ghost use Rattle.std.specs.Prelude.{◌≡◌, ◌==◌, ◌↔◌, ◌≤◌, ◌<◌, IsTrue};
ghost use Rattle.std.specs.List.{list_any};
ghost use Rattle.iss_edge.specs.World.{Rose};
ghost use Rattle.iss_journal.specs.declared.layout.TheConstants.{HEADER_INSTANCES, GREATEST_SIZE};
ghost use Rattle.iss_halves.specs.declared.layout.TheConstants.{LEAST_HALVES_SIZE};
ghost use Rattle.iss_top.specs.Statuses.{format_statuses};
ghost use Rattle.iss_top.specs.FormatRuns.{FormatRunOn};

use iss_edge::Edge;
use iss_edge::status::{BAD_DEVICE, DISK_FAULT, DONE};
use iss_halves::format as format_halves;

/// Makes the device one in halves of this instance that stands for no records, if it has `size` bytes, and returns the exit
/// status.
#[tactic(auto, using(crate::proofs::Formatted::format_failed, crate::proofs::Formatted::format_done))]
pub(crate) fn format<E: Edge>(edge: &mut E, size: u64, instance: u64) -> u8
    requires least { LEAST_HALVES_SIZE ≤ size }
    requires most { size ≤ GREATEST_SIZE }
    requires small { instance < HEADER_INSTANCES }
    ensures ran { FormatRunOn E.extent E.faults E.told edge.old edge.new size instance result }
    ensures known { IsTrue (list_any (λ status. result == status) format_statuses) }
    ensures other_size { (result ≡ BAD_DEVICE) ↔ (E.extent edge.old ≡ size → ⊥) }
    ensures untouched { result ≡ BAD_DEVICE → edge.new ≡ edge.old }
    ensures disk_fault { result ≡ DISK_FAULT → Rose (E.faults edge.old).disk (E.faults edge.new).disk }
{
    if edge.size() != size {
        return BAD_DEVICE;
    }
    match format_halves(edge, instance) {
        Ok(()) => DONE,
        Err(_) => DISK_FAULT,
    }
}
