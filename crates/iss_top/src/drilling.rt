//! A drill, and the status that it ends with.
ghost use Rattle.std.specs.Prelude.{◌≡◌, ◌==◌, ◌≤◌, IsTrue};
ghost use Rattle.std.specs.List.{list_any};
ghost use Rattle.iss_edge.specs.World.{Told, Rose};
ghost use Rattle.iss_drill.specs.declared.limits.TheConstants.{MOST_EVENTS};
ghost use Rattle.iss_top.specs.Statuses.{drill_statuses};
ghost use Rattle.iss_top.specs.DrillRuns.{DrillRun, DrillEndsWell};

use iss_drill::{DrillFault, drill};
use iss_edge::Edge;
use iss_edge::status::{DONE, OUT_OF_MEMORY, OUTPUT_FAULT};
use std::alloc::Global;

/// Runs a drill of `n` events on a device in memory, writes its line by one emit, and returns the exit status.
#[tactic(auto, using(crate::proofs::Drilled::told_drilled, crate::proofs::Drilled::told_undrilled))]
pub(crate) fn drilled<E: Edge>(alloc: Global, n: u32, edge: &mut E) -> u8
    requires least { 1 ≤ n }
    requires most { n ≤ MOST_EVENTS }
    ensures ran { Told (DrillRun n result) (E.told edge.old) (E.told edge.new) }
    ensures known { IsTrue (list_any (λ status. result == status) drill_statuses) }
    ensures ends_well { DrillEndsWell (E.faults edge.old) (E.faults edge.new) result }
    ensures output_fault { result ≡ OUTPUT_FAULT → Rose (E.faults edge.old).output (E.faults edge.new).output }
{
    match drill(alloc, n, edge) {
        Ok(()) => DONE,
        Err(DrillFault::Output) => OUTPUT_FAULT,
        Err(DrillFault::OutOfMemory) => OUT_OF_MEMORY,
    }
}
