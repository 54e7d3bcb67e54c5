//! A run that serves clients and the gateway over a device.
ghost use Rattle.std.specs.Prelude.{◌≡◌, ◌==◌, IsTrue};
ghost use Rattle.std.specs.List.{list_any};
ghost use Rattle.iss_edge.specs.World.{Told, Rose};
ghost use Rattle.iss_edge.specs.Outer.{ToldBoth};
ghost use Rattle.iss_device.specs.Refusals.{RefusesExactly};
ghost use Rattle.iss_top.specs.Statuses.{serve_statuses};
ghost use Rattle.iss_serve.specs.ServeRuns.{serve_status, ServeRun, ServeEndsWell};

use iss_edge::Edge;
use iss_edge::status::{BAD_DEVICE, DISK_FAULT, DONE, INPUT_FAULT, OUT_OF_MEMORY};
use iss_serve::{ServeFault, serve};
use std::alloc::Global;

/// Serves over the device in at most `turns` waits, and returns the exit status.
#[tactic(auto, using(crate::proofs::ServedStatuses::input_caused, crate::proofs::ServedStatuses::disk_caused))]
pub(crate) fn serve_on_device<E: Edge>(alloc: Global, turns: u32, edge: &mut E) -> u8
    ensures known { IsTrue (list_any (λ status. result == status) serve_statuses) }
    ensures serving { ToldBoth E.told E.heard (ServeRun turns result) edge.old edge.new }
    ensures refused { Told (RefusesExactly result) (E.told edge.old) (E.told edge.new) }
    ensures complete { Told (ServeEndsWell (E.faults edge.old) (E.faults edge.new) result) (E.told edge.old) (E.told edge.new) }
    ensures input_fault { result ≡ INPUT_FAULT → Rose (E.faults edge.old).input (E.faults edge.new).input }
    ensures disk_fault { result ≡ DISK_FAULT → Rose (E.faults edge.old).disk (E.faults edge.new).disk }
{
    served_status(serve(alloc, turns, edge))
}

/// The exit status of a run that served so.
fn served_status(served: Result<(), ServeFault>) -> u8
    ensures status { result ≡ serve_status served }
    ensures known { IsTrue (list_any (λ status. result == status) serve_statuses) }
{
    match served {
        Ok(()) => DONE,
        Err(ServeFault::Wait) => INPUT_FAULT,
        Err(ServeFault::Device) => BAD_DEVICE,
        Err(ServeFault::Disk) => DISK_FAULT,
        Err(ServeFault::OutOfMemory) => OUT_OF_MEMORY,
    }
}
