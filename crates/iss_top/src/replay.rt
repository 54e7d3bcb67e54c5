//! A run on a device. What waits for the gateway goes out, and then each line is taken, so that what it is told lasts
//! first.
ghost use Rattle.std.specs.Prelude.{◌≡◌};
ghost use Rattle.iss_edge.specs.declared.status.TheConstants.{BAD_DEVICE};
ghost use Rattle.iss_edge.specs.World.{Told};
ghost use Rattle.iss_edge.specs.Outer.{ToldBoth};
ghost use Rattle.iss_top.specs.Statuses.{stop_status};
ghost use Rattle.iss_top.specs.Replaying.{RunsFrom, IsReplayCaused};
ghost use Rattle.iss_device.specs.Refusals.{RefusesExactly};
ghost use Rattle.iss_top.specs.Replays.{ReplayRun, EveryMomentStands};
ghost use Rattle.iss_top.specs.Promptness.{RunsPromptly, RepliesPromptly};

use crate::reader::LineReader;
use crate::stop::Stop;
use crate::taking::take_line;
use crate::workspace::Workspace;
use iss_edge::Edge;
use iss_store::{Routes, Store};
use std::alloc::Global;

/// Opens the device, sends what waits for the gateway, and takes the lines of the input to its end.
pub(crate) fn replay<E: Edge>(alloc: Global, edge: &mut E) -> Result<(), Stop>
    ensures ran { Told (ReplayRun (stop_status result)) (E.told edge.old) (E.told edge.new) }
    ensures moments { Told EveryMomentStands (E.told edge.old) (E.told edge.new) }
    ensures prompt { ToldBoth E.told E.heard RepliesPromptly edge.old edge.new }
    ensures refused { Told (RefusesExactly (stop_status result)) (E.told edge.old) (E.told edge.new) }
    ensures caused { IsReplayCaused (E.faults edge.old) (E.faults edge.new) result }
{
    let store = Store::open(alloc, edge)?;
    store.resume(alloc, edge, &mut Routes::lines(alloc))?;
    take_lines(alloc, store, edge)
}

/// Takes the lines of the input to its end.
fn take_lines<E: Edge>(alloc: Global, opened: Store, edge: &mut E) -> Result<(), Stop>
    requires size { E.extent edge.old ≡ opened.layout.size }
    ensures ran { Told (RunsFrom (stop_status result) opened) (E.told edge.old) (E.told edge.new) }
    ensures prompt { ToldBoth E.told E.heard (RunsPromptly opened) edge.old edge.new }
    ensures caused { IsReplayCaused (E.faults edge.old) (E.faults edge.new) result }
    ensures no_device { stop_status result ≡ BAD_DEVICE → ⊥ }
{
    let mut reader = LineReader::new(alloc)?;
    let mut store = opened;
    let mut workspace = Workspace::new(alloc);
    let mut routes = Routes::lines(alloc);
    'lines: while reader.read_line(edge)? {
        let line = reader.line();
        store = take_line(alloc, store, line, &mut workspace, &mut routes, edge)?;
    }
    Ok(())
}
