//! A dry run: the lines of channel 0 get their replies, with no device.
ghost use Rattle.iss_edge.specs.World.{Told};
ghost use Rattle.iss_edge.specs.Outer.{ToldBoth};
ghost use Rattle.iss_top.specs.Statuses.{stop_status};
ghost use Rattle.iss_top.specs.Runs.{Ran, IsCaused};
ghost use Rattle.iss_top.specs.Promptness.{HearsPromptly, dry_owed};

use crate::answer::DRY_INSTANCE;
use crate::reader::LineReader;
use crate::replying::send_reply;
use crate::stop::Stop;
use crate::workspace::Workspace;
use iss_core::Core;
use iss_edge::Edge;
use std::alloc::Global;

/// Reads lines to the end of the input and writes their replies.
pub(crate) fn dry<E: Edge>(alloc: Global, edge: &mut E) -> Result<(), Stop>
    ensures ran { Told (Ran (stop_status result)) (E.told edge.old) (E.told edge.new) }
    ensures prompt { ToldBoth E.told E.heard (HearsPromptly dry_owed) edge.old edge.new }
    ensures caused { IsCaused (E.faults edge.old) (E.faults edge.new) result }
{
    let mut reader = LineReader::new(alloc)?;
    let mut core = Core::new(alloc, DRY_INSTANCE)?;
    let mut workspace = Workspace::new(alloc);
    'lines: while reader.read_line(edge)? {
        core = send_reply(alloc, core, reader.line(), &mut workspace, edge)?;
    }
    Ok(())
}
