//! The texts that lines are told, on channel 0.
ghost use Rattle.std.specs.Prelude.{◌≡◌, ◌<◌, IfOk, OnOk, OnErr};
ghost use Rattle.iss_model.specs.declared.limits.TheConstants.{MOST_RECORDS};
ghost use Rattle.iss_edge.specs.World.{Told};
ghost use Rattle.iss_edge.specs.Outer.{ToldBoth};
ghost use Rattle.iss_top.specs.Progress.{texts_of_line, line_next, IsReplying};
ghost use Rattle.iss_top.specs.Hearing.{SendsAsHeard};
ghost use Rattle.iss_texts.specs.Sending.{Says, SaysSome};

use crate::answer::answer;
use crate::buffer::is_blank;
use crate::stop::Stop;
use crate::workspace::Workspace;
use iss_core::Core;
use iss_edge::Edge;
use std::alloc::Global;

/// Sends what a line is told, and returns the core after it. A blank line is told nothing.
#[tactic(auto, using(iss_texts::proofs::Saying::says_nothing), unfolding(crate::specs::Progress::texts_of_line, crate::specs::Progress::line_next))]
pub(crate) fn send_reply<E: Edge>(
    alloc: Global,
    core: Core,
    line: &[u8],
    workspace: &mut Workspace,
    edge: &mut E,
) -> Result<Core, Stop>
    requires room { core.state.count < MOST_RECORDS }
    ensures next { IfOk result (λ next. next.state ≡ line_next core.state line.now) }
    ensures told { OnOk result (Told (Says (texts_of_line core.state line.now)) (E.told edge.old) (E.told edge.new)) }
    ensures part { OnErr result (Told (SaysSome (texts_of_line core.state line.now)) (E.told edge.old) (E.told edge.new)) }
    ensures heard { ToldBoth E.told E.heard SendsAsHeard edge.old edge.new }
    ensures replying { IsReplying (E.faults edge.old) (E.faults edge.new) result }
{
    if is_blank(line) {
        return Ok(core);
    }
    let Workspace { scratch, texts } = workspace;
    texts.clear();
    let next = answer(alloc, core, line, scratch, texts)?;
    match texts.send(edge) {
        Ok(()) => Ok(next),
        Err(_) => Err(Stop::Output),
    }
}
