//! A run that attends to clients.
ghost use Rattle.std.specs.Prelude.{◌≡◌, ◌≤◌, OnOk, OnErr, is_ok, true};
ghost use Rattle.iss_edge.specs.World.{Later};
ghost use Rattle.iss_attend.specs.Attendances.{manner_of};
ghost use Rattle.iss_attend.specs.Causes.{IsAttendCaused};
ghost use Rattle.iss_attend.specs.Held.{seen_held, IsHeld, Leaves, LeavesPart};
ghost use Rattle.iss_attend.specs.Runs.{RunsOn};

use crate::held::Held;
use crate::{AnswersBodies, AttendFault};
use iss_clients::close_each;
use iss_edge::Edge;
use std::alloc::Global;

/// Waits at most `turns` times for what comes next, a client or a channel that is ready, and answers each whole request at once. In
/// the end every channel that is still open is closed.
///
/// If a client's channel fails, that channel is closed, and the run goes on.
///
/// # Errors
///
/// `Wait` if a wait failed, and `OutOfMemory`.
pub fn attend<A: AnswersBodies + Drop, E: Edge>(
    alloc: Global,
    answers: A,
    turns: u32,
    edge: &mut E,
) -> Result<(), AttendFault>
    requires { turns ≤ A.room answers }
    ensures attending { RunsOn E.told E.heard (manner_of A.after A.response) answers turns (is_ok result ≡ true) edge.old edge.new }
    ensures caused { IsAttendCaused (E.faults edge.old) (E.faults edge.new) result }
{
    let mut held = Held::new(alloc, answers, turns)?;
    wait_on(alloc, &mut held, edge)?;
    let open = held.clients.channels(alloc)?;
    close_each(edge, &open);
    Ok(())
}

/// Takes in what comes while waits are left.
fn wait_on<A: AnswersBodies + Drop, E: Edge>(
    alloc: Global,
    held: &mut Held<A>,
    edge: &mut E,
) -> Result<(), AttendFault>
    requires { IsHeld A.room held.old }
    ensures attends { OnOk result
        (Leaves E.told E.heard A.after A.response (seen_held held.old) held.new edge.old edge.new) }
    ensures over { OnOk result (held.new.turns ≡ 0) }
    ensures part { OnErr result
        (LeavesPart E.told E.heard A.after A.response (seen_held held.old) edge.old edge.new) }
    ensures caused { IsAttendCaused (E.faults edge.old) (E.faults edge.new) result }
{
    'turns: while held.turns > 0 {
        held.hear(alloc, edge)?;
    }
    Ok(())
}
