//! A turn, and an append after it.

ghost use Rattle.std.specs.Prelude.{◌≡◌, ◌+◌, ◌≤◌, length, IsTrue, OnOk, IfOk};
ghost use Rattle.iss_edge.specs.World.{Told, Stays};
ghost use Rattle.iss_edge.specs.Calls.{HearsNothing};
ghost use Rattle.iss_journal.specs.Answers.{DiskCause, DiskAlone};
ghost use Rattle.iss_halves.specs.Forms.{turned};
ghost use Rattle.iss_halves.specs.Halves.{half_size};
ghost use Rattle.iss_halves.specs.Turned.{appended_place, TurnedGood, TurnedGoing};

use crate::{Half, Halves};
use iss_edge::Edge;
use iss_journal::{Frame, Journal, JournalFault};

/// Turns to the other half with this image, and then adds the frame's record after it. A stop at any moment leaves the records that
/// stood, or also the new one. Its one fault is `Disk`, after which neither is to be used again.
#[tactic(auto, using(crate::proofs::TurnedAppends::told_turn_alone, crate::proofs::TurnedAppends::told_turn_then_part, crate::proofs::TurnedAppends::told_turn_then_whole, iss_edge::proofs::ToldPuts::hears_nothing))]
pub fn append_turned<E: Edge>(
    halves: &mut Halves,
    edge: &mut E,
    half: &Half,
    frame: &Frame,
) -> Result<Journal, JournalFault>
    requires halved { IsTrue halves.old.halved }
    requires fits { length half.now + length frame.now ≤ half_size halves.old.size }
    requires room { halves.old.size ≤ E.extent edge.old }
    ensures moments { Told (TurnedGood halves.old half.now frame.now) (E.told edge.old) (E.told edge.new) }
    ensures going { OnOk result
        (Told (TurnedGoing halves.old half.now frame.now) (E.told edge.old) (E.told edge.new)) }
    ensures journal { IfOk result (λ journal. journal ≡ appended_place halves.old half.now frame.now) }
    ensures now { OnOk result (halves.new ≡ turned halves.old) }
    ensures alone { DiskAlone result }
    ensures cause { DiskCause (E.faults edge.old) (E.faults edge.new) result }
    ensures heard { Told HearsNothing (E.heard edge.old) (E.heard edge.new) }
    ensures kept { Stays E.extent edge.old edge.new }
    ensures channels { Stays E.channels edge.old edge.new }
{
    let mut journal = halves.turn(edge, half.as_slice())?;
    journal.append(edge, frame)?;
    Ok(journal)
}
