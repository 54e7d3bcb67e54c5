//! Responses that go out.
ghost use Rattle.iss_edge.specs.World.{Later};
ghost use Rattle.iss_edge.specs.Outer.{ToldBoth};
ghost use Rattle.iss_attend.specs.Reading.{Replies};

use iss_edge::{Channel, Edge};

/// Sends a client its response, and closes its channel. If the response doesn't go out whole, that costs nothing else.
#[tactic(auto, using(crate::proofs::Responses::replied_told, crate::proofs::Responses::torn_told))]
pub(crate) fn reply<E: Edge>(edge: &mut E, ch: Channel, text: &[u8])
    ensures replies { ToldBoth E.told E.heard (Replies ch text.now) edge.old edge.new }
    ensures later { Later (E.faults edge.old) (E.faults edge.new) }
{
    if edge.emit(ch, text).is_err() {
        edge.close(ch);
        return;
    }
    edge.close(ch);
}
