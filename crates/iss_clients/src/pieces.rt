//! The pieces in which a request's bytes come.
ghost use Rattle.std.specs.Prelude.{◌≡◌, ◌≤◌, [], ◌∷◌, Some, length, IfOk, IfSome};
ghost use Rattle.iss_edge.specs.declared.outside.Answered.TheVariants.{Took};
ghost use Rattle.iss_edge.specs.World.{Later, Stays};
ghost use Rattle.iss_edge.specs.Outer.{Adds, ToldBoth};
ghost use Rattle.iss_session.specs.declared.piece.TheConstants.{LONGEST_PIECE};
ghost use Rattle.iss_link.specs.Hearing.{got_in};
ghost use Rattle.iss_link.specs.Worlds.{StillTold};

use iss_edge::{Channel, Edge};
use std::alloc::{AllocError, Global};

/// Takes the next bytes of a channel that is ready, and returns how many came: 0 at their end, `None` if the take failed.
#[tactic(auto, using(iss_edge::proofs::Outers::told_takes, iss_edge::proofs::Outers::told_untaken, iss_link::proofs::Worlds::told_some))]
pub fn take_piece<E: Edge>(edge: &mut E, ch: Channel, buffer: &mut [u8]) -> Option<usize>
    requires ready { (E.channels edge.old).ready ≡ Some ch.0 }
    requires room { length buffer.old ≡ LONGEST_PIECE }
    ensures room { length buffer.new ≡ LONGEST_PIECE }
    ensures bound { IfSome result (λ count. count ≤ length buffer.new) }
    ensures told { ToldBoth E.told E.heard (Adds [] (Took ch (got_in buffer.new result) ∷ [])) edge.old edge.new }
    ensures alone { StillTold E.told edge.old edge.new }
    ensures later { Later (E.faults edge.old) (E.faults edge.new) }
    ensures kept { Stays E.extent edge.old edge.new }
{
    match edge.take(ch, buffer) {
        Ok(count) => Some(count),
        Err(_) => None,
    }
}

/// `size` zeros.
pub fn zeros(alloc: Global, size: usize) -> Result<Vec<u8>, AllocError>
    ensures { IfOk result (λ bytes. length bytes.items ≡ size) }
{
    let bytes = vec![in alloc; 0; size]?;
    Ok(bytes)
}
