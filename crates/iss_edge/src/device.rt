//! Work on the device whose moments can be told, and the laws of stretches.

ghost use Rattle.std.specs.Prelude.{ℕ, ◌+◌, ◌≤◌, List, length, OnOk, OnErr};
ghost use Rattle.iss_edge.specs.World.{Told, HasCause, Stays};
ghost use Rattle.iss_edge.specs.Calls.{HearsNothing};
ghost use Rattle.iss_edge.specs.Puts.{one_put, Puts, PutsPart};
ghost use Rattle.iss_edge.specs.Stretches.{StretchesJoin, StretchesGoOn};

use crate::{Edge, Failed};

/// Writes the bytes to the device from this place on and makes them last. Until it succeeds a stop may leave anything there.
#[tactic(auto, using(crate::proofs::ToldPuts::put_is_made, crate::proofs::ToldPuts::put_is_unwritten, crate::proofs::ToldPuts::put_is_unsynced))]
pub fn put<E: Edge>(edge: &mut E, at: u64, bytes: &[u8]) -> Result<(), Failed>
    requires { at + length bytes.now ≤ E.extent edge.old }
    ensures done { OnOk result (Told (Puts (one_put at bytes.now)) (E.told edge.old) (E.told edge.new)) }
    ensures part { OnErr result (Told (PutsPart (one_put at bytes.now)) (E.told edge.old) (E.told edge.new)) }
    ensures cause { HasCause (λ f. f.disk) (E.faults edge.old) (E.faults edge.new) result }
    ensures heard { Told HearsNothing (E.heard edge.old) (E.heard edge.new) }
    ensures kept { Stays E.extent edge.old edge.new }
    ensures channels { Stays E.channels edge.old edge.new }
{
    edge.write_at(at, bytes)?;
    edge.sync()
}

/// What a device shows of a number of records: at the start of a stretch, at each stop within it, and at its end. There
/// are two stretches, and the second starts where the first ends.
pub trait Showing {
    ghost starts: { List ℕ → ℕ → Type 0 };

    ghost stands: { List ℕ → ℕ → Type 0 };

    ghost mids: { List ℕ → ℕ → Type 0 };

    ghost ends: { List ℕ → ℕ → Type 0 };
}

/// Two stretches that follow each other make one.
pub fn stretches_join<S: Showing>()
    ensures good { StretchesJoin S.starts S.stands S.mids }
    ensures goes_on { StretchesGoOn S.starts S.stands S.mids S.ends }
{}
