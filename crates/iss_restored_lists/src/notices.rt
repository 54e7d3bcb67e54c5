//! Notices, made again.
ghost use Rattle.std.specs.Prelude.{◌≡◌, IfOk};
ghost use Rattle.iss_states.specs.Rebuilding.{rebuilt};
ghost use Rattle.iss_well_formed.specs.Notices.{AreToldWell};

use iss_model::State;
use iss_notice::Notices;
use std::alloc::{AllocError, Global};

/// The notices of a state, as a core has them that is made again from the state.
#[tactic(auto, using(crate::proofs::NoticesAgain::told_numbered))]
pub fn notices_again(alloc: Global, state: &State) -> Result<Notices, AllocError>
    requires told { AreToldWell state.now }
    ensures { IfOk result (λ notices. notices ≡ (rebuilt state.entry.now).outbox) }
{
    Notices::restore(alloc, state.made, &state.notices.0)
}
