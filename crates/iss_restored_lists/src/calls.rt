//! Calls, made again.
ghost use Rattle.std.specs.Prelude.{◌≡◌, ◌+◌, ◌++◌, ◌∷◌, [], length, IfOk, OnOk};
ghost use Rattle.iss_call.specs.Orders.{AreNumbered};
ghost use Rattle.iss_states.specs.Rebuilding.{rebuilt};
ghost use Rattle.iss_known.specs.Known.{IsKnownOf};

use iss_call::Calls;
use iss_known::{CallKnown, Known};
use iss_model::State;
use std::alloc::{AllocError, Global};

/// The calls of a state, as a core has them that is made again from the state. It takes what is known of the state's events.
#[tactic(auto, using(crate::proofs::CallsAgain::known_numbered))]
pub fn calls_again(alloc: Global, state: &State, known: &Known) -> Result<Calls, AllocError>
    requires known { IsKnownOf known.now (rebuilt state.now) }
    ensures { IfOk result (λ calls. calls ≡ (rebuilt state.entry.now).calls) }
{
    // Only the clauses speak of the state.
    let _state = state;
    ask_all(alloc, known.calls())
}

/// Calls that are numbered one after the other, from 1.
fn ask_all(alloc: Global, known: &[CallKnown]) -> Result<Calls, AllocError>
    requires { AreNumbered 1 known.now }
    ensures { IfOk result (λ calls. calls ≡ known.now) }
{
    let mut calls = Calls::new(alloc)?;
    for call in known {
        ask(call, &mut calls)?;
    }
    Ok(calls)
}

/// Asks a call of the next number, and closes it if it was closed.
fn ask(call: &CallKnown, calls: &mut Calls) -> Result<(), AllocError>
    requires next { call.now.opened.call.0 ≡ length calls.old + 1 }
    requires numbered { AreNumbered 1 calls.old }
    ensures { OnOk result (calls.new ≡ calls.old ++ call.now ∷ []) }
{
    calls.ask(&call.opened)?;
    let Some(how) = call.how else {
        return Ok(());
    };
    let _closed = calls.close(call.opened.call, how);
    Ok(())
}
