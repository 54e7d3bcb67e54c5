//! The order of a state's events.
ghost use Rattle.iss_model.specs.declared.input.Record.{Record};
ghost use Rattle.iss_model.specs.declared.state.State.{State};
ghost use Rattle.iss_states.specs.Order.{AreInOrder, IsNewOnState};
ghost use Rattle.iss_states.specs.Rebuilding.{state_after};

/// A record that is new on a state, while records are left, keeps its events in order: numbers rise, stamps don't fall, and tokens are
/// their own. So it is of every state in order, whether or not it is that of a history.
#[tactic(auto, using(crate::proofs::EventOrder::order_after))]
pub fn states_stay_in_order()
    ensures { (s : State) → (r : Record) → AreInOrder s → IsNewOnState s r → AreInOrder (state_after s r) }
{}
