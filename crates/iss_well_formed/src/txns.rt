//! The sums of a state's transactions.
ghost use Rattle.iss_model.specs.declared.input.Record.{Record};
ghost use Rattle.iss_model.specs.declared.state.State.{State};
ghost use Rattle.iss_states.specs.Rebuilding.{state_after};
ghost use Rattle.iss_well_formed.specs.Txns.{AreFair};

/// A record leaves a state's transactions with no more refunded than was cleared, and with no more of the programme's than it has paid,
/// whatever the state and the record.
pub fn transactions_stay_fair()
    ensures { (s : State) → (r : Record) → AreFair s → AreFair (state_after s r) }
{}
