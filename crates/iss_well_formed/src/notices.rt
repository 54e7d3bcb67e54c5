//! The notices of a state.
ghost use Rattle.iss_model.specs.declared.input.Record.{Record};
ghost use Rattle.iss_model.specs.declared.state.State.{State};
ghost use Rattle.iss_states.specs.Rebuilding.{state_after};
ghost use Rattle.iss_well_formed.specs.Notices.{AreToldWell};

/// A record leaves a state's notices numbered as they were made, each with a method of its own, and with a call named by a void alone. So
/// it is whatever the state and the record.
pub fn notices_stay_told_well()
    ensures { (s : State) → (r : Record) → AreToldWell s → AreToldWell (state_after s r) }
{}
