//! Well-formed states.
ghost use Rattle.std.specs.Prelude.{◌≤◌, List, length};
ghost use Rattle.iss_model.specs.declared.input.Record.{Record};
ghost use Rattle.iss_model.specs.declared.limits.TheConstants.{MOST_RECORDS};
ghost use Rattle.iss_model.specs.declared.state.State.{State};
ghost use Rattle.iss_model.specs.rules.Histories.{IsLegal};
ghost use Rattle.iss_states.specs.Order.{IsNewOnState};
ghost use Rattle.iss_states.specs.Rebuilding.{state_after};
ghost use Rattle.iss_states.specs.Showing.{no_state};
ghost use Rattle.iss_rebuilt.specs.Sums.{AreRecords};
ghost use Rattle.iss_well_formed.specs.WellFormed.{HaveWellFormedState, IsWellFormed};

/// The empty state is well-formed. A record that is new on a well-formed state leaves a well-formed one: so it is of every such state, whether or not it is
/// that of a history. The state of legal records, told over their whole book, is well-formed if they are in form and no more than there may be.
#[tactic(auto, using(crate::proofs::FormedSteps::nothing_formed))]
pub fn states_stay_well_formed()
    ensures begins { IsWellFormed no_state }
    ensures steps { (s : State) → (r : Record) → IsWellFormed s → IsNewOnState s r → IsWellFormed (state_after s r) }
    ensures records { (rs : List Record) → IsLegal rs → AreRecords rs → length rs ≤ MOST_RECORDS → HaveWellFormedState rs }
{}
