//! What the sums of a state name.
ghost use Rattle.std.specs.Prelude.{◌≤◌, List, length};
ghost use Rattle.iss_model.specs.declared.input.Record.{Record};
ghost use Rattle.iss_model.specs.declared.limits.TheConstants.{MOST_RECORDS};
ghost use Rattle.iss_model.specs.declared.state.State.{State};
ghost use Rattle.iss_model.specs.rules.Histories.{IsLegal};
ghost use Rattle.iss_states.specs.Showing.{no_state};
ghost use Rattle.iss_rebuilt.specs.Sums.{AreRecords};
ghost use Rattle.iss_well_formed.specs.Keeping.{IsKeptBySteps};
ghost use Rattle.iss_well_formed.specs.WellFormed.{IsWellFormed};
ghost use Rattle.iss_named.specs.Again.{IsShownAgain};
ghost use Rattle.iss_named.specs.Kept.{AreNamesKnown, HaveNamesKnown};

/// The empty state names only what is known. If a well-formed state does, a record that is new on it leaves a state that does too, whether or not
/// the state is that of a history. So does the state of legal records, told over their whole book, if they are in form and no more than
/// there may be.
#[tactic(auto, using(crate::proofs::KeptSteps::nothing_known))]
pub fn names_stay_known()
    ensures begins { AreNamesKnown no_state }
    ensures steps { IsKeptBySteps AreNamesKnown }
    ensures records { (rs : List Record) → IsLegal rs → AreRecords rs → length rs ≤ MOST_RECORDS → HaveNamesKnown rs }
{}

/// A core that is made again from a well-formed state which names only what is known shows just that state.
pub fn states_are_shown_again()
    ensures { (s : State) → IsWellFormed s → AreNamesKnown s → IsShownAgain s }
{}
