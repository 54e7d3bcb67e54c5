//! The marks of a state's events.
ghost use Rattle.std.specs.Prelude.{List};
ghost use Rattle.iss_model.specs.declared.input.Record.{Record};
ghost use Rattle.iss_model.specs.declared.state.State.{State};
ghost use Rattle.iss_model.specs.rules.Histories.{IsLegal};
ghost use Rattle.iss_model.specs.state.Cores.{core_of};
ghost use Rattle.iss_states.specs.Rebuilding.{state_after};
ghost use Rattle.iss_states.specs.Showing.{shown};
ghost use Rattle.iss_well_formed.specs.Events.{AgreeOnTheirParts, AreMarkedWell, AreMarksOfAsks};
ghost use Rattle.iss_well_formed.specs.WellFormed.{IsWellFormed};

/// No call fails by the switch: a record leaves a state's marks as marks that may stand, whatever the state and the record.
#[tactic(auto, using(crate::proofs::MarkSteps::marked_after))]
pub fn marks_stay_sound()
    ensures { (s : State) → (r : Record) → AreMarkedWell s → AreMarkedWell (state_after s r) }
{}

/// A mark of a well-formed state stands on an authorisation or an increment.
pub fn marks_are_of_asks()
    ensures { (s : State) → IsWellFormed s → AreMarksOfAsks s }
{}

/// An event of legal records is approved for a part exactly if its mark says that its call was funded in this part. The part is less than
/// what was asked for.
#[tactic(auto, using(crate::proofs::ShownEvents::legal_parts_shown))]
pub fn parts_go_with_marks()
    ensures { (rs : List Record) → IsLegal rs → AgreeOnTheirParts (shown (core_of rs)).events }
{}
