//! The verdicts and marks of a state's events.
ghost use Rattle.std.specs.Prelude.{List};
ghost use Rattle.iss_model.specs.declared.input.Record.{Record};
ghost use Rattle.iss_model.specs.rules.Histories.{IsLegal, history_of};
ghost use Rattle.iss_states.specs.OverBook.{state_of};
ghost use Rattle.iss_states.specs.Showing.{no_state};
ghost use Rattle.iss_well_formed.specs.Keeping.{IsKeptBySteps};
ghost use Rattle.iss_decided.specs.Verdicts.{HaveSoundVerdicts};

/// The verdicts of the empty state are sound. A record that is new on a well-formed state leaves its verdicts sound if they were so. That is
/// so of every such state, whether or not it is that of a history. The verdicts of legal records, told over their whole book, are sound too.
#[tactic(auto, using(crate::proofs::SoundVerdicts::nothing_decided))]
pub fn verdicts_stay_sound()
    ensures begins { HaveSoundVerdicts no_state }
    ensures steps { IsKeptBySteps HaveSoundVerdicts }
    ensures records { (rs : List Record) → IsLegal rs → HaveSoundVerdicts (state_of (history_of rs)) }
{}
