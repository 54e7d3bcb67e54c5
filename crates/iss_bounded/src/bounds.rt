//! The bounds of a state's sums, and their numbers.
ghost use Rattle.std.specs.Prelude.{List};
ghost use Rattle.iss_model.specs.declared.input.Record.{Record};
ghost use Rattle.iss_model.specs.rules.Histories.{IsLegal, history_of};
ghost use Rattle.iss_states.specs.OverBook.{state_of};
ghost use Rattle.iss_states.specs.Showing.{no_state};
ghost use Rattle.iss_rebuilt.specs.Sums.{AreRecords};
ghost use Rattle.iss_well_formed.specs.Keeping.{IsKeptBySteps};
ghost use Rattle.iss_bounded.specs.Bounds.{AreBounded};
ghost use Rattle.iss_bounded.specs.Many.{AreFewEnough};

/// The sums of the empty state are within its records. A record that is new on a well-formed state leaves them so if they were: so it is of every
/// such state, whether or not it is that of a history. So are the sums of legal records in form, told over their whole book.
#[tactic(auto, using(crate::proofs::SoundBounds::nothing_within))]
pub fn bounds_stay()
    ensures begins { AreBounded no_state }
    ensures steps { IsKeptBySteps AreBounded }
    ensures records { (rs : List Record) → IsLegal rs → AreRecords rs → AreBounded (state_of (history_of rs)) }
{}

/// The empty state has no more sums, counters and users' accounts than its records allow. A record that is new on a well-formed state leaves no
/// more if there were no more. So it is of the state of legal records, told over their whole book.
#[tactic(auto, using(crate::proofs::SoundNumbers::nothing_many))]
pub fn numbers_stay()
    ensures begins { AreFewEnough no_state }
    ensures steps { IsKeptBySteps AreFewEnough }
    ensures records { (rs : List Record) → IsLegal rs → AreFewEnough (state_of (history_of rs)) }
{}
