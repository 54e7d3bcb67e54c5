//! Whom notices name.
ghost use Rattle.std.specs.Prelude.{List};
ghost use Rattle.iss_model.specs.declared.input.Record.{Record};
ghost use Rattle.iss_model.specs.rules.Histories.{IsLegal, history_of};
ghost use Rattle.iss_states.specs.OverBook.{state_of};
ghost use Rattle.iss_states.specs.Showing.{no_state};
ghost use Rattle.iss_well_formed.specs.Keeping.{IsKeptBySteps};
ghost use Rattle.iss_noticed.specs.Addressed.{AreAddressed};

/// The empty state has no notices. A record that is new on a well-formed state leaves its notices addressed, if they were: so it is of every such
/// state, whether or not it is that of a history. The notices of legal records, told over their whole book, are addressed.
pub fn notices_stay_addressed()
    ensures begins { AreAddressed no_state }
    ensures steps { IsKeptBySteps AreAddressed }
    ensures records { (rs : List Record) → IsLegal rs → AreAddressed (state_of (history_of rs)) }
{}
