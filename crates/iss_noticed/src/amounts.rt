//! The amounts of notices.
ghost use Rattle.std.specs.Prelude.{List};
ghost use Rattle.iss_model.specs.declared.input.Record.{Record};
ghost use Rattle.iss_model.specs.rules.Histories.{IsLegal, history_of};
ghost use Rattle.iss_state.specs.Sound.{AreInForm};
ghost use Rattle.iss_states.specs.OverBook.{state_of};
ghost use Rattle.iss_states.specs.Showing.{no_state};
ghost use Rattle.iss_well_formed.specs.Keeping.{IsKeptBySteps};
ghost use Rattle.iss_noticed.specs.Commitments.{AmountsFit};

/// In the empty state nothing is held, asked or told. A record that is new on a well-formed state leaves what transactions hold, calls ask and
/// notices tell within the greatest amount for each record, if it was. So it is of legal records in form, told over their whole book.
pub fn amounts_stay_within()
    ensures begins { AmountsFit no_state }
    ensures steps { IsKeptBySteps AmountsFit }
    ensures records { (rs : List Record) → IsLegal rs → AreInForm rs → AmountsFit (state_of (history_of rs)) }
{}
