//! The reasons of declined events.
ghost use Rattle.std.specs.Prelude.{List};
ghost use Rattle.iss_model.specs.declared.input.Record.{Record};
ghost use Rattle.iss_model.specs.rules.Histories.{IsLegal, history_of};
ghost use Rattle.iss_states.specs.OverBook.{state_of};
ghost use Rattle.iss_states.specs.Showing.{no_state};
ghost use Rattle.iss_well_formed.specs.Keeping.{IsKeptBySteps};
ghost use Rattle.iss_reasoned.specs.Reasons.{HaveReasons};

/// Only a move is declined as one, and a control or set that a reason names is known. A record that is new on a well-formed state keeps that, and
/// it is so of the state of legal records.
pub fn reasons_stay_known()
    ensures begins { HaveReasons no_state }
    ensures steps { IsKeptBySteps HaveReasons }
    ensures records { (rs : List Record) → IsLegal rs → HaveReasons (state_of (history_of rs)) }
{}
