//! What notices give back.
ghost use Rattle.std.specs.Prelude.{List};
ghost use Rattle.iss_model.specs.declared.input.Record.{Record};
ghost use Rattle.iss_model.specs.declared.state.State.{State};
ghost use Rattle.iss_model.specs.rules.Histories.{IsLegal, history_of};
ghost use Rattle.iss_states.specs.OverBook.{state_of};
ghost use Rattle.iss_states.specs.Rebuilding.{state_after};
ghost use Rattle.iss_states.specs.Showing.{no_state};
ghost use Rattle.iss_noticed.specs.GivenBack.{GiveBackWithin};

/// The empty state has no notices. A record leaves notices that give back at most their amounts, save in a capture, whatever the state and
/// the record. The notices of legal records, told over their whole book, do so.
pub fn notices_give_back_within()
    ensures begins { GiveBackWithin no_state }
    ensures steps { (s : State) → (r : Record) → GiveBackWithin s → GiveBackWithin (state_after s r) }
    ensures records { (rs : List Record) → IsLegal rs → GiveBackWithin (state_of (history_of rs)) }
{}
