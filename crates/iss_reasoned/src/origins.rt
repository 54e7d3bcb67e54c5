//! What transactions and increments go back to.
ghost use Rattle.std.specs.Prelude.{List};
ghost use Rattle.iss_model.specs.declared.input.Record.{Record};
ghost use Rattle.iss_model.specs.rules.Histories.{IsLegal, history_of};
ghost use Rattle.iss_states.specs.OverBook.{state_of};
ghost use Rattle.iss_states.specs.Showing.{no_state};
ghost use Rattle.iss_well_formed.specs.Keeping.{IsKeptBySteps};
ghost use Rattle.iss_reasoned.specs.Origins.{ArePurchases, ComeInTurn};

/// Each transaction is the token of an authorisation with a known card, in the currency of the card's product. A record that is new on a
/// well-formed state keeps that, and it is so of the state of legal records.
pub fn origins_stay_sound()
    ensures begins { ArePurchases no_state }
    ensures steps { IsKeptBySteps ArePurchases }
    ensures records { (rs : List Record) → IsLegal rs → ArePurchases (state_of (history_of rs)) }
{}

/// An increment that is approved or has a mark comes after its transaction's authorisation, whose call isn't asked. A record that is new
/// on a sound state keeps that, and it is so of the state of legal records.
pub fn increments_stay_in_turn()
    ensures begins { ComeInTurn no_state }
    ensures steps { IsKeptBySteps ComeInTurn }
    ensures records { (rs : List Record) → IsLegal rs → ComeInTurn (state_of (history_of rs)) }
{}
