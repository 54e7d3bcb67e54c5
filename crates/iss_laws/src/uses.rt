//! No control has counted less than nothing.
ghost use Rattle.std.specs.Prelude.{◌≡◌, true, List};
ghost use Rattle.iss_model.specs.declared.input.Record.{Record};
ghost use Rattle.iss_model.specs.rules.Histories.{history_of, IsLegal};
ghost use Rattle.iss_laws.specs.Uses.{use_is_not_negative};

/// On the book of every legal list of records no control has counted less than nothing of a user at the book's time. A
/// control by transaction hasn't of any transaction.
#[tactic(auto, using(crate::proofs::UsesWell::law_used))]
pub fn uses_are_well()
    ensures { (rs : List Record) → IsLegal rs → use_is_not_negative (history_of rs) ≡ true }
{}
