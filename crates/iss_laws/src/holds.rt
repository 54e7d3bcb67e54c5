//! What transactions hold is never negative, and is nothing once they end.
ghost use Rattle.std.specs.Prelude.{◌≡◌, true, List};
ghost use Rattle.iss_model.specs.declared.input.Record.{Record};
ghost use Rattle.iss_model.specs.rules.Histories.{history_of, IsLegal};
ghost use Rattle.iss_laws.specs.Holds.{parts_and_ends};

/// On the book of every legal list of records no part of what a transaction holds is negative. Each transaction ends at
/// most once, and one that has ended holds nothing.
#[tactic(auto, using(crate::proofs::HoldsWell::law_held))]
pub fn holds_are_well()
    ensures { (rs : List Record) → IsLegal rs → parts_and_ends (history_of rs) ≡ true }
{}
