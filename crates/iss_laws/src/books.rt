//! The laws on worked books: the checker computes each.
ghost use Rattle.iss_laws.specs.Books.{HoldsOfBooks, DecidesInBooks};
ghost use Rattle.iss_laws.specs.Approvals.{approved_rightly, partly_approved_rightly};
ghost use Rattle.iss_model.specs.declared.currency.Currency.TheVariants.{Usd};

/// Each law holds of the books of the worked scripts.
#[tactic(auto, unfolding(iss_model::specs::rules::Stepping::step, iss_model::specs::rules::Judging::judge, iss_model::specs::run::Sayings::reaction))]
pub fn laws_of_worked_books()
    ensures decisions { DecidesInBooks }
    ensures approvals { HoldsOfBooks approved_rightly }
    ensures parts { HoldsOfBooks (partly_approved_rightly Usd 4000) }
{}
