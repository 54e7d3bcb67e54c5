//! The state of a history, over its book.
ghost use Rattle.std.specs.Prelude.{◌≡◌, List, true};
ghost use Rattle.iss_model.specs.declared.input.Record.{Record};
ghost use Rattle.iss_model.specs.rules.Histories.{history_of};
ghost use Rattle.iss_model.specs.state.Cores.{CoreState, core_of};
ghost use Rattle.iss_agreement.specs.Likeness.{AreAlike};
ghost use Rattle.iss_agreement.specs.Stepped.{book_rows};
ghost use Rattle.iss_states.specs.OverBook.{has_named_accounts, state_of};
ghost use Rattle.iss_states.specs.Rebuilding.{HasBalancesAgain};
ghost use Rattle.iss_states.specs.Showing.{shown};

/// What a core shows is the state of its history, told over the whole book: each list by filters, each sum over all rows. Cores that are
/// alike show the same state. A core that is made again from what is shown has the same balances, if the users of accounts have tokens
/// for names.
#[tactic(auto, using(crate::proofs::StateOfBook::state_shown, crate::proofs::AlikeShown::shown_alike, crate::proofs::StateOfBook::balances_again))]
pub fn states_are_of_their_books()
    ensures book { (rs : List Record) → shown (core_of rs) ≡ state_of (history_of rs) }
    ensures alike { (c d : CoreState) → AreAlike c d → shown c ≡ shown d }
    ensures balances { (rs : List Record) → has_named_accounts (book_rows rs) ≡ true → HasBalancesAgain (core_of rs) }
{}
