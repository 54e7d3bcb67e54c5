//! How transactions are found by their tokens.
ghost use Rattle.std.specs.Prelude.{◌≡◌, ℕ, true, false, List, Some, None, IsSome};
ghost use Rattle.iss_model.specs.declared.txn.Txn.{Txn};
ghost use Rattle.iss_model.specs.rules.Activity.{txn_named};
ghost use Rattle.iss_model.specs.state.Cores.{CoreState};
ghost use Rattle.iss_state.specs.Needs.{Stands};
ghost use Rattle.iss_state.specs.Begun.{begun_txn, has_begun, has_origin, have_begun_before};

/// A token is found exactly if it is named, and what stands is what is found by its token.
/// A transaction of a later record than all that began has another origin than each of them.
pub fn transactions_are_found_by_name()
    ensures named { (s : CoreState) (token : List ℕ) → has_begun s token ≡ true → IsSome (txn_named token s.holdings.txns) }
    ensures unnamed { (s : CoreState) (token : List ℕ) → has_begun s token ≡ false → txn_named token s.holdings.txns ≡ None }
    ensures standing { (s : CoreState) (t : Txn) → Stands s t → begun_txn s t.token ≡ Some t }
    ensures later { (s : CoreState) (origin : ℕ) → have_begun_before s origin ≡ true → has_origin s origin ≡ false }
{}
