//! What a core shows.
ghost use Rattle.std.specs.Prelude.{◌≡◌, ℕ, ℤ, true, List, Some, length, map};
ghost use Rattle.std.specs.FinMap as finite;
ghost use Rattle.iss_model.specs.declared.account.Account.{Account};
ghost use Rattle.iss_model.specs.Sums.{account_key};
ghost use Rattle.iss_model.specs.rules.Activity.{CallNow, TxnNow, call_numbered};
ghost use Rattle.iss_model.specs.rules.Controls.{counter_key};
ghost use Rattle.iss_model.specs.state.Cores.{ControlKept, CoreState, no_core};
ghost use Rattle.iss_model.specs.state.Kept.{Kept};
ghost use Rattle.iss_state.specs.Pending.{IsWell};
ghost use Rattle.iss_state.specs.Sound.{is_accepted};
ghost use Rattle.iss_state.specs.Stakes.{txn_tokens};
ghost use Rattle.iss_states.specs.Keys.{account_of_key, after_token, first_token, has_no_zero, int_of_key, is_named_by_token};
ghost use Rattle.iss_states.specs.Rebuilding.{rebuilt};
ghost use Rattle.iss_states.specs.Showing.{IsMarked, IsPendingIfAsked, accepted_of_seen, counters_of, no_state, shown};

/// A core without a record shows nothing.
#[tactic(auto, using(crate::proofs::Nothing::nothing_shown))]
pub fn a_state_without_a_record()
    ensures { shown no_core ≡ no_state }
{}

/// A core shows each event that it accepted and each transaction that began, in their order, and a counter of a control for each span in
/// which something was counted. A core that is made again from that has the same events. If the core is well, the mark of an event is how
/// its call stands, and an accepted event isn't decided exactly if its call is asked.
#[tactic(auto, using(crate::proofs::Shown::events_shown, crate::proofs::Rebuilt::events_rebuilt, crate::proofs::Shown::txns_shown, crate::proofs::Shown::counters_shown, crate::proofs::Marks::call_mark, crate::proofs::Marks::pending_asked))]
pub fn states_show_their_cores()
    ensures events { (c : CoreState) → map accepted_of_seen (shown c).events ≡ c.accepted }
    ensures again { (c : CoreState) → (rebuilt (shown c)).accepted ≡ c.accepted }
    ensures transactions { (c : CoreState) → map (λ t. t.txn) (shown c).txns ≡ txn_tokens c.holdings.txns }
    ensures counters { (txns : List TxnNow) → (k : ControlKept) → length (counters_of txns k) ≡ finite.len k.amounts }
    ensures marks { (c : CoreState) → (n : ℕ) → (x : CallNow) → IsWell c → call_numbered n c.calls ≡ Some x → IsMarked c x }
    ensures pending { (c : CoreState) → (event : List ℕ) → IsWell c → is_accepted c.accepted event ≡ true → IsPendingIfAsked c event }
{}

/// The key of an account is read again if its user's name is a token. So is the key of a counter: its user, and its number. Kept sums are
/// made again from their keys, each with its sum.
#[tactic(auto, using(crate::proofs::Keys::account_again, crate::proofs::Keys::user_again, crate::proofs::Keys::number_again, crate::proofs::Rebuilt::kept_again))]
pub fn keys_are_read_again()
    ensures account { (a : Account) → is_named_by_token a ≡ true → account_of_key (account_key a) ≡ a }
    ensures user { (user : List ℕ) → (n : ℤ) → has_no_zero user ≡ true → first_token (counter_key user n) ≡ user }
    ensures number { (user : List ℕ) → (n : ℤ) → has_no_zero user ≡ true → int_of_key (after_token (counter_key user n)) ≡ n }
    ensures sums { (sums : Kept) → finite.from_entries (finite.entries sums) ≡ sums }
{}
