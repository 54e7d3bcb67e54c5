//! What becomes of calls by what is due, and so how an answer to a call is judged.
ghost use Rattle.std.specs.Prelude.{◌≡◌, ℕ, false, Some, None};
ghost use Rattle.iss_model.specs.declared.call.CallId.{CallId};
ghost use Rattle.iss_model.specs.declared.call.How.{How};
ghost use Rattle.iss_model.specs.declared.input.Outcome.{Outcome};
ghost use Rattle.iss_model.specs.rules.Activity.{CallNow, TxnNow, is_asked};
ghost use Rattle.iss_model.specs.state.Cores.{CoreState};
ghost use Rattle.iss_state.specs.After.{after_all_due};
ghost use Rattle.iss_state.specs.Asked.{EndsOnTime, IfAskedOf, IsNewInTime, IsStill, LateIsTold, StaysInTime, UnknownIsTold, call_at, opened_calls};

/// All that is due at a moment opens no call, and leaves closed calls as they are. It closes an asked call exactly if
/// the call's deadline or its transaction's expiry has come; else that call stays as it is.
pub fn due_items_close_calls()
    ensures opened { (s : CoreState) (at : ℕ) → opened_calls (after_all_due s at) ≡ opened_calls s }
    ensures unknown { (s : CoreState) (at n : ℕ) → call_at s n ≡ None → call_at (after_all_due s at) n ≡ None }
    ensures closed { (s : CoreState) (at n : ℕ) (c : CallNow) → call_at s n ≡ Some c → is_asked c ≡ false → IsStill s at n c }
    ensures asked { (s : CoreState) (at n : ℕ) (c : CallNow) (t : TxnNow) → IfAskedOf s n c t (EndsOnTime s at n c t) }
    ensures left { (s : CoreState) (at n : ℕ) (c : CallNow) (t : TxnNow)
        → IfAskedOf s n c t (StaysInTime s at n c t) }
{}

/// An answer is judged by its call and that call's transaction as they stand before anything due. If the call was never
/// opened, or is closed, the answer is told so. To an asked call it is new until the call's deadline and its
/// transaction's expiry.
pub fn answers_are_judged()
    ensures unknown { (s : CoreState) (call : CallId) (what : Outcome) (at : ℕ) → UnknownIsTold s call what at }
    ensures late { (s : CoreState) (call : CallId) (what : Outcome) (at : ℕ) (c : CallNow) (how : How)
        → LateIsTold s call what at c how }
    ensures asked { (s : CoreState) (call : CallId) (what : Outcome) (at : ℕ) (c : CallNow) (t : TxnNow)
        → IfAskedOf s call.0 c t (IsNewInTime s call what at c t) }
{}
