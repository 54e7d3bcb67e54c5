//! What single entries do.
ghost use Rattle.std.specs.Prelude.{ℕ, List, [], ◌∷◌};
ghost use Rattle.iss_model.specs.declared.account.Part.{Part};
ghost use Rattle.iss_model.specs.declared.call.CallId.{CallId};
ghost use Rattle.iss_model.specs.declared.call.How.{How};
ghost use Rattle.iss_model.specs.declared.call.Opened.{Opened};
ghost use Rattle.iss_model.specs.declared.txn.Txn.{Txn};
ghost use Rattle.iss_model.specs.declared.entry.Entry.{Entry};
ghost use Rattle.iss_model.specs.declared.entry.Entry.TheVariants as entry;
ghost use Rattle.iss_model.specs.rules.Activity.{CallNow};
ghost use Rattle.iss_model.specs.state.Cores.{CoreState};
ghost use Rattle.iss_state.specs.Bounds.{AreWithinAfter, IsWithinAfter, SumsAreWithin};
ghost use Rattle.iss_state.specs.Stakes.{IsOrderlyState};
ghost use Rattle.iss_state.specs.Effects.{Effect, IfStands};
ghost use Rattle.iss_state.specs.Payments.{ClosingIsPaid, LessIsPaid, MoreIsPaid, OpeningIsPaid};

/// An entry takes each sum of money at most as far as it moves money. It takes each sum of use at most as far as it moves
/// use. Entries one after the other take them as far as they move together.
pub fn entries_move_sums()
    ensures one { (money used : ℕ) (s : CoreState) (e : Entry) → SumsAreWithin money used s
        → IsWithinAfter money used s e }
    ensures all { (money used : ℕ) (s : CoreState) (es : List Entry) → SumsAreWithin money used s
        → AreWithinAfter money used s es }
{}

/// A hold of more and an opening put what they hold or ask at stake. A hold of less and a closing take it from there. An
/// end leaves it as it is.
#[tactic(auto, using(crate::proofs::effects::Effects::open_effect, crate::proofs::effects::Effects::close_effect))]
pub fn entries_move_what_is_at_stake()
    ensures more_held { (s : CoreState) (t : Txn) (p : Part) (amount : ℕ) → IfStands s t (MoreIsPaid s t p amount) }
    ensures less_held { (s : CoreState) (t : Txn) (p : Part) (amount : ℕ) → IfStands s t (LessIsPaid s t p amount) }
    ensures opened { (s : CoreState) (o : Opened) → IsOrderlyState s → OpeningIsPaid s o }
    ensures closed { (s : CoreState) (call : CallId) (how : How) (c : CallNow) → IsOrderlyState s → ClosingIsPaid s call how c }
    ensures ended { (s : CoreState) (t : Txn) → IfStands s t (Effect s (entry.Ended t.token ∷ []) 0 0 0 0) }
{}
