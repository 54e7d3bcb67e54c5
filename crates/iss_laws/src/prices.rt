//! What asks, and what follows them, cost beyond what was at stake.
ghost use Rattle.std.specs.Prelude.{ℕ, Bool, List, Option};
ghost use Rattle.iss_model.specs.declared.call.Failure.{Failure};
ghost use Rattle.iss_model.specs.rules.Activity.{TxnNow};
ghost use Rattle.iss_model.specs.rules.Asks.{Ask};
ghost use Rattle.iss_model.specs.rules.CardActs.{stand_acts};
ghost use Rattle.iss_model.specs.rules.Facts.{Facts};
ghost use Rattle.iss_model.specs.rules.StandIns.{Stand};
ghost use Rattle.iss_model.specs.state.Cores.{CoreState};
ghost use Rattle.iss_state.specs.Effects.{IfStands};
ghost use Rattle.iss_laws.specs.Prices.{ArePaidByAsk, AskIsPaid, ClearingIsPaid, IfKnownStands, RefundIsPaid, ReversalIsPaid};

/// An ask costs four times its amount in money and in use, on any facts that know how many calls there are. Standing in
/// is paid by what was asked, whatever the sets decide.
#[tactic(auto, using(crate::proofs::PricesOfActs::asking_paid, crate::proofs::PricesOfActs::stand_paid))]
pub fn asks_are_paid()
    ensures ask { (s : CoreState) (f : Facts) (ask : Ask) → IfStands s ask.txn (AskIsPaid s f ask) }
    ensures stood_in { (s : CoreState) (x : Stand) (number : ℕ) (ask : Ask) (why : Failure) (at : ℕ)
        → IfStands s ask.txn (ArePaidByAsk ask s (stand_acts x number ask why at)) }
{}

/// A reversal of any transaction that stands costs nothing beyond what was at stake. A clearing costs twice its amount
/// and once in use, and a refund twice its amount.
#[tactic(auto, using(crate::proofs::PricesOfActs::reversal_paid, crate::proofs::PricesOfActs::clearing_paid, crate::proofs::PricesOfActs::refund_paid))]
pub fn operations_are_paid()
    ensures reversal { (s : CoreState) (token : List ℕ) (amount : ℕ) (o : Option TxnNow)
        → IfKnownStands s o (ReversalIsPaid s token amount o) }
    ensures clearing { (s : CoreState) (token : List ℕ) (amount : ℕ) (last : Bool) (at : ℕ) (o : Option TxnNow)
        → IfKnownStands s o (ClearingIsPaid s token amount last at o) }
    ensures refund { (s : CoreState) (f : Facts) (token : List ℕ) (amount : ℕ) (o : Option TxnNow)
        → IfKnownStands s o (RefundIsPaid s f token amount o) }
{}
