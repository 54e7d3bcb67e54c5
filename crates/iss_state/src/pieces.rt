//! What acts cost, and the pieces that they are made of.
ghost use Rattle.std.specs.Prelude.{ℕ};
ghost use Rattle.iss_model.specs.declared.account.Account.{Account};
ghost use Rattle.iss_model.specs.declared.account.Part.{Part};
ghost use Rattle.iss_model.specs.declared.call.Opened.{Opened};
ghost use Rattle.iss_model.specs.declared.decision.Reason.{Reason};
ghost use Rattle.iss_model.specs.declared.setting.Set.{Set};
ghost use Rattle.iss_model.specs.declared.txn.Txn.{Txn};
ghost use Rattle.iss_model.specs.rules.Facts.{Facts};
ghost use Rattle.iss_model.specs.rules.Asks.{Ask};
ghost use Rattle.iss_model.specs.rules.Pieces.{Parts};
ghost use Rattle.iss_model.specs.state.Cores.{CoreState};
ghost use Rattle.iss_state.specs.Effects.{IfHolds, IfStands};
ghost use Rattle.iss_state.specs.Payments.{AbandonmentIsPaid, DeclineIsPaid, EndIsPaid, FundingIsPaid, PartIsPaid, ReleaseIsPaid, StandInIsPaid};

/// A release is paid by what it lets go, and an abandonment by what its calls ask, so an end costs nothing. An ask that
/// is decided costs at most four times what was asked in money and twice in use, whoever decides it. A part that is
/// funded costs four times the part in money.
#[tactic(auto, using(crate::proofs::effects::Asks::end_paid, crate::proofs::effects::Asks::declined_ask_paid, crate::proofs::effects::Asks::funded_ask_paid, crate::proofs::effects::Asks::part_funded_paid, crate::proofs::effects::Asks::set_stand_in_paid))]
pub fn pieces_are_paid()
    ensures release { (s : CoreState) (t : Txn) (parts : Parts) (amount : ℕ)
        → IfHolds s t parts (ReleaseIsPaid s t parts amount) }
    ensures abandonment { (s : CoreState) (number : ℕ) (f : Facts) (t : Txn) (why : Reason) (parts : Parts)
        → IfStands s t (AbandonmentIsPaid s number f t why parts) }
    ensures end { (s : CoreState) (number : ℕ) (f : Facts) (t : Txn) (parts : Parts) (why : Reason)
        → IfHolds s t parts (EndIsPaid s number f t parts why) }
    ensures declined { (s : CoreState) (ask : Ask) (why : Reason)
        → IfStands s ask.txn (DeclineIsPaid s ask why) }
    ensures funded { (s : CoreState) (ask : Ask) (from : Account) (p : Part)
        → IfStands s ask.txn (FundingIsPaid s ask from p) }
    ensures part_funded { (s : CoreState) (o : Opened) (t : Txn) (amount : ℕ)
        → IfStands s t (PartIsPaid s o t amount) }
    ensures stood_in { (s : CoreState) (number : ℕ) (ask : Ask) (at : ℕ) (set : Set)
        → IfStands s ask.txn (StandInIsPaid s number ask at set) }
{}
