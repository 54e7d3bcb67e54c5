//! What the sums of a state's transactions owe to what was approved for them, and to who pays them.
ghost use Rattle.std.specs.Prelude.{List};
ghost use Rattle.iss_model.specs.declared.input.Record.{Record};
ghost use Rattle.iss_model.specs.rules.Histories.{IsLegal, history_of};
ghost use Rattle.iss_states.specs.OverBook.{state_of};
ghost use Rattle.iss_states.specs.Showing.{no_state};
ghost use Rattle.iss_well_formed.specs.Keeping.{IsKeptBySteps};
ghost use Rattle.iss_decided.specs.Approved.{OwnAreUnpaid, AreApproved};

/// The programme pays nothing for a transaction that its user's own balance pays. So it is in the empty state, after each new record on
/// any well-formed state, and after all legal records.
pub fn own_purchases_stay_unpaid()
    ensures begins { OwnAreUnpaid no_state }
    ensures steps { IsKeptBySteps OwnAreUnpaid }
    ensures records { (rs : List Record) → IsLegal rs → OwnAreUnpaid (state_of (history_of rs)) }
{}

/// What a transaction holds of all parts together is at most what its authorisation and its increments were approved for. What the programme
/// has paid for it is at most that and what was cleared.
pub fn sums_stay_within_approved()
    ensures begins { AreApproved no_state }
    ensures steps { IsKeptBySteps AreApproved }
    ensures records { (rs : List Record) → IsLegal rs → AreApproved (state_of (history_of rs)) }
{}
