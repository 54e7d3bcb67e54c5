//! The balances of a state's accounts.
ghost use Rattle.std.specs.Prelude.{◌≡◌, ◌+ℤ◌, pos, List};
ghost use Rattle.iss_model.specs.declared.account.Account.TheVariants as account;
ghost use Rattle.iss_model.specs.declared.input.Record.{Record};
ghost use Rattle.iss_model.specs.declared.state.TxnSums.{TxnSums};
ghost use Rattle.iss_model.specs.declared.txn.Txn.{Txn};
ghost use Rattle.iss_model.specs.rules.Histories.{IsLegal, history_of};
ghost use Rattle.iss_states.specs.OverBook.{state_of};
ghost use Rattle.iss_states.specs.Showing.{no_state};
ghost use Rattle.iss_rebuilt.specs.Sums.{AreRecords};
ghost use Rattle.iss_well_formed.specs.Keeping.{IsKeptBySteps};
ghost use Rattle.iss_balanced.specs.Owed.{AreOwed, GivesNothing};

/// Each account of the empty state has the balance that it is owed. A record that is new on a well-formed state keeps it so, whether or not
/// the state is that of a history. So it is of the state of legal records in form, told over their whole book.
#[tactic(auto, using(crate::proofs::OwedStates::nothing_owed))]
pub fn balances_stay_owed()
    ensures begins { AreOwed no_state }
    ensures steps { IsKeptBySteps AreOwed }
    ensures records { (rs : List Record) → IsLegal rs → AreRecords rs → AreOwed (state_of (history_of rs)) }
{}

/// What a transaction gives to the three accounts of its currency and to its user's adds up to 0, whatever its sums. So the gateway's
/// balance is what makes the sum of all balances 0.
#[tactic(auto, using(crate::proofs::Shares::add_up))]
pub fn shares_add_up()
    ensures { (t : Txn) → (x : TxnSums) → GivesNothing t x }
{}
