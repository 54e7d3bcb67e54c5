//! Calls, transactions and their parts are made again.
ghost use Rattle.std.specs.Prelude.{List};
ghost use Rattle.iss_model.specs.declared.input.Record.{Record};
ghost use Rattle.iss_model.specs.rules.Histories.{IsLegal};
ghost use Rattle.iss_model.specs.state.Cores.{core_of};
ghost use Rattle.iss_state.specs.Sound.{AreInForm};
ghost use Rattle.iss_rebuilt.specs.Purchases.{HasCallsAgain, HasHeldAgain, HasPartsAgain, HasTxnSumsAgain, HasTxnsAgain};

/// A core that is made again from what legal records' core shows has its transactions and its calls: each with all that it began with, in
/// their order and with their numbers, and each transaction as live and each call as closed as it is.
#[tactic(auto, using(crate::proofs::MadeSteps::legal_txns_rebuilt, crate::proofs::MadeSteps::legal_calls_rebuilt))]
pub fn purchases_are_made_again()
    ensures transactions { (rs : List Record) → IsLegal rs → HasTxnsAgain (core_of rs) }
    ensures calls { (rs : List Record) → IsLegal rs → HasCallsAgain (core_of rs) }
{}

/// If the records are in form too, it has each part of what transactions hold, at its key, and what is held of each user in a currency. Each
/// transaction has its sums: what was cleared of it, what was refunded, and what the programme has paid.
pub fn holdings_are_made_again()
    ensures parts { (rs : List Record) → IsLegal rs → AreInForm rs → HasPartsAgain (core_of rs) }
    ensures held { (rs : List Record) → IsLegal rs → AreInForm rs → HasHeldAgain (core_of rs) }
    ensures sums { (rs : List Record) → IsLegal rs → AreInForm rs → HasTxnSumsAgain (core_of rs) }
{}
