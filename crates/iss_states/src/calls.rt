//! Calls and transactions are made again from their events.
ghost use Rattle.std.specs.Prelude.{List};
ghost use Rattle.iss_model.specs.declared.input.Record.{Record};
ghost use Rattle.iss_model.specs.rules.Histories.{IsLegal};
ghost use Rattle.iss_model.specs.state.Cores.{core_of};
ghost use Rattle.iss_states.specs.Again.{AreCallsAgain, AreTxnsAgain};
ghost use Rattle.iss_states.specs.Parts.{PartsAgree};

/// Each call of legal records is as its event, its transaction and its product make it, each found by its name: its method, its amount,
/// whether it permits a part, its stamp and its deadline too. A call was closed as funded in part exactly if its event was approved for
/// that part.
#[tactic(auto, using(crate::proofs::AgainSteps::legal_calls, crate::proofs::PartSteps::legal_parts))]
pub fn calls_are_made_again()
    ensures calls { (rs : List Record) → IsLegal rs → AreCallsAgain (core_of rs) }
    ensures parts { (rs : List Record) → IsLegal rs → PartsAgree (core_of rs) }
{}

/// Each transaction of legal records is as its event, its card and its product make it, each found by its name: its user, its funding, the
/// number of its record and its expiry too.
#[tactic(auto, using(crate::proofs::AgainSteps::legal_txns))]
pub fn transactions_are_made_again()
    ensures { (rs : List Record) → IsLegal rs → AreTxnsAgain (core_of rs) }
{}
