//! Sums, counters and decisions are made again from what is shown.
ghost use Rattle.std.specs.Prelude.{List};
ghost use Rattle.iss_model.specs.declared.input.Record.{Record};
ghost use Rattle.iss_model.specs.rules.Histories.{IsLegal};
ghost use Rattle.iss_model.specs.state.Cores.{CoreState, core_of};
ghost use Rattle.iss_states.specs.Rebuilding.{HasBalancesAgain};
ghost use Rattle.iss_rebuilt.specs.Sums.{AreDecidedAgain, AreRecords, HasControlsAgain, HasCountsAgain, HasStoodAgain};

/// A core that is made again from what is shown has the same time, the same number of records, and the same notices. If the records are
/// legal, it has decided the same events, each in the same way.
#[tactic(auto, using(crate::proofs::Counts::counts_again, crate::proofs::DecidedAgain::decisions_again))]
pub fn decisions_are_made_again()
    ensures counts { (c : CoreState) → HasCountsAgain c }
    ensures decisions { (rs : List Record) → IsLegal rs → AreDecidedAgain (core_of rs) }
{}

/// For legal records in form, a core that is made again from what is shown has the same balances. It has the same sets and the same sums
/// that the programme stood in with, and the same controls, each with what it has counted.
#[tactic(auto, using(crate::proofs::BalancesAgain::balances_rebuilt, crate::proofs::StoodAgain::stand_ins_rebuilt, crate::proofs::AlikeAgain::legal_controls))]
pub fn sums_are_made_again()
    ensures balances { (rs : List Record) → IsLegal rs → AreRecords rs → HasBalancesAgain (core_of rs) }
    ensures stand_ins { (rs : List Record) → IsLegal rs → AreRecords rs → HasStoodAgain (core_of rs) }
    ensures controls { (rs : List Record) → IsLegal rs → AreRecords rs → HasControlsAgain (core_of rs) }
{}
