//! Fair sums of transactions.
ghost use Rattle.iss_model.specs.declared.input.Record.{Record};
ghost use Rattle.iss_model.specs.state.Cores.{CoreState, no_core};
ghost use Rattle.iss_agreement.specs.Stepped.{core_after};
ghost use Rattle.iss_states.specs.Fairness.{IsFair};

/// What is refunded of a transaction is at most what was cleared of it, and the programme's part is at most what the programme has paid. A
/// step keeps it so on any state, with any record, legal or not.
#[tactic(auto, using(crate::proofs::FairSteps::nothing_fair, crate::proofs::FairSteps::step_fair))]
pub fn sums_stay_fair()
    ensures begins { IsFair no_core }
    ensures steps { (s : CoreState) → (r : Record) → IsFair s → IsFair (core_after s r) }
{}
