//! Counters of single transactions.
ghost use Rattle.std.specs.Prelude.{List};
ghost use Rattle.iss_model.specs.declared.entry.Entry.{Entry};
ghost use Rattle.iss_model.specs.state.Cores.{CoreState, after_entry, no_core};
ghost use Rattle.iss_state.specs.Needs.{Fits};
ghost use Rattle.iss_states.specs.Counted.{CountsTxns};

/// Each counter of a control of single transactions is of a transaction that stands. An entry that fits the state keeps it so.
#[tactic(auto, using(crate::proofs::CountedTxns::nothing_counted, crate::proofs::CountedTxns::counted_after))]
pub fn counters_are_of_transactions()
    ensures begins { CountsTxns no_core }
    ensures enters { (s : CoreState) → (e : Entry) → Fits s e → CountsTxns s → CountsTxns (after_entry s e) }
{}
