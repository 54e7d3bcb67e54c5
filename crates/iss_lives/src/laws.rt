//! What a device keeps over its whole life.
ghost use Rattle.iss_lives.specs.Clauses.{ClausesAreRuns, MadeDevicesKeepRecords, RunsEndCalm};
ghost use Rattle.iss_lives.specs.Lives.{ProgramsKeepWhatTheyTold, RunsMayEndAnywhere};

/// Over any number of runs of the programs on a device, each ended by itself, by a kill or with the machine, the device keeps what was told
/// of: whatever a stop would leave at the end of each stands firmly for records that begin with all those of which a text went out.
#[tactic(auto, using(crate::proofs::Lives::programs_keep))]
pub fn programs_keep_what_they_told()
    ensures { ProgramsKeepWhatTheyTold }
{}

/// Each run of a program on a device that keeps what was told of is such a run, at whichever moment and however it is ended.
#[tactic(auto, using(crate::proofs::Lives::runs_may_end))]
pub fn runs_may_end_anywhere()
    ensures { RunsMayEndAnywhere }
{}

/// What the programs' clauses say is what is said of such a run.
#[tactic(auto, using(crate::proofs::Clauses::clauses_are_runs))]
pub fn clauses_are_runs()
    ensures { ClausesAreRuns }
{}

/// A run that ended by itself with another status than 6 left no write failed, and the device reads as it was left.
#[tactic(auto, using(crate::proofs::Clauses::runs_end_calm))]
pub fn runs_end_calm()
    ensures { RunsEndCalm }
{}

/// A device that was formatted, or made a copy, keeps its records.
#[tactic(auto, using(crate::proofs::Clauses::made_devices_keep_records))]
pub fn made_devices_keep_records()
    ensures { MadeDevicesKeepRecords }
{}
