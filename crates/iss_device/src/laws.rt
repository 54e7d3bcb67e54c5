//! What a device keeps over its whole life.
ghost use Rattle.iss_device.specs.Lives.{DevicesKeepWhatWasTold, EndedRunsLeaveCalm, MadeDevicesKeep, RunsGoOn};

/// Over any number of runs on a device, each ended by itself, by a kill or with the machine, whatever was told of stays: at each moment
/// what a stop would leave stands firmly for records that begin with all those of which a text went out.
#[tactic(auto, using(crate::proofs::Lives::lives_keep))]
pub fn devices_keep_what_was_told()
    ensures { DevicesKeepWhatWasTold }
{}

/// A device that keeps what was told of stands for such records as it reads. Wherever a run on it is ended, by itself, by a kill or with the
/// machine, that is a run of its life.
#[tactic(auto, using(crate::proofs::Lives::runs_go_on))]
pub fn runs_go_on()
    ensures { RunsGoOn }
{}

/// A run that did nothing but maybe a sync, or ended where the next one begins, leaves no write failed.
#[tactic(auto, using(crate::proofs::Lives::ended_runs_leave_calm))]
pub fn ended_runs_leave_calm()
    ensures { EndedRunsLeaveCalm }
{}

/// A device that was just made keeps the records that it was made with.
#[tactic(auto, using(crate::proofs::Lives::made_devices_keep))]
pub fn made_devices_keep()
    ensures { MadeDevicesKeep }
{}
