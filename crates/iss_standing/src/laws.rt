//! What holds of every device, and of every run on one.

ghost use Rattle.std.specs.Prelude.{◌≡◌};
ghost use Rattle.iss_journal.specs.declared.layout.TheConstants.{GATE, LENGTH, HEAD, FIRST_GATE, HEADER_INSTANCES};
ghost use Rattle.iss_halves.specs.declared.layout.TheConstants.{SELECTOR};
ghost use Rattle.iss_model.specs.declared.layout.TheConstants.{GATE_SIZE, LENGTH_SIZE, RECORD_HEAD, HEADER_END};
ghost use Rattle.iss_model.specs.declared.limits.TheConstants.{INSTANCES};
ghost use Rattle.iss_standing.specs.Standing.{DevicesStandForFew};
ghost use Rattle.iss_standing.specs.Counts.{NewDevicesHaveRoom, PutsAreCounted, TurnsAreFew, TurnsComeWhenFull};
ghost use Rattle.iss_standing.specs.Goings.{PartsMakeOne, TextsWaitForSyncs};

/// The sizes by which the model tells how much is free are those of the journal and of halves, and a header spells every instance.
pub fn the_journal_has_the_sizes_of_the_model()
    ensures gate { GATE ≡ GATE_SIZE }
    ensures length { LENGTH ≡ LENGTH_SIZE }
    ensures head { HEAD ≡ RECORD_HEAD }
    ensures first_gate { FIRST_GATE ≡ HEADER_END }
    ensures selector { SELECTOR ≡ HEADER_END }
    ensures instances { HEADER_INSTANCES ≡ INSTANCES }
{}

/// A device stands for no more records than there may be, in halves and in one journal.
pub fn devices_stand_for_few_records()
    ensures { DevicesStandForFew }
{}

/// Two parts of a run on a device, one after the other, are one.
#[tactic(auto, using(crate::proofs::Goings::goes_then))]
pub fn parts_of_a_run_make_one()
    ensures { PartsMakeOne }
{}

/// The work on the device that records make is counted: two writes and two syncs for each, two of both more for each turn, and how many bytes
/// these writes have. A run that ended on its way did no more.
pub fn puts_are_counted()
    ensures { PutsAreCounted }
{}

/// A device turns only for a record that has no room after those of its half. So it doesn't turn if all records that come have room there,
/// nor does a new device whose size is twice what they need and 27 more.
#[tactic(auto, using(crate::proofs::Turns::turns_are_few, crate::proofs::Turns::new_devices_have_room, crate::proofs::Turns::turns_come_when_full))]
pub fn devices_turn_when_full()
    ensures few { TurnsAreFew }
    ensures made { NewDevicesHaveRoom }
    ensures full { TurnsComeWhenFull }
{}

/// Each record is synced twice before a byte of a text goes out that tells of it.
pub fn texts_wait_for_syncs()
    ensures { TextsWaitForSyncs }
{}
