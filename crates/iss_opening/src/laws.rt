//! What holds of every device that is opened, and how calls and notices are numbered.

ghost use Rattle.std.specs.Prelude.{◌≡◌, List, ℕ};
ghost use Rattle.iss_model.specs.declared.input.Record.{Record};
ghost use Rattle.iss_model.specs.rules.Histories.{History, history_keeper};
ghost use Rattle.iss_model.specs.rules.Stepping.{step};
ghost use Rattle.iss_model.specs.state.Cores.{CoreState, core_keeper, core_of};
ghost use Rattle.iss_core.specs.Values.{CoreNow};
ghost use Rattle.iss_snapshot.specs.Loaded.{IsLoaded};
ghost use Rattle.iss_opening.specs.Numbers.{AreNumbered, IsNumbered};
ghost use Rattle.iss_opening.specs.OneJournal.{OneJournalIsHistory, OneJournalStands, OneJournalBadHistory};
ghost use Rattle.iss_opening.specs.Opening.{GoodDevicesOpen, OpenedDevicesHaveNoFault, OpenedStoresStand};
ghost use Rattle.iss_opening.specs.Going.{NextIsRead, NoneIsRead, TheseAreRead, AllIsRead, FaultIsFound, ReadingIsGood, ClosingIsGood, ClosingOpens};

/// If a device stands for records, or if it was opened, opening it fails only for the disk or for memory.
pub fn good_devices_open()
    ensures standing { GoodDevicesOpen }
    ensures opened { OpenedDevicesHaveNoFault }
{}

/// Whichever records a device stands for, a store that was opened on it stands for them, at the same seat.
pub fn opened_stores_stand()
    ensures { OpenedStoresStand }
{}

/// One journal has no image. So what was read of it is a history, and its records are judged by the book.
pub fn one_journal_has_a_history()
    ensures history { OneJournalIsHistory }
    ensures stands { OneJournalStands }
    ensures book { OneJournalBadHistory }
{}

/// What a reading has read so far goes on record by record, whoever reads. A fault is one of the whole opening, and once all is read,
/// closing the end gate opens the device.
pub fn readings_go_on()
    ensures next { NextIsRead }
    ensures none { NoneIsRead }
    ensures these { TheseAreRead }
    ensures all { AllIsRead }
    ensures fault { FaultIsFound }
    ensures good { ReadingIsGood }
    ensures closing { ClosingIsGood }
    ensures closed { ClosingOpens }
{}

/// Calls and notices are numbered from 1: those of a record's entries, whatever stands before it, and those that stand after any records
/// or after an image that was loaded.
#[tactic(auto, using(crate::proofs::Numbered::entries_numbered))]
pub fn calls_and_notices_are_numbered()
    ensures entries { (s : CoreState) → (r : Record) → AreNumbered (step core_keeper s r).entries }
    ensures on_book { (h : History) → (r : Record) → AreNumbered (step history_keeper h r).entries }
    ensures kept { (s : CoreState) → (r : Record) → IsNumbered s → IsNumbered (step core_keeper s r).world }
    ensures records { (rs : List Record) → IsNumbered (core_of rs) }
    ensures loaded { (bytes : List ℕ) → (own : ℕ) → (c : CoreNow) → IsLoaded bytes own c → IsNumbered c.state }
{}
