//! The journal's end, where a record is added.

ghost use Rattle.std.specs.Prelude.{◌≡◌, ◌+◌, ◌<◌, ◌≤◌, length, OnOk, IfOk, IsErrOf};
ghost use Rattle.iss_edge.specs.World.{Told, Stays};
ghost use Rattle.iss_edge.specs.Calls.{Same, HearsNothing};
ghost use Rattle.iss_journal.specs.declared.layout.TheConstants.{HEADER_INSTANCES};
ghost use Rattle.iss_journal.specs.Place.{free_at};
ghost use Rattle.iss_journal.specs.Answers.{DiskCause, DiskAlone, FullByNeed, OnFull};
ghost use Rattle.iss_journal.specs.Append.{AppendsGood, AppendsGoing};
ghost use Rattle.iss_journal.specs.Header.{IsSize, ReadsInstance, DiskOrUnformatted};
ghost use Rattle.iss_journal.specs.declared.fault.JournalFault.TheVariants.{NotFormatted};
ghost use Rattle.iss_journal.specs.Formatting.{Formats, FormatsGood};

use crate::JournalFault;
use crate::frame::{CLOSED, Frame, OPEN};
use crate::header::{instance_of, tail_of};
use crate::layout::{GATE, GREATEST_SIZE, HEADER, LEAST_SIZE};
use iss_edge::{Edge, put};
use std::marker::Model;

/// A journal that can take more records: contracts see its end gate's place and the place where its region ends.
#[derive(Debug, Drop)]
pub struct Journal {
    gate: u64,
    to: u64,
}

impl Model for Journal {
    ghost use Rattle.std.specs.Prelude.{◌<◌};
    ghost use Rattle.iss_journal.specs.Place.{Place};

    ghost Value = { Place };

    ghost view = { λ j. record { gate = j.gate; to = j.to } };

    ghost invariant = { λ j. j.gate < j.to };
}

impl Journal {
    /// Makes the device, of 17 to 2^32 bytes, one of this instance that stands for no records. Until one of its syncs has
    /// succeeded, a stop leaves the device as it was but for its first byte. From then on it leaves a device that is not
    /// formatted, or one of this instance that stands for no records.
    #[tactic(auto, using(iss_edge::proofs::ToldPuts::hears_nothing))]
    pub fn format<E: Edge>(edge: &mut E, instance: u64) -> Result<(), JournalFault>
        requires least { LEAST_SIZE ≤ E.extent edge.old }
        requires most { E.extent edge.old ≤ GREATEST_SIZE }
        requires small { instance < HEADER_INSTANCES }
        ensures formatted { OnOk result (Told (Formats instance) (E.told edge.old) (E.told edge.new)) }
        ensures moments { Told (FormatsGood instance) (E.told edge.old) (E.told edge.new) }
        ensures alone { DiskAlone result }
        ensures cause { DiskCause (E.faults edge.old) (E.faults edge.new) result }
        ensures heard { Told HearsNothing (E.heard edge.old) (E.heard edge.new) }
        ensures kept { Stays E.extent edge.old edge.new }
        ensures channels { Stays E.channels edge.old edge.new }
    {
        let tail = tail_of(instance);
        put(edge, 0, &[CLOSED])?;
        put(edge, 1, &tail)?;
        put(edge, 0, &[OPEN])?;
        Ok(())
    }

    /// The instance of a formatted device.
    #[tactic(auto, using(crate::proofs::Formats::instance_found, crate::proofs::Formats::instance_absent, crate::proofs::Formats::size_wrong))]
    pub fn instance<E: Edge>(edge: &mut E) -> Result<u64, JournalFault>
        ensures read { Told (ReadsInstance result) (E.told edge.old) (E.told edge.new) }
        ensures same { Told Same (E.told edge.old) (E.told edge.new) }
        ensures small { IfOk result (λ instance. instance < HEADER_INSTANCES) }
        ensures size { IfOk result (λ instance. IsSize (E.extent edge.old)) }
        ensures no_size { (IsSize (E.extent edge.old) → ⊥) → IsErrOf result NotFormatted }
        ensures faults { DiskOrUnformatted result }
        ensures cause { DiskCause (E.faults edge.old) (E.faults edge.new) result }
        ensures heard { Told HearsNothing (E.heard edge.old) (E.heard edge.new) }
        ensures kept { Stays E.extent edge.old edge.new }
        ensures channels { Stays E.channels edge.old edge.new }
    {
        let size = edge.size();
        if size < LEAST_SIZE || GREATEST_SIZE < size {
            return Err(JournalFault::NotFormatted);
        }
        let mut header = [0; HEADER];
        edge.read_at(0, &mut header)?;
        match instance_of(header) {
            Some(instance) => Ok(instance),
            None => Err(JournalFault::NotFormatted),
        }
    }

    /// The journal without a record whose end gate stands, closed, at the first place of a region.
    pub fn fresh(from: u64, to: u64) -> Journal
        requires { from < to }
        ensures { result ≡ record { gate = from; to = to } }
    {
        Journal::at(from, to)
    }

    /// The journal whose end gate stands at this place, closed.
    pub(crate) fn at(gate: u64, to: u64) -> Journal
        requires { gate < to }
        ensures { result ≡ record { gate = gate; to = to } }
    {
        Journal { gate, to }
    }

    /// How many bytes are free after the end gate.
    pub fn free(&self) -> u64
        ensures { result ≡ free_at self.now }
    {
        self.to - GATE - self.gate
    }

    /// Adds the frame's record. It makes the frame last after the end gate, and then opens the gate. So a stop at any
    /// moment leaves the old records or also the new one. Once it succeeds a stop leaves the new one. After a fault of
    /// the disk the journal is not to be used again.
    #[tactic(auto, using(crate::proofs::Appends::append_refused, crate::proofs::Appends::append_unwritten, crate::proofs::Appends::append_unopened, crate::proofs::Appends::append_done, crate::proofs::Appends::append_done_good, iss_edge::proofs::ToldPuts::hears_nothing))]
    pub fn append<E: Edge>(&mut self, edge: &mut E, frame: &Frame) -> Result<(), JournalFault>
        requires { self.old.to ≤ E.extent edge.old }
        ensures full { FullByNeed self.old frame.now result }
        ensures untouched { OnFull result (self.new ≡ self.old) }
        ensures unwritten { OnFull result (Told Same (E.told edge.old) (E.told edge.new)) }
        ensures next { OnOk result
            (self.new ≡ record { gate = self.old.gate + length frame.now; to = self.old.to }) }
        ensures moments { Told (AppendsGood self.old frame.now) (E.told edge.old) (E.told edge.new) }
        ensures acknowledged { OnOk result
            (Told (AppendsGoing self.old frame.now) (E.told edge.old) (E.told edge.new)) }
        ensures cause { DiskCause (E.faults edge.old) (E.faults edge.new) result }
        ensures heard { Told HearsNothing (E.heard edge.old) (E.heard edge.new) }
        ensures kept { Stays E.extent edge.old edge.new }
        ensures channels { Stays E.channels edge.old edge.new }
    {
        let free = self.free();
        let need = frame.size();
        if free < need {
            return Err(JournalFault::Full { free, need });
        }
        put(edge, self.gate + GATE, frame.as_slice())?;
        put(edge, self.gate, &[OPEN])?;
        self.gate += need;
        Ok(())
    }
}
