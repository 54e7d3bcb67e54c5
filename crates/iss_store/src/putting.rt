//! Where records are put on a device, and putting one there.
ghost use Rattle.std.specs.Prelude.{◌≡◌, IfOk, OnOk, None, Some};
ghost use Rattle.iss_edge.specs.World.{Told, Stays};
ghost use Rattle.iss_edge.specs.Calls.{HearsNothing};
ghost use Rattle.iss_opening.specs.Values.{IsStore};
ghost use Rattle.iss_store.specs.Planning.{IsPlanOf};
ghost use Rattle.iss_store.specs.Committing.{Keeps, KeepsPart, CommitCause};
ghost use Rattle.iss_store.specs.Putting.{stood, IsPutAt, FailsByDisk};

use crate::{Planned, StoreFault};
use iss_core::Core;
use iss_edge::Edge;
use iss_halves::{Half, Halves, append_turned};
use iss_journal::{Frame, Journal};

/// Where records are put: the journal, how the device is laid out, and how many records are in the image of the current half.
#[derive(Drop)]
pub(crate) struct Seat {
    pub(crate) journal: Journal,
    pub(crate) halves: Halves,
    pub(crate) point: u32,
}

impl Seat {
    /// Puts the record of a plan after the end gate; after a turn, if it needs one. `core` is what stands.
    pub(crate) fn put<E: Edge>(
        self,
        edge: &mut E,
        core: &Core,
        planned: &Planned,
    ) -> Result<Seat, StoreFault>
        requires store { IsStore (stood self core.now) }
        requires plan { IsPlanOf (stood self core.now) planned.now }
        requires size { E.extent edge.old ≡ self.halves.size }
        ensures put { IfOk result (IsPutAt (stood self core.now) planned.now) }
        ensures moments { Told (KeepsPart (stood self core.now) planned.now.accepted) (E.told edge.old) (E.told edge.new) }
        ensures lasts { OnOk result
            (Told (Keeps (stood self core.now) planned.now.accepted) (E.told edge.old) (E.told edge.new)) }
        ensures alone { FailsByDisk result }
        ensures cause { CommitCause (E.faults edge.old) (E.faults edge.new) result }
        ensures heard { Told HearsNothing (E.heard edge.old) (E.heard edge.new) }
        ensures kept { Stays E.extent edge.old edge.new }
        ensures channels { Stays E.channels edge.old edge.new }
    {
        match &planned.half {
            Some(half) => self.put_turned(edge, core, half, planned),
            None => self.put_here(edge, core, planned),
        }
    }

    /// Puts a record that needs no turn after the end gate.
    fn put_here<E: Edge>(
        self,
        edge: &mut E,
        core: &Core,
        planned: &Planned,
    ) -> Result<Seat, StoreFault>
        requires store { IsStore (stood self core.now) }
        requires plan { IsPlanOf (stood self core.now) planned.now }
        requires here { planned.now.half ≡ None }
        requires size { E.extent edge.old ≡ self.halves.size }
        ensures put { IfOk result (IsPutAt (stood self core.now) planned.now) }
        ensures moments { Told (KeepsPart (stood self core.now) planned.now.accepted) (E.told edge.old) (E.told edge.new) }
        ensures lasts { OnOk result
            (Told (Keeps (stood self core.now) planned.now.accepted) (E.told edge.old) (E.told edge.new)) }
        ensures alone { FailsByDisk result }
        ensures cause { CommitCause (E.faults edge.old) (E.faults edge.new) result }
        ensures heard { Told HearsNothing (E.heard edge.old) (E.heard edge.new) }
        ensures kept { Stays E.extent edge.old edge.new }
        ensures channels { Stays E.channels edge.old edge.new }
    {
        let mut journal = self.journal;
        // The plan fits, so nothing but the device refuses it.
        let Ok(()) = journal.append(edge, &planned.frame) else {
            return Err(StoreFault::Disk);
        };
        Ok(Seat {
            journal,
            halves: self.halves,
            point: self.point,
        })
    }

    /// Turns to the other half with the image of what stands, and puts the record of a plan after it.
    fn put_turned<E: Edge>(
        self,
        edge: &mut E,
        core: &Core,
        half: &Half,
        planned: &Planned,
    ) -> Result<Seat, StoreFault>
        requires store { IsStore (stood self core.now) }
        requires plan { IsPlanOf (stood self core.now) planned.now }
        requires turn { planned.now.half ≡ Some half.now }
        requires size { E.extent edge.old ≡ self.halves.size }
        ensures put { IfOk result (IsPutAt (stood self core.now) planned.now) }
        ensures moments { Told (KeepsPart (stood self core.now) planned.now.accepted) (E.told edge.old) (E.told edge.new) }
        ensures lasts { OnOk result
            (Told (Keeps (stood self core.now) planned.now.accepted) (E.told edge.old) (E.told edge.new)) }
        ensures alone { FailsByDisk result }
        ensures cause { CommitCause (E.faults edge.old) (E.faults edge.new) result }
        ensures heard { Told HearsNothing (E.heard edge.old) (E.heard edge.new) }
        ensures kept { Stays E.extent edge.old edge.new }
        ensures channels { Stays E.channels edge.old edge.new }
    {
        let mut halves = self.halves;
        let Ok(journal) = append_turned(&mut halves, edge, half, &planned.frame) else {
            return Err(StoreFault::Disk);
        };
        Ok(Seat {
            journal,
            halves,
            point: core.count(),
        })
    }
}
