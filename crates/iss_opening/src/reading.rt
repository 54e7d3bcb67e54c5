//! A device that is being opened: its image, and then one record after the other.
ghost use Rattle.std.specs.Prelude.{◌≡◌, ◌<◌, ◌≤◌, IfOk, OnOk, OnErr};
ghost use Rattle.iss_edge.specs.World.{Told, Stays};
ghost use Rattle.iss_edge.specs.Calls.{Same, HearsNothing};
ghost use Rattle.iss_journal.specs.Opening.{ClosesGood, ClosesGoing};
ghost use Rattle.iss_opening.specs.Opening.{OpensGood, OnRefused, ReadsAlone, OpenCause, FailsByDisk};
ghost use Rattle.iss_opening.specs.Progress.{Begins, ReadsNext, MovesFrom};

use crate::taking::{Taken, take_in};
use crate::{OpenFault, Opened};
use iss_core::Core;
use iss_edge::Edge;
use iss_halves::Halves;
use iss_journal::Scan;
use iss_journal::layout::{HEAD, LENGTH};
use iss_snapshot::load;
use std::alloc::Global;
use std::marker::Model;

/// A device that is being opened. Contracts see what a store is seen as: the core of what was read so far, the place of the next gate, the
/// layout and the point.
#[derive(Drop)]
pub struct Reading {
    core: Core,
    scan: Scan,
    gate: u64,
    halves: Halves,
    point: u32,
}

impl Model for Reading {
    ghost use Rattle.std.specs.Prelude.{◌≡◌};
    ghost use Rattle.std.specs.Coded.{codes};
    ghost use Rattle.iss_model.specs.state.Kept.{kept_code};
    ghost use Rattle.iss_opening.specs.Values.{StoreNow, IsStore};

    ghost Value = { StoreNow };

    ghost coded = { Prim.hlevel (codes, kept_code) };

    ghost view = { λ r. record { core = r.core; place = r.scan; layout = r.halves; point = r.point } };

    ghost invariant = { λ r. IsStore (record { core = r.core; place = r.scan; layout = r.halves; point = r.point }) × (r.gate ≡ r.scan.gate) };
}

impl Reading {
    /// Begins to open the device. Its image is read and loaded, and then all that was written is made to last.
    ///
    /// # Errors
    ///
    /// `NotFormatted` if the size or the header is wrong. `BadRecord` and `BadImage` have the first place of the current half: its image
    /// is too long, or is that of no sound state.
    #[tactic(auto, using(crate::proofs::Telling::told_header_fault, crate::proofs::Telling::told_image_fault, crate::proofs::Telling::same_good, crate::proofs::Telling::same_alone, crate::proofs::Telling::told_twice, crate::proofs::Telling::told_unsynced, crate::proofs::Telling::on_refused, crate::proofs::Causes::caused_well, crate::proofs::Causes::caused_by_memory, crate::proofs::Causes::caused_by_image, crate::proofs::Causes::caused_by_read, crate::proofs::Causes::caused_by_header, crate::proofs::Causes::caused_by_disk, crate::proofs::Causes::caused_after))]
    pub fn start<E: Edge>(alloc: Global, edge: &mut E) -> Result<Reading, OpenFault>
        ensures begins { Told (Begins result) (E.told edge.old) (E.told edge.new) }
        ensures moments { OnErr result (Told OpensGood (E.told edge.old) (E.told edge.new)) }
        ensures refused { OnRefused result (Told ReadsAlone (E.told edge.old) (E.told edge.new)) }
        ensures first { IfOk result (λ reading. reading.point ≡ reading.core.state.count) }
        ensures size { IfOk result (λ reading. reading.layout.size ≡ E.extent edge.new) }
        ensures cause { OpenCause (E.faults edge.old) (E.faults edge.new) result }
        ensures heard { Told HearsNothing (E.heard edge.old) (E.heard edge.new) }
        ensures kept { Stays E.extent edge.old edge.new }
        ensures channels { Stays E.channels edge.old edge.new }
    {
        let halves = Halves::open(edge)?;
        let image = halves.image(alloc, edge)?;
        let (from, to) = halves.region(image.len() as u64);
        let Some(core) = load(alloc, image.as_slice(), halves.instance())? else {
            return Err(OpenFault::BadImage(from - LENGTH - image.len() as u64));
        };
        let scan = Scan::start(edge, from, to)?;
        let point = core.count();
        Ok(Reading {
            core,
            scan,
            gate: from,
            halves,
            point,
        })
    }

    /// The next record, read and taken up, with the reading after it. `None` exactly at a gate that isn't open.
    ///
    /// # Errors
    ///
    /// `BadRecord`, `BadSpelling` and `BadHistory` have the place of the gate before the record: its length is wrong, its bytes spell
    /// none, or it isn't next on what was read before it or would be one more than there may be.
    #[tactic(auto, using(crate::proofs::Causes::caused_well, crate::proofs::Causes::caused_by_next, crate::proofs::Causes::caused_by_record, crate::proofs::Causes::caused_after))]
    pub fn next<E: Edge>(
        mut self,
        alloc: Global,
        edge: &mut E,
    ) -> Result<(Reading, Option<Taken>), OpenFault>
        requires { self.layout.size ≡ E.extent edge.old }
        ensures reads { Told (ReadsNext self result) (E.told edge.old) (E.told edge.new) }
        ensures moves { IfOk result (λ x. MovesFrom self x.0 x.1) }
        ensures within { IfOk result (λ x. x.0.place.gate < x.0.place.to) }
        ensures same { Told Same (E.told edge.old) (E.told edge.new) }
        ensures cause { OpenCause (E.faults edge.old) (E.faults edge.new) result }
        ensures heard { Told HearsNothing (E.heard edge.old) (E.heard edge.new) }
        ensures kept { Stays E.extent edge.old edge.new }
        ensures channels { Stays E.channels edge.old edge.new }
    {
        let Some(body) = self.scan.next(alloc, edge)? else {
            return Ok((self, None));
        };
        let (core, taken) = take_in(alloc, self.core, self.gate, body.as_slice())?;
        self.core = core;
        self.gate += HEAD + body.len() as u64;
        Ok((self, Some(taken)))
    }

    /// The opened device, once `next` has answered `None`. If the end gate isn't 0, it becomes 0, so that a record which a stop has left
    /// after it never stands. Its one fault is `Disk`.
    #[tactic(auto, using(crate::proofs::Causes::caused_well, crate::proofs::Causes::caused_by_disk, crate::proofs::Causes::disk_alone))]
    pub fn finish<E: Edge>(self, edge: &mut E) -> Result<Opened, OpenFault>
        requires { self.layout.size ≡ E.extent edge.old }
        ensures value { IfOk result (λ opened. opened ≡ self) }
        ensures moments { Told (ClosesGood self.place) (E.told edge.old) (E.told edge.new) }
        ensures closed { OnOk result (Told (ClosesGoing self.place) (E.told edge.old) (E.told edge.new)) }
        ensures alone { FailsByDisk result }
        ensures cause { OpenCause (E.faults edge.old) (E.faults edge.new) result }
        ensures heard { Told HearsNothing (E.heard edge.old) (E.heard edge.new) }
        ensures kept { Stays E.extent edge.old edge.new }
        ensures channels { Stays E.channels edge.old edge.new }
    {
        let journal = self.scan.finish(edge)?;
        Ok(Opened::new(self.core, journal, self.halves, self.point))
    }

    /// What the image and the records read so far make.
    pub fn core(&self) -> &Core
        ensures { result.now ≡ self.now.core }
    {
        &self.core
    }
}
