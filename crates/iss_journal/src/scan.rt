//! Reading a journal from its first record to its end.

ghost use Rattle.std.specs.Prelude.{◌≡◌, ◌↔◌, ◌+◌, ◌<◌, ◌≤◌, IsTrue, OnOk, OnErr, IfOk};
ghost use Rattle.iss_edge.specs.World.{Told, Stays};
ghost use Rattle.iss_edge.specs.Calls.{Same, Syncs, SyncsPart, HearsNothing};
ghost use Rattle.iss_journal.specs.Answers.{DiskCause, DiskAlone};
ghost use Rattle.iss_journal.specs.Opening.{Finds, MovesOn, ClosesGood, ClosesGoing};

use crate::frame::{CLOSED, OPEN};
use crate::layout::{HEAD, LONGEST_BODY};
use crate::reads::{read_body, read_gate, read_head};
use crate::{Journal, JournalFault};
use iss_edge::{Bytes, Edge, put};
use std::alloc::Global;
use std::marker::Model;

/// A journal that is being read: contracts see the place of the next gate and the place where its region ends.
#[derive(Debug, Drop)]
pub struct Scan {
    gate: u64,
    to: u64,
}

impl Model for Scan {
    ghost use Rattle.std.specs.Prelude.{◌<◌};
    ghost use Rattle.iss_journal.specs.Place.{Place};

    ghost Value = { Place };

    ghost view = { λ s. record { gate = s.gate; to = s.to } };

    ghost invariant = { λ s. s.gate < s.to };
}

impl Scan {
    /// Begins at the region's first gate, once all that was written lasts.
    pub fn start<E: Edge>(edge: &mut E, from: u64, to: u64) -> Result<Scan, JournalFault>
        requires region { from < to }
        requires room { to ≤ E.extent edge.old }
        ensures place { IfOk result (λ scan. scan ≡ record { gate = from; to = to }) }
        ensures synced { OnOk result (Told Syncs (E.told edge.old) (E.told edge.new)) }
        ensures part { OnErr result (Told SyncsPart (E.told edge.old) (E.told edge.new)) }
        ensures alone { DiskAlone result }
        ensures cause { DiskCause (E.faults edge.old) (E.faults edge.new) result }
        ensures heard { Told HearsNothing (E.heard edge.old) (E.heard edge.new) }
        ensures kept { Stays E.extent edge.old edge.new }
        ensures channels { Stays E.channels edge.old edge.new }
    {
        edge.sync()?;
        Ok(Scan { gate: from, to })
    }

    /// The next record's body, or `None` exactly at a gate that is not open. `BadRecord` names an open gate exactly if the
    /// length after it is 0, over 8192, or passes the region's end. If it returns no body, the scan is as before.
    #[tactic(auto, using(crate::proofs::Scans::finds_no_disk, crate::proofs::Scans::finds_no_memory, crate::proofs::Scans::finds_shut, crate::proofs::Scans::finds_wrong, crate::proofs::Scans::finds_body, crate::proofs::Scans::head_same, crate::proofs::Scans::same_then_told, crate::proofs::Scans::body_same, iss_edge::proofs::ToldPuts::hears_nothing))]
    pub fn next<E: Edge>(
        &mut self,
        alloc: Global,
        edge: &mut E,
    ) -> Result<Option<Bytes>, JournalFault>
        requires { self.old.to ≤ E.extent edge.old }
        ensures finds { Told (Finds self.old result) (E.told edge.old) (E.told edge.new) }
        ensures moves { MovesOn self.old self.new result }
        ensures within { self.new.gate < self.new.to }
        ensures to { self.new.to ≡ self.old.to }
        ensures same { Told Same (E.told edge.old) (E.told edge.new) }
        ensures cause { DiskCause (E.faults edge.old) (E.faults edge.new) result }
        ensures heard { Told HearsNothing (E.heard edge.old) (E.heard edge.new) }
        ensures kept { Stays E.extent edge.old edge.new }
        ensures channels { Stays E.channels edge.old edge.new }
    {
        let head = read_head(edge, self.gate, self.to)?;
        if head.gate != OPEN {
            return Ok(None);
        }
        if !is_length(head.length, self.to - self.gate) {
            return Err(JournalFault::BadRecord(self.gate));
        }
        let body = read_body(alloc, edge, self.gate + HEAD, head.length as usize)?;
        self.gate += HEAD + u64::from(head.length);
        Ok(Some(body))
    }

    /// The journal, once `next` has answered `None`. If the end gate isn't 0, it becomes 0, so that the record
    /// after it, if one was left there, never stands.
    #[tactic(auto, using(crate::proofs::Closings::close_shut, crate::proofs::Closings::close_shut_good, crate::proofs::Closings::close_part, crate::proofs::Closings::close_done, crate::proofs::Closings::close_done_good, crate::proofs::Closings::close_unread, iss_edge::proofs::ToldPuts::hears_nothing))]
    pub fn finish<E: Edge>(self, edge: &mut E) -> Result<Journal, JournalFault>
        requires { self.to ≤ E.extent edge.old }
        ensures place { IfOk result (λ journal. journal ≡ self) }
        ensures within { self.gate < self.to }
        ensures moments { Told (ClosesGood self) (E.told edge.old) (E.told edge.new) }
        ensures closed { OnOk result (Told (ClosesGoing self) (E.told edge.old) (E.told edge.new)) }
        ensures alone { DiskAlone result }
        ensures cause { DiskCause (E.faults edge.old) (E.faults edge.new) result }
        ensures heard { Told HearsNothing (E.heard edge.old) (E.heard edge.new) }
        ensures kept { Stays E.extent edge.old edge.new }
        ensures channels { Stays E.channels edge.old edge.new }
    {
        let gate = read_gate(edge, self.gate)?;
        if gate == CLOSED {
            return Ok(Journal::at(self.gate, self.to));
        }
        put(edge, self.gate, &[CLOSED])?;
        Ok(Journal::at(self.gate, self.to))
    }
}

/// Whether a body may have this length, if this many bytes are left from its gate on.
fn is_length(length: u32, room: u64) -> bool
    ensures { IsTrue result ↔ ((0 < length) × (length ≤ LONGEST_BODY) × (HEAD + length < room)) }
{
    let length = u64::from(length);
    0 < length && length <= LONGEST_BODY && HEAD + length < room
}
