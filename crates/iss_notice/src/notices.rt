//! The notices that aren't acknowledged yet, by number.
ghost use Rattle.std.specs.Prelude.{◌≡◌, ◌↔◌, ◌+◌, ◌&&◌, [], not, map, length, IfOk, IsOk, IsTrue, IsErrOf, OnOk, OnErr};
ghost use Rattle.std.specs.Option.{option_copied};
ghost use Rattle.iss_model.specs.state.Cores.{with_notice, with_acked};
ghost use Rattle.iss_notice.specs.Pending.{is_made, is_pending, pending_notice, are_numbered};

use iss_model::Notice;
use std::alloc::{AllocError, Global};
use std::collections::BTreeMap;
use std::marker::Model;

/// Why a notice wasn't acknowledged.
#[derive(Clone, Copy, Debug, PartialEq, Eq)]
pub enum NoticeFault {
    /// No notice of that number was made.
    Unknown,
    /// It is acknowledged.
    Already,
}

/// How many notices were made, and those that aren't acknowledged yet in the order of their numbers.
#[derive(Drop)]
pub struct Notices {
    made: u32,
    // Boxed, since rising numbers leave the tree's nodes half full.
    pending: BTreeMap<u32, Box<Notice>>,
    alloc: Global,
}

impl Model for Notices {
    ghost use Rattle.std.specs.Map.{values_of};
    ghost use Rattle.iss_model.specs.state.Cores.{Outbox};

    ghost Value = { Outbox };

    ghost use Rattle.iss_notice.specs.Kept.{AreNoticesKept, noted};

    ghost view = { λ n. record { made = n.made; pending = values_of (noted n.pending) } };

    ghost invariant = { λ n. AreNoticesKept n.made (noted n.pending) };
}

impl Notices {
    /// No notice.
    pub fn new(alloc: Global) -> Result<Notices, AllocError>
        ensures { IfOk result (λ notices. notices ≡ record { made = 0; pending = [] }) }
    {
        Ok(Notices {
            made: 0,
            pending: BTreeMap::new(alloc),
            alloc,
        })
    }

    /// The notices as they stood: how many were made, and those that weren't acknowledged yet in the order of their numbers.
    pub fn restore(alloc: Global, made: u32, list: &[Notice]) -> Result<Notices, AllocError>
        requires numbered { IsTrue (are_numbered made list.now) }
        ensures { IfOk result (λ notices. notices ≡ record { made = made; pending = list.now }) }
    {
        let mut pending = BTreeMap::new(alloc);
        for notice in list {
            pending.insert(notice.number, Box::new(alloc, *notice)?)?;
        }
        Ok(Notices {
            made,
            pending,
            alloc,
        })
    }

    /// Adds a notice of the next number. If an allocation fails, all stays as it was.
    pub fn add(&mut self, notice: &Notice) -> Result<(), AllocError>
        requires next { notice.now.number ≡ self.old.made + 1 }
        ensures added { OnOk result (self.new ≡ with_notice self.old notice.now) }
        ensures unchanged { OnErr result (self.new ≡ self.old) }
    {
        let boxed = Box::new(self.alloc, *notice)?;
        self.pending.insert(notice.number, boxed)?;
        self.made = notice.number;
        Ok(())
    }

    /// Acknowledges a notice, once.
    pub fn acknowledge(&mut self, number: u32) -> Result<(), NoticeFault>
        ensures exactly { IsOk result ↔ IsTrue (is_pending number self.old) }
        ensures unknown { IsErrOf result NoticeFault.Unknown ↔ IsTrue (not (is_made number self.old)) }
        ensures already { IsErrOf result NoticeFault.Already
            ↔ IsTrue (is_made number self.old && not (is_pending number self.old)) }
        ensures acknowledged { self.new ≡ with_acked self.old number }
        ensures unchanged { OnErr result (self.new ≡ self.old) }
    {
        if self.pending.remove(&number).is_some() {
            return Ok(());
        }
        if number == 0 || number > self.made {
            return Err(NoticeFault::Unknown);
        }
        Err(NoticeFault::Already)
    }

    /// The numbers of the notices that aren't acknowledged yet, in their order.
    pub fn pending(&self, alloc: Global) -> Result<Vec<u32>, AllocError>
        ensures { IfOk result (λ v. v.items ≡ map (λ notice. notice.number) self.now.pending) }
    {
        self.pending.keys().copied().collect(alloc)
    }

    /// The notices that aren't acknowledged yet, in the order of their numbers.
    pub fn pending_notices(&self, alloc: Global) -> Result<Vec<Notice>, AllocError>
        ensures { IfOk result (λ v. v.items ≡ self.now.pending) }
    {
        let mut notices = Vec::new(alloc);
        for notice in self.pending.values() {
            notices.push(**notice)?;
        }
        Ok(notices)
    }

    /// A notice, `None` exactly if there is none of that number or it is acknowledged.
    pub fn get(&self, number: u32) -> Option<&Notice>
        ensures { option_copied result ≡ pending_notice number self.now }
    {
        let notice = self.pending.get(&number)?;
        Some(notice)
    }

    /// How many notices were made, which is the number of the last.
    pub fn made(&self) -> u32
        ensures { result ≡ self.now.made }
    {
        self.made
    }

    /// How many notices aren't acknowledged yet.
    pub fn waiting(&self) -> usize
        ensures { result ≡ length self.now.pending }
    {
        self.pending.len()
    }
}
