//! The live holds by expiry.
ghost use Rattle.std.specs.Prelude.{◌≡◌, ◌==◌, ◌∷◌, ◌++◌, [], nat_eq, not, false, length, map, None, IsTrue, IfOk, OnOk, OnErr};
ghost use Rattle.std.specs.List.{list_any, IsDistinct};
ghost use Rattle.std.specs.BTreeMap as tree;
ghost use Rattle.std.specs.declared.cmp.Ordering.TheVariants.{Less};
ghost use Rattle.iss_index.specs.Places.{place_of};
ghost use Rattle.iss_model.specs.rules.Due.{is_quiet};
ghost use Rattle.iss_hold.specs.Expiries.{txns_due, AreDue};
ghost use Rattle.iss_hold.specs.Holdings.{begun, txn_of_hold, holdings_of};
ghost use Rattle.iss_hold.specs.Indexes.{names, origins, by_expiry, key_of};
ghost use Rattle.iss_hold.specs.Indexes.{AreInOrder, BeginsLive, ComesLast, AreLateDue, AddsQueued, TellsQueued};

use crate::list::HoldList;
use iss_model::{Token, Txn};
use std::alloc::{AllocError, Global};
use std::collections::{BTreeMap, VecDeque};

/// The places of the live holds by expiry, and then by the number of the authorisation's record.
///
/// Expiries mostly come in their order, and those stand in a queue.
#[derive(Drop)]
pub(crate) struct ExpiryQueue {
    /// The places of those that came in order. The first hold is live, and one that ends after it stays until it is the first.
    pub(crate) places: VecDeque<u32>,
    /// The places of live ones that came after a later expiry.
    pub(crate) late: BTreeMap<(u64, u32), u32>,
}

impl ExpiryQueue {
    /// No hold.
    pub(crate) fn new(alloc: Global) -> ExpiryQueue
        ensures places { result.places.items ≡ [] }
        ensures late { result.late.entries ≡ [] }
        ensures rising { tree.IsOrdered by_expiry result.late }
    {
        ExpiryQueue {
            places: VecDeque::new(alloc),
            late: BTreeMap::new(alloc),
        }
    }

    /// Adds the hold of a transaction that begins, and enters its place by its expiry, or neither if an allocation fails.
    pub(crate) fn start(
        &mut self,
        holds: &mut HoldList,
        txn: &Txn,
        place: u32,
    ) -> Result<(), AllocError>
        requires place { place ≡ length holds.old }
        requires unknown { place_of txn.now.token (names holds.old) ≡ None }
        requires origin { list_any (λ t. txn.now.origin == t.txn.origin) (map txn_of_hold holds.old) ≡ false }
        requires order { AreInOrder holds.old self.old.places.items self.old.late }
        requires first { BeginsLive holds.old self.old.places.items }
        ensures added { OnOk result (holds.new ≡ holds.old ++ begun txn.now ∷ []) }
        ensures holds_stay { OnErr result (holds.new ≡ holds.old) }
        ensures order { AreInOrder holds.new self.new.places.items self.new.late }
        ensures first { BeginsLive holds.new self.new.places.items }
    {
        if self.comes_last(holds, txn) {
            return push(&mut self.places, holds, txn, place);
        }
        enter(&mut self.late, holds, txn, place)
    }

    /// Takes out the first holds of the queue if they have ended.
    pub(crate) fn drop_ended(&mut self, holds: &HoldList)
        requires { AreInOrder holds.now self.old.places.items self.old.late }
        ensures order { AreInOrder holds.now self.new.places.items self.new.late }
        ensures first { BeginsLive holds.now self.new.places.items }
    {
        'ended: while let Some(place) = self.places.front() {
            if holds.is_live_at(*place as usize) {
                return;
            }
            self.places.pop_front();
        }
    }

    /// Whether the expiry of a live transaction has come.
    pub(crate) fn is_due(&self, holds: &HoldList, now: u64) -> bool
        requires order { AreInOrder holds.now self.now.places.items self.now.late }
        requires first { BeginsLive holds.now self.now.places.items }
        ensures { result ≡ not (is_quiet (txns_due (holdings_of holds.now) now)) }
    {
        if self.is_first_due(holds, now) {
            return true;
        }
        match self.late.first_key_value() {
            Some((expiry, _)) => expiry.0 <= now,
            None => false,
        }
    }

    /// The live transactions whose expiry has come, by expiry and then by the number of the authorisation's record.
    pub(crate) fn due(
        &self,
        holds: &HoldList,
        alloc: Global,
        now: u64,
    ) -> Result<Vec<Token>, AllocError>
        requires order { AreInOrder holds.now self.now.places.items self.now.late }
        requires once { IsDistinct nat_eq (origins holds.now) }
        ensures { IfOk result (λ v. AreDue (holdings_of holds.now) now v.items) }
    {
        let mut due = self.late_due(holds, alloc, now)?;
        self.add_queued(&mut due, holds, now)?;
        due.into_values().collect(alloc)
    }

    /// The tokens of the late ones whose expiry has come, by expiry.
    fn late_due(
        &self,
        holds: &HoldList,
        alloc: Global,
        now: u64,
    ) -> Result<BTreeMap<(u64, u32), Token>, AllocError>
        requires { AreInOrder holds.now self.now.places.items self.now.late }
        ensures { IfOk result (λ due. AreLateDue holds.now self.now.late now due.entries) }
    {
        let mut due = BTreeMap::new(alloc);
        for (expiry, place) in self.late.iter() {
            if expiry.0 > now {
                break;
            }
            due.insert(*expiry, holds.at(*place as usize).txn.token)?;
        }
        Ok(due)
    }

    /// Adds the tokens of the live ones in the queue whose expiry has come.
    fn add_queued(
        &self,
        due: &mut BTreeMap<(u64, u32), Token>,
        holds: &HoldList,
        now: u64,
    ) -> Result<(), AllocError>
        requires { AreInOrder holds.now self.now.places.items self.now.late }
        ensures { OnOk result (AddsQueued holds.now self.now.places.items now due.old.entries due.new.entries) }
    {
        for place in self.places.iter() {
            let hold = holds.at(*place as usize);
            if hold.txn.expires > now {
                return Ok(());
            }
            if hold.live {
                due.insert((hold.txn.expires, hold.txn.origin), hold.txn.token)?;
            }
        }
        Ok(())
    }

    /// Whether a transaction expires after all that are in the queue.
    fn comes_last(&self, holds: &HoldList, txn: &Txn) -> bool
        requires { AreInOrder holds.now self.now.places.items self.now.late }
        ensures { IsTrue result → ComesLast holds.now self.now.places.items (txn.now.expires, txn.now.origin) }
    {
        match self.places.back() {
            Some(place) => expires_before(holds.expiry_at(*place as usize), txn),
            None => true,
        }
    }

    /// Whether the first expiry of the queue has come.
    fn is_first_due(&self, holds: &HoldList, now: u64) -> bool
        requires order { AreInOrder holds.now self.now.places.items self.now.late }
        requires first { BeginsLive holds.now self.now.places.items }
        ensures { TellsQueued holds.now self.now.places.items now result }
    {
        match self.places.front() {
            Some(place) => holds.expiry_at(*place as usize).0 <= now,
            None => false,
        }
    }
}

/// Whether an expiry comes before a transaction's.
fn expires_before(expiry: (u64, u32), txn: &Txn) -> bool
    ensures { IsTrue result → by_expiry expiry (txn.now.expires, txn.now.origin) ≡ Less }
{
    expiry.0 < txn.expires || expiry.0 == txn.expires && expiry.1 < txn.origin
}

/// Adds the hold of a transaction that begins, and its place to the queue, or neither if an allocation fails.
fn push(
    places: &mut VecDeque<u32>,
    holds: &mut HoldList,
    txn: &Txn,
    place: u32,
) -> Result<(), AllocError>
    requires unknown { place_of txn.now.token (names holds.old) ≡ None }
    ensures added { OnOk result (holds.new ≡ holds.old ++ begun txn.now ∷ []) }
    ensures pushed { OnOk result (places.new.items ≡ places.old.items ++ place ∷ []) }
    ensures holds_stay { OnErr result (holds.new ≡ holds.old) }
    ensures places_stay { OnErr result (places.new.items ≡ places.old.items) }
{
    places.reserve(1)?;
    holds.add(txn)?;
    places.push_back(place)?;
    Ok(())
}

/// Adds the hold of a transaction that begins, and enters its place by its expiry, or neither if an allocation fails.
fn enter(
    late: &mut BTreeMap<(u64, u32), u32>,
    holds: &mut HoldList,
    txn: &Txn,
    place: u32,
) -> Result<(), AllocError>
    requires unknown { place_of txn.now.token (names holds.old) ≡ None }
    requires unordered { tree.get by_expiry late.old (txn.now.expires, txn.now.origin) ≡ None }
    ensures added { OnOk result (holds.new ≡ holds.old ++ begun txn.now ∷ []) }
    ensures entered { OnOk result (late.new.entries ≡ tree.insert_entry by_expiry late.old.entries (key_of (begun txn.now)) place) }
    ensures rising { tree.IsOrdered by_expiry late.old → tree.IsOrdered by_expiry late.new }
    ensures holds_stay { OnErr result (holds.new ≡ holds.old) }
    ensures late_stay { OnErr result (late.new.entries ≡ late.old.entries) }
{
    let expiry = (txn.expires, txn.origin);
    late.insert(expiry, place)?;
    let Ok(()) = holds.add(txn) else {
        late.remove(&expiry);
        return Err(AllocError);
    };
    Ok(())
}
