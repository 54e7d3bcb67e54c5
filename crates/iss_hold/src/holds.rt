//! All transactions with what they hold.
ghost use Rattle.std.specs.Prelude.{◌≡◌, ◌<◌, ◌^◌, ◌==◌, [], false, not, length, map, slice_get, IsSome, IfSome, Some, None, IfOk, OnOk, OnErr};
ghost use Rattle.std.specs.List.{list_any, IsDistinct};
ghost use Rattle.std.specs.Str.{bytes_eq};
ghost use Rattle.std.specs.Option.{option_map};
ghost use Rattle.iss_model.specs.Sums.{part_key, user_key};
ghost use Rattle.iss_model.specs.state.Kept.{nothing_kept, kept_at};
ghost use Rattle.iss_model.specs.rules.Activity.{txn_named};
ghost use Rattle.iss_model.specs.rules.Facts.{not_below};
ghost use Rattle.iss_model.specs.rules.Due.{txn_due, is_quiet};
ghost use Rattle.iss_model.specs.rules.Pieces.{hold_entries};
ghost use Rattle.iss_model.specs.state.Cores.{with_txn, with_end};
ghost use Rattle.iss_hold.specs.Bounds.{AreLow};
ghost use Rattle.iss_hold.specs.Holdings.{txn_of_hold, tokens, parts_of_hold, whole_of};
ghost use Rattle.iss_hold.specs.Indexes.{place_in};
ghost use Rattle.iss_hold.specs.Entries.{after_holds, change_entries, IsHoldCovered, parts_in, cleared_parts, released_parts, taken_in_all, clearing_unhold_entries, release_unhold_entries};
ghost use Rattle.iss_hold.specs.Expiries.{txns_due};
ghost use Rattle.iss_hold.specs.Restoring.{with_carried};

use crate::hold::{Hold, Taken};
use crate::indexes::{sum_of, user_key};
use crate::list::HoldList;
use crate::queue::ExpiryQueue;
use crate::table::Table;
use iss_model::{Currency, Part, Token, Txn, TxnSums};
use std::alloc::{AllocError, Global};
use std::collections::BTreeMap;
use std::marker::Model;

/// The transactions in the order in which they began, and what they hold of their users.
///
/// Contracts see the transactions, the sums by part and the sums by user and currency.
#[derive(Drop)]
pub struct Holds {
    table: Table,
}

impl Model for Holds {
    ghost use Rattle.iss_model.specs.state.Cores.{Holdings};
    ghost use Rattle.iss_hold.specs.Codes.{holdings_code};

    ghost Value = { Holdings };

    ghost coded = { holdings_code };

    ghost use Rattle.iss_hold.specs.Holdings.{holdings_of};
    ghost use Rattle.iss_hold.specs.Indexes.{IsIndexed};

    ghost view = { λ h. holdings_of h.table.holds };

    ghost invariant = { λ h. IsIndexed h.table };
}

impl Holds {
    /// No transaction.
    pub fn new(alloc: Global) -> Result<Holds, AllocError>
        ensures { IfOk result (λ h. h ≡ record { txns = []; parts = nothing_kept; held = nothing_kept }) }
    {
        Ok(Holds {
            table: Table {
                holds: HoldList::new(alloc),
                sums: BTreeMap::new(alloc),
                expiries: ExpiryQueue::new(alloc),
            },
        })
    }

    /// No transaction, with room for this number of them. More may be started too.
    pub fn with_room(alloc: Global, count: usize) -> Result<Holds, AllocError>
        ensures { IfOk result (λ h. h ≡ record { txns = []; parts = nothing_kept; held = nothing_kept }) }
    {
        Ok(Holds {
            table: Table {
                holds: HoldList::with_room(alloc, count)?,
                sums: BTreeMap::new(alloc),
                expiries: ExpiryQueue::new(alloc),
            },
        })
    }

    /// How many transactions were started.
    pub fn len(&self) -> usize
        ensures { result ≡ length self.now.txns }
    {
        self.table.holds.len()
    }

    /// A transaction with what it holds, `None` exactly if it wasn't started.
    pub fn get(&self, txn: &Token) -> Option<Hold>
        ensures txn { option_map (λ hold. txn_of_hold hold) result ≡ txn_named txn.now self.now.txns }
        ensures parts { IfSome result (λ hold. parts_of_hold hold ≡ parts_in self.now txn.now) }
        ensures small { IfSome result (λ hold. whole_of hold < 2 ^ 62) }
    {
        let place = self.table.holds.find(txn)?;
        Some(self.table.holds.at(place as usize))
    }

    /// The place of a transaction in the order in which they began, `None` exactly if it wasn't started.
    pub fn place(&self, txn: &Token) -> Option<usize>
        ensures place { result ≡ place_in txn.now (tokens self.now.txns) }
        ensures once { IsDistinct bytes_eq (tokens self.now.txns) }
    {
        let place = self.table.holds.find(txn)?;
        Some(place as usize)
    }

    /// The transaction at a place with what it holds.
    pub fn at(&self, place: usize) -> Hold
        requires { place < length self.now.txns }
        ensures txn { slice_get self.now.txns place ≡ Some (txn_of_hold result) }
        ensures parts { parts_of_hold result ≡ parts_in self.now result.txn.token }
        ensures small { whole_of result < 2 ^ 62 }
        ensures once { IsDistinct bytes_eq (tokens self.now.txns) }
    {
        self.table.holds.at(place)
    }

    /// The transaction of a token, `None` exactly if it wasn't started.
    pub fn txn(&self, txn: &Token) -> Option<Txn>
        ensures { result ≡ option_map (λ t. t.txn) (txn_named txn.now self.now.txns) }
    {
        self.get(txn).map(|hold| hold.txn)
    }

    /// Begins a transaction, which holds nothing yet. The later calls on it take no memory. If an allocation
    /// fails, all stays as it was, and so if 2^32 - 1 transactions stand, as many as places are kept for.
    pub fn start(&mut self, txn: &Txn) -> Result<(), AllocError>
        requires unknown { txn_named txn.now.token self.old.txns ≡ None }
        requires origin { list_any (λ t. txn.now.origin == t.txn.origin) self.old.txns ≡ false }
        ensures started { OnOk result (self.new ≡ with_txn self.old txn.now) }
        ensures unchanged { OnErr result (self.new ≡ self.old) }
    {
        self.table.start(txn)
    }

    /// Takes a transaction up again with what it holds. If an allocation fails, all stays as it was, and so if 2^32 - 1
    /// transactions stand.
    pub fn restore(&mut self, txn: &Txn, sums: &TxnSums) -> Result<(), AllocError>
        requires unknown { txn_named txn.now.token self.old.txns ≡ None }
        requires origin { list_any (λ t. txn.now.origin == t.txn.origin) self.old.txns ≡ false }
        requires small { AreLow (with_carried self.old txn.now sums.now).held }
        ensures restored { OnOk result (self.new ≡ with_carried self.old txn.now sums.now) }
        ensures unchanged { OnErr result (self.new ≡ self.old) }
    {
        self.table.restore(txn, sums)
    }

    /// Holds more in a part of a transaction.
    pub fn add(&mut self, txn: &Token, part: Part, amount: u64)
        requires started { IsSome (txn_named txn.now self.old.txns) }
        requires small { AreLow (after_holds self.old txn.now (λ t. hold_entries t part amount)).held }
        ensures { self.new ≡ after_holds self.old txn.now (λ t. hold_entries t part amount) }
    {
        let (place, hold) = self.table.hold_of(txn);
        let more = hold.with_more(part, amount);
        self.table.change(place, more);
    }

    /// Changes a part of a transaction by an amount, which is negative if it is let go.
    pub fn change(&mut self, txn: &Token, part: Part, amount: i64)
        requires started { IsSome (txn_named txn.now self.old.txns) }
        requires covered { IsHoldCovered amount (not_below (kept_at self.old.parts (part_key txn.now part))) }
        requires small { AreLow (after_holds self.old txn.now (change_entries part amount)).held }
        ensures { self.new ≡ after_holds self.old txn.now (change_entries part amount) }
    {
        let (place, hold) = self.table.hold_of(txn);
        let changed = hold.with_change(part, amount);
        self.table.change(place, changed);
    }

    /// Lets up to an amount go for a clearing: of the gateway's part first, then of the programme's, then of the
    /// user's own.
    pub fn take_clear(&mut self, txn: &Token, amount: u64) -> Taken
        requires { IsSome (txn_named txn.now self.old.txns) }
        ensures holdings { self.new ≡ after_holds self.old txn.now (clearing_unhold_entries (cleared_parts self.old txn.now amount)) }
        ensures taken { result ≡ taken_in_all (cleared_parts self.old txn.now amount) amount }
    {
        let (place, hold) = self.table.hold_of(txn);
        let taken = hold.taken_to_clear(amount);
        let left = hold.without(&taken);
        self.table.change(place, left);
        taken
    }

    /// Lets up to an amount go for a release: of the programme's part first, then of the gateway's, then of the
    /// user's own.
    pub fn take_release(&mut self, txn: &Token, amount: u64) -> Taken
        requires { IsSome (txn_named txn.now self.old.txns) }
        ensures holdings { self.new ≡ after_holds self.old txn.now (release_unhold_entries (released_parts self.old txn.now amount)) }
        ensures taken { result ≡ taken_in_all (released_parts self.old txn.now amount) amount }
    {
        let (place, hold) = self.table.hold_of(txn);
        let taken = hold.taken_to_release(amount);
        let left = hold.without(&taken);
        self.table.change(place, left);
        taken
    }

    /// Ends a transaction. What it still holds stays.
    pub fn end(&mut self, txn: &Token)
        requires { IsSome (txn_named txn.now self.old.txns) }
        ensures { self.new ≡ with_end self.old txn.now }
    {
        let (place, hold) = self.table.hold_of(txn);
        self.table.end(place, &hold);
    }

    /// What a transaction holds in a part, in minor units.
    pub fn part(&self, txn: &Token, part: Part) -> i64
        requires { IsSome (txn_named txn.now self.now.txns) }
        ensures { result ≡ kept_at self.now.parts (part_key txn.now part) }
    {
        let (_, hold) = self.table.hold_of(txn);
        hold.part(part) as i64
    }

    /// What all transactions of a user hold in a currency, in minor units.
    pub fn held_by(&self, user: &Token, currency: Currency) -> i64
        ensures { result ≡ kept_at self.now.held (user_key user.now currency) }
    {
        sum_of(&self.table.sums, &user_key(user, currency)) as i64
    }

    /// Whether the expiry of a live transaction has come.
    pub fn is_due(&self, now: u64) -> bool
        ensures { result ≡ not (is_quiet (txns_due self.now now)) }
    {
        self.table.expiries.is_due(&self.table.holds, now)
    }

    /// The live transactions whose expiry has come, by expiry and then by the number of the authorisation's record.
    pub fn due(&self, alloc: Global, now: u64) -> Result<Vec<Token>, AllocError>
        ensures { IfOk result (λ v. map (λ token. txn_due token) v.items ≡ map (λ item. item.thing) (txns_due self.now now)) }
    {
        self.table.due(alloc, now)
    }
}
