//! The holds with the indexes beside them.
ghost use Rattle.std.specs.Prelude.{◌≡◌, ◌<◌, ◌^◌, ◌==◌, [], ◌∷◌, ◌++◌, false, map, set, slice_get, Some, None, IsSome, IfOk, OnOk, OnErr};
ghost use Rattle.std.specs.List.{list_any};
ghost use Rattle.std.specs.Option.{option_map};
ghost use Rattle.iss_model.specs.Currencies.{iso_number};
ghost use Rattle.iss_model.specs.rules.Activity.{txn_named};
ghost use Rattle.iss_hold.specs.Expiries.{AreDue};
ghost use Rattle.iss_hold.specs.Holdings.{begun, txn_of_hold, holdings_of};
ghost use Rattle.iss_hold.specs.Indexes.{total_of, IsAt, IsIndexed};
ghost use Rattle.iss_hold.specs.Restoring.{hold_with, live_with};

use crate::hold::Hold;
use crate::indexes::{begin_sum, change_sum, place_after, user_key};
use crate::list::HoldList;
use crate::queue::ExpiryQueue;
use iss_model::{Token, Txn, TxnSums};
use std::alloc::{AllocError, Global};
use std::collections::BTreeMap;

/// What the transactions hold, in the order in which they began, with the sums of their users and the live ones by
/// expiry.
#[derive(Drop)]
pub(crate) struct Table {
    pub(crate) holds: HoldList,
    pub(crate) sums: BTreeMap<(Token, u16), u64>,
    pub(crate) expiries: ExpiryQueue,
}

impl Table {
    /// The place of a transaction that was started, and what it holds.
    #[inline(always)]
    pub(crate) fn hold_of(&self, txn: &Token) -> (usize, Hold)
        requires indexed { IsIndexed self.now }
        requires started { IsSome (txn_named txn.now (map txn_of_hold self.now.holds)) }
        ensures { IsAt txn.now self.now.holds result.0 result.1 }
    {
        match self.holds.find_last(txn) {
            Some(place) => (place as usize, self.holds.at(place as usize)),
            None => unreachable!(),
        }
    }

    /// Puts a hold in the place of another of its transaction, and changes its user's sum by as much.
    #[inline(always)]
    pub(crate) fn change(&mut self, place: usize, hold: Hold)
        requires indexed { IsIndexed self.old }
        requires same { option_map txn_of_hold (slice_get self.old.holds place) ≡ Some (txn_of_hold hold) }
        requires low { total_of hold.txn.user (iso_number hold.txn.currency) (set self.old.holds place hold) < 2 ^ 62 }
        ensures indexed { IsIndexed self.new }
        ensures put { self.new.holds ≡ set self.old.holds place hold }
    {
        let user = user_key(&hold.txn.user, hold.txn.currency);
        let before = self.holds.whole_at(place);
        change_sum(&mut self.sums, &user, before, hold.whole());
        self.holds.put(place, &hold);
    }

    /// Begins a transaction. If an allocation fails, the holds stay as they were.
    #[inline(always)]
    pub(crate) fn start(&mut self, txn: &Txn) -> Result<(), AllocError>
        requires indexed { IsIndexed self.old }
        requires unknown { txn_named txn.now.token (map txn_of_hold self.old.holds) ≡ None }
        requires origin { list_any (λ t. txn.now.origin == t.txn.origin) (map txn_of_hold self.old.holds) ≡ false }
        ensures started { OnOk result (self.new.holds ≡ self.old.holds ++ begun txn.now ∷ []) }
        ensures unchanged { OnErr result (self.new.holds ≡ self.old.holds) }
        ensures indexed { IsIndexed self.new }
    {
        let place = place_after(self.holds.len())?;
        begin_sum(&mut self.sums, user_key(&txn.user, txn.currency))?;
        self.expiries.start(&mut self.holds, txn, place)
    }

    /// Ends the transaction at a place.
    pub(crate) fn end(&mut self, place: usize, hold: &Hold)
        requires indexed { IsIndexed self.old }
        requires there { slice_get self.old.holds place ≡ Some hold.now }
        ensures indexed { IsIndexed self.new }
        ensures ended { self.new.holds ≡ set self.old.holds place (record (hold.now) { live = false }) }
    {
        let expiry = (hold.txn.expires, hold.txn.origin);
        self.expiries.late.remove(&expiry);
        self.holds.put(place, &hold.ended());
        self.expiries.drop_ended(&self.holds);
    }

    /// Takes a transaction up again with what it holds. If an allocation fails, the holds stay as they were.
    pub(crate) fn restore(&mut self, txn: &Txn, sums: &TxnSums) -> Result<(), AllocError>
        requires indexed { IsIndexed self.old }
        requires unknown { txn_named txn.now.token (map txn_of_hold self.old.holds) ≡ None }
        requires origin { list_any (λ t. txn.now.origin == t.txn.origin) (map txn_of_hold self.old.holds) ≡ false }
        requires low { total_of txn.now.user (iso_number txn.now.currency) (self.old.holds ++ hold_with txn.now sums.now ∷ []) < 2 ^ 62 }
        ensures restored { OnOk result (self.new.holds ≡ self.old.holds ++ hold_with txn.now sums.now ∷ []) }
        ensures unchanged { OnErr result (self.new.holds ≡ self.old.holds) }
        ensures indexed { IsIndexed self.new }
    {
        let place = self.holds.len();
        self.start(txn)?;
        let hold = live_hold(txn, sums);
        self.change(place, hold);
        if sums.live {
            return Ok(());
        }
        self.end(place, &hold);
        Ok(())
    }

    /// The live transactions whose expiry has come, by expiry and then by the number of the authorisation's record.
    pub(crate) fn due(&self, alloc: Global, now: u64) -> Result<Vec<Token>, AllocError>
        requires { IsIndexed self.now }
        ensures { IfOk result (λ v. AreDue (holdings_of self.now.holds) now v.items) }
    {
        self.expiries.due(&self.holds, alloc, now)
    }
}

/// What a transaction with these sums holds while it is live.
fn live_hold(txn: &Txn, sums: &TxnSums) -> Hold
    ensures { result ≡ live_with txn.now sums.now }
{
    Hold {
        txn: *txn,
        live: true,
        g: sums.g,
        p: sums.p,
        s: sums.s,
    }
}
