//! Holds in a list that keeps each name once.
ghost use Rattle.std.specs.Prelude.{◌≡◌, ◌<◌, ◌^◌, [], ◌∷◌, ◌++◌, None, Some, IfOk, OnOk, OnErr, length, set, slice_get};
ghost use Rattle.std.specs.Option.{option_map};
ghost use Rattle.iss_index.specs.Places.{place_of};
ghost use Rattle.iss_index.specs.Grown.{IsGrown};
ghost use Rattle.iss_hold.specs.declared.hold.Hold.{Hold};
ghost use Rattle.iss_hold.specs.Holdings.{begun, whole_of};
ghost use Rattle.iss_hold.specs.Indexes.{names, key_of};
ghost use Rattle.iss_hold.specs.Named.{hold_in, IsNamed};

use crate::hold::Hold;
use iss_index::Names;
use iss_model::{Currency, Funding, Token, Txn};
use std::alloc::{AllocError, Global};
use std::marker::Model;

/// A hold, with the places of its transaction's names in place of the names. The transaction's own token stands at the same
/// place as the row, in a list of its own.
#[derive(Clone, Copy)]
pub(crate) struct HoldRow {
    live: bool,
    currency: Currency,
    funding: Funding,
    card: u32,
    user: u32,
    product: u32,
    mid: u32,
    origin: u32,
    mcc: u16,
    at: u64,
    expires: u64,
    g: u64,
    p: u64,
    s: u64,
}

/// Holds in the order in which their transactions began. Contracts see their list.
#[derive(Drop)]
pub(crate) struct HoldList {
    rows: Vec<HoldRow>,
    names: Names,
    tokens: Names,
}

impl Model for HoldList {
    ghost use Rattle.std.specs.Prelude.{List};
    ghost use Rattle.iss_hold.specs.declared.hold.Hold.{Hold};

    ghost Value = { List Hold };

    ghost use Rattle.iss_hold.specs.Named.{holds_in, AreKept};

    ghost view = { λ l. holds_in l.names l.tokens l.rows.items };

    ghost invariant = { λ l. AreKept l.names l.tokens l.rows.items };
}

impl HoldList {
    /// No hold.
    pub(crate) fn new(alloc: Global) -> HoldList
        ensures { result ≡ [] }
    {
        HoldList {
            rows: Vec::new(alloc),
            names: Names::new(alloc),
            tokens: Names::new(alloc),
        }
    }

    /// No hold, with room for this number of them.
    pub(crate) fn with_room(alloc: Global, count: usize) -> Result<HoldList, AllocError>
        ensures { IfOk result (λ list. list ≡ []) }
    {
        Ok(HoldList {
            rows: Vec::with_capacity(alloc, count)?,
            names: Names::new(alloc),
            tokens: Names::with_room(alloc, count)?,
        })
    }

    pub(crate) fn len(&self) -> usize
        ensures { result ≡ length self.now }
    {
        self.rows.len()
    }

    /// The place of a transaction, or `None` if it has no hold.
    pub(crate) fn find(&self, txn: &Token) -> Option<u32>
        ensures { result ≡ place_of txn.now (names self.now) }
    {
        self.tokens.find(txn)
    }

    /// The place of a transaction that is likely to be the last one, or `None` if it has no hold.
    pub(crate) fn find_last(&self, txn: &Token) -> Option<u32>
        ensures { result ≡ place_of txn.now (names self.now) }
    {
        self.tokens.find_last(txn)
    }

    /// The hold at a place.
    pub(crate) fn at(&self, place: usize) -> Hold
        requires { place < length self.now }
        ensures { slice_get self.now place ≡ Some result }
    {
        hold_of(&self.names, self.tokens.at(place), &self.rows[place])
    }

    /// All that the hold at a place holds, in minor units.
    pub(crate) fn whole_at(&self, place: usize) -> u64
        requires there { place < length self.now }
        requires fits { (hold : Hold) → slice_get self.now place ≡ Some hold → whole_of hold < 2 ^ 64 }
        ensures { option_map whole_of (slice_get self.now place) ≡ Some result }
    {
        let row = &self.rows[place];
        row.g + row.p + row.s
    }

    /// When the transaction at a place expires, and the number of its authorisation's record.
    pub(crate) fn expiry_at(&self, place: usize) -> (u64, u32)
        requires { place < length self.now }
        ensures { option_map key_of (slice_get self.now place) ≡ Some result }
    {
        let row = &self.rows[place];
        (row.expires, row.origin)
    }

    /// Whether the transaction at a place hasn't ended.
    pub(crate) fn is_live_at(&self, place: usize) -> bool
        requires { place < length self.now }
        ensures { option_map (λ hold. hold.live) (slice_get self.now place) ≡ Some result }
    {
        self.rows[place].live
    }

    /// Adds the hold of a transaction that begins. If an allocation fails, all stays as it was.
    pub(crate) fn add(&mut self, txn: &Txn) -> Result<(), AllocError>
        requires { place_of txn.now.token (names self.old) ≡ None }
        ensures added { OnOk result (self.new ≡ self.old ++ begun txn.now ∷ []) }
        ensures refused { OnErr result (self.new ≡ self.old) }
    {
        self.rows.reserve(1)?;
        let row = row_of(&mut self.names, txn, last_names(&self.rows))?;
        self.tokens.add(&txn.token)?;
        self.rows.push(row)?;
        Ok(())
    }

    /// Puts a hold in the place of another of its transaction.
    pub(crate) fn put(&mut self, place: usize, hold: &Hold)
        requires { option_map (λ h. h.txn) (slice_get self.old place) ≡ Some hold.now.txn }
        ensures { self.new ≡ set self.old place hold.now }
    {
        let row = self.rows[place];
        self.rows[place] = row.with_parts(hold);
    }
}

impl HoldRow {
    /// The row with what another hold of its transaction holds.
    fn with_parts(&self, hold: &Hold) -> HoldRow
        ensures { result ≡ record (self.now) { live = hold.now.live; g = hold.now.g; p = hold.now.p; s = hold.now.s } }
    {
        HoldRow {
            live: hold.live,
            g: hold.g,
            p: hold.p,
            s: hold.s,
            ..*self
        }
    }
}

/// The hold of a row and its transaction's token.
fn hold_of(names: &Names, token: &Token, row: &HoldRow) -> Hold
    requires { IsNamed names.now row.now }
    ensures { result ≡ hold_in names.now token.now row.now }
{
    let txn = Txn {
        token: *token,
        card: *names.at(row.card as usize),
        user: *names.at(row.user as usize),
        product: *names.at(row.product as usize),
        currency: row.currency,
        funding: row.funding,
        mcc: row.mcc,
        mid: *names.at(row.mid as usize),
        origin: row.origin,
        at: row.at,
        expires: row.expires,
    };
    Hold {
        txn,
        live: row.live,
        g: row.g,
        p: row.p,
        s: row.s,
    }
}

/// The places of the names that the last row has, which the next one is likely to have too.
fn last_names(rows: &[HoldRow]) -> [u32; 4] {
    match rows.last() {
        Some(row) => [row.card, row.user, row.product, row.mid],
        None => [0; 4],
    }
}

/// The row of a transaction that begins, whose names are likely to stand at these places. Names that have no place are added.
fn row_of(names: &mut Names, txn: &Txn, likely: [u32; 4]) -> Result<HoldRow, AllocError>
    ensures grown { IsGrown names.old names.new }
    ensures named { IfOk result (λ row. IsNamed names.new row) }
    ensures begun { IfOk result (λ row. hold_in names.new txn.now.token row ≡ begun txn.now) }
{
    let card = names.place_or_add(&txn.card, likely[0] as usize)?;
    let user = names.place_or_add(&txn.user, likely[1] as usize)?;
    let product = names.place_or_add(&txn.product, likely[2] as usize)?;
    let mid = names.place_or_add(&txn.mid, likely[3] as usize)?;
    Ok(HoldRow {
        card,
        user,
        product,
        mid,
        currency: txn.currency,
        funding: txn.funding,
        mcc: txn.mcc,
        origin: txn.origin,
        at: txn.at,
        expires: txn.expires,
        live: true,
        g: 0,
        p: 0,
        s: 0,
    })
}
