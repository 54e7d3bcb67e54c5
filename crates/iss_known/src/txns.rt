//! Transactions as they are known.
ghost use Rattle.std.specs.Prelude.{◌≡◌, [], ◌∷◌, ◌++◌, None, map, option_map, IfOk, OnOk, OnErr};
ghost use Rattle.iss_model.specs.rules.Activity.{txn_named};
ghost use Rattle.iss_well_formed.specs.Events.{both_or_neither};
ghost use Rattle.iss_known.specs.Reading.{are_listed, is_listed_as, live_at, live_if_named};

use iss_index::Names;
use iss_model::{Carried, Token, Txn};
use std::alloc::{AllocError, Global};
use std::marker::Model;

/// A transaction as it began, and whether it has not ended.
#[derive(Clone, Copy)]
pub struct TxnKnown {
    pub txn: Txn,
    pub live: bool,
}

impl Model for TxnKnown {
    ghost use Rattle.iss_model.specs.rules.Activity.{TxnNow};

    ghost Value = { TxnNow };

    ghost view = { λ t. record { txn = t.txn; live = t.live } };

    ghost inverse = { λ t. record { txn = t.txn; live = t.live } };

    ghost inverse_ok = { λ a h. λ i. a };
}

/// Transactions in the order in which they began, no two of one token. Contracts see their list.
#[derive(Drop)]
pub(crate) struct Txns {
    list: Vec<TxnKnown>,
    tokens: Names,
}

impl Model for Txns {
    ghost use Rattle.std.specs.Prelude.{◌≡◌, List, map};
    ghost use Rattle.iss_model.specs.rules.Activity.{TxnNow};

    ghost Value = { List TxnNow };

    ghost view = { λ t. t.list.items };

    ghost invariant = { λ t. t.tokens ≡ map (λ x. x.txn.token) t.list.items };
}

impl Txns {
    /// No transaction, with room for this number of them.
    pub(crate) fn with_room(alloc: Global, count: usize) -> Result<Txns, AllocError>
        ensures { IfOk result (λ txns. txns ≡ []) }
    {
        Ok(Txns {
            list: Vec::with_capacity(alloc, count)?,
            tokens: Names::with_room(alloc, count)?,
        })
    }

    pub(crate) fn as_slice(&self) -> &[TxnKnown]
        ensures { result.now ≡ self.now }
    {
        &self.list
    }

    pub(crate) fn into_list(self) -> Vec<TxnKnown>
        ensures { result.items ≡ self }
    {
        self.list
    }

    /// The transaction of that token, or `None` if there is none.
    pub(crate) fn get(&self, token: &Token) -> Option<&TxnKnown>
        ensures { option_map (λ found. found.now) result ≡ txn_named token.now self.now }
    {
        let place = self.tokens.find(token)?;
        Some(&self.list[place as usize])
    }

    /// The transaction of that token, which is likely to stand at this place, or `None` if there is none.
    pub(crate) fn get_near(&self, token: &Token, near: usize) -> Option<&TxnKnown>
        ensures { option_map (λ found. found.now) result ≡ txn_named token.now self.now }
    {
        let place = self.tokens.find_near(token, near)?;
        Some(&self.list[place as usize])
    }

    /// Adds a transaction of a new token after the others. If an allocation fails, all stays as it was.
    pub(crate) fn add(&mut self, txn: &Txn, live: bool) -> Result<(), AllocError>
        requires { txn_named txn.now.token self.old ≡ None }
        ensures added { OnOk result (self.new ≡ self.old ++ record { txn = txn.now; live = live } ∷ []) }
        ensures refused { OnErr result (self.new ≡ self.old) }
    {
        self.list.reserve(1)?;
        self.tokens.add(&txn.token)?;
        self.list.push(TxnKnown { txn: *txn, live })?;
        Ok(())
    }

    /// Whether these are the transactions that are listed, in their order, each live as it is there.
    pub(crate) fn are_listed(&self, txns: &[Carried]) -> bool
        ensures { result ≡ are_listed txns.now self.now }
    {
        are_listed(txns, &self.list)
    }
}

/// Whether the listed transaction at a place is live, or `None` if it hasn't this token.
pub(crate) fn live_at(listed: &[Carried], place: usize, token: &Token) -> Option<bool>
    ensures { result ≡ live_at listed.now place token.now }
{
    let next = listed.get(place)?;
    live_if_named(next, token)
}

fn live_if_named(carried: &Carried, token: &Token) -> Option<bool>
    ensures { result ≡ live_if_named token.now carried.now }
{
    if carried.txn == *token {
        Some(carried.sums.live)
    } else {
        None
    }
}

/// Whether these transactions are the listed ones, in their order, each live as it is there.
fn are_listed(listed: &[Carried], begun: &[TxnKnown]) -> bool
    ensures { result ≡ are_listed listed.now begun.now }
{
    if listed.len() != begun.len() {
        return false;
    }
    for (place, known) in begun.iter().enumerate() {
        if !is_listed_as(&listed[place], known) {
            return false;
        }
    }
    true
}

/// Whether a transaction is the listed one, and live as it is there.
fn is_listed_as(listed: &Carried, known: &TxnKnown) -> bool
    ensures { result ≡ is_listed_as listed.now known.now }
{
    listed.txn == known.txn.token && agree(listed.sums.live, known.live)
}

fn agree(a: bool, b: bool) -> bool
    ensures { result ≡ both_or_neither a b }
{
    if a { b } else { !b }
}
