//! What events come to for each transaction.
ghost use Rattle.std.specs.Prelude.{◌≡◌, ◌≤◌, ◌+◌, ◌<◌, ◌^◌, true, length, IfOk, OnOk, Some};
ghost use Rattle.std.specs.List.{list_all};
ghost use Rattle.iss_model.specs.declared.limits.TheConstants.{GREATEST_AMOUNT, MOST_RECORDS};
ghost use Rattle.iss_states.specs.Rebuilding.{is_done};
ghost use Rattle.iss_sound_events.specs.Totals.{AreTotalsOf, HaveRoom, IsWithin, is_small, is_small_seen};
ghost use Rattle.iss_sound_events.specs.Totals.{approved_of, asked_total, done_of, plus, total_of};
ghost use Rattle.iss_sound_events.specs.Totals.{with_seen_total, with_worth, worth_of};

use iss_index::Index;
use iss_model::{Input, Named, Seen, Token, Verdict};
use std::alloc::{AllocError, Global};

/// What events come to for a transaction, in minor units.
#[derive(Clone, Copy)]
pub(crate) struct Total {
    txn: Token,
    /// What its asks were approved for.
    pub(crate) approved: u64,
    /// What its done clearings come to.
    pub(crate) cleared: u64,
    /// What its done refunds come to.
    pub(crate) refunded: u64,
}

impl Named for Total {
    ghost name_of = { λ total. total.txn };

    fn name(&self) -> &Token {
        &self.txn
    }
}

/// What these events come to, for each transaction that one of them names. There is room for `count` of them.
pub(crate) fn totals_of(
    alloc: Global,
    events: &[Seen],
    count: usize,
) -> Result<Index<Total>, AllocError>
    requires few { length events.now ≤ MOST_RECORDS }
    requires small { list_all is_small_seen events.now ≡ true }
    ensures { IfOk result (λ totals. AreTotalsOf totals events.now) }
{
    let mut totals = Index::with_room(alloc, count)?;
    for event in events {
        add_event(&mut totals, event)?;
    }
    Ok(totals)
}

/// What a transaction comes to. It is likely to stand at this place.
pub(crate) fn total_of(totals: &Index<Total>, txn: &Token, near: usize) -> Total
    ensures { result ≡ total_of txn.now totals.now }
{
    match totals.get_near(txn, near) {
        Some(total) => *total,
        None => Total {
            txn: *txn,
            approved: 0,
            cleared: 0,
            refunded: 0,
        },
    }
}

fn add_event(totals: &mut Index<Total>, event: &Seen) -> Result<(), AllocError>
    requires room { HaveRoom totals.old }
    requires small { is_small_seen event.now ≡ true }
    ensures { OnOk result (totals.new ≡ with_seen_total event.now totals.old) }
{
    match worth_of(event) {
        Some(worth) => add(totals, &worth),
        None => Ok(()),
    }
}

fn add(totals: &mut Index<Total>, worth: &Total) -> Result<(), AllocError>
    requires room { HaveRoom totals.old }
    requires small { is_small (Some worth.now) ≡ true }
    ensures { OnOk result (totals.new ≡ with_worth worth.now totals.old) }
{
    match totals.get(&worth.txn) {
        Some(total) => {
            let sum = total.plus(worth);
            totals.set(sum);
            Ok(())
        }
        None => totals.add(*worth),
    }
}

impl Total {
    fn plus(&self, worth: &Total) -> Total
        requires room { IsWithin (2 ^ 63) self.now }
        requires small { is_small (Some worth.now) ≡ true }
        ensures { result ≡ plus worth.now self.now }
    {
        Total {
            txn: self.txn,
            approved: self.approved + worth.approved,
            cleared: self.cleared + worth.cleared,
            refunded: self.refunded + worth.refunded,
        }
    }
}

/// What an event comes to for its transaction, if it is an ask, a clearing or a refund.
fn worth_of(event: &Seen) -> Option<Total>
    ensures { result ≡ worth_of event.now }
{
    match &event.body.input {
        Input::Authorization { token, amount, .. } => {
            Some(asked_total(token, event.verdict, *amount))
        }
        Input::Increment { txn, amount, .. } => Some(asked_total(txn, event.verdict, *amount)),
        Input::Clearing { txn, amount, .. } => Some(Total {
            txn: *txn,
            approved: 0,
            cleared: done_of(event.verdict, *amount),
            refunded: 0,
        }),
        Input::Refund { txn, amount, .. } => Some(Total {
            txn: *txn,
            approved: 0,
            cleared: 0,
            refunded: done_of(event.verdict, *amount),
        }),
        _ => None,
    }
}

fn asked_total(txn: &Token, verdict: Option<Verdict>, asked: u64) -> Total
    ensures { result ≡ asked_total txn.now verdict asked }
{
    Total {
        txn: *txn,
        approved: approved_of(verdict, asked),
        cleared: 0,
        refunded: 0,
    }
}

/// What an ask for this amount was approved for: all of it, a part, or nothing.
fn approved_of(verdict: Option<Verdict>, asked: u64) -> u64
    ensures { result ≡ approved_of verdict asked }
{
    match verdict {
        Some(Verdict::Approved) => asked,
        Some(Verdict::Partial(_, amount)) => amount,
        _ => 0,
    }
}

/// This amount, if it was done.
fn done_of(verdict: Option<Verdict>, amount: u64) -> u64
    ensures { result ≡ done_of verdict amount }
{
    if is_done(verdict) { amount } else { 0 }
}

pub(crate) fn is_done(verdict: Option<Verdict>) -> bool
    ensures { result ≡ is_done verdict }
{
    matches!(verdict, Some(Verdict::Done))
}
