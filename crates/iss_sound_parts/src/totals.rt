//! What is open in a state, in all.
ghost use Rattle.std.specs.Prelude.{◌≡◌, ◌↔◌, ◌≤◌, ◌<◌, ◌^◌, ◌+◌, length, IsSome, IfSome, if◌then◌else◌};
ghost use Rattle.iss_model.specs.rules.Activity.{is_asked};
ghost use Rattle.iss_states.specs.Order.{AreInOrder};
ghost use Rattle.iss_states.specs.Rebuilding.{rebuilt};
ghost use Rattle.iss_noticed.specs.Commitments.{committed_in, held_together, most_of_records};
ghost use Rattle.iss_bounded.specs.Bounds.{asked_amounts, asked_number, open_amount};
ghost use Rattle.iss_known.specs.Known.{IsKnownOf, IsReadAgain};
ghost use Rattle.iss_sound_parts.specs.Totals.{IsOpenIn, if_within, live_carried, open_of};

use crate::asked::is_asked;
use iss_known::{CallKnown, Known};
use iss_model::limits::GREATEST_AMOUNT;
use iss_model::{Carried, State};

/// What is open in a state. Amounts are in minor units.
#[derive(Clone, Copy, Debug, PartialEq, Eq)]
pub struct Open {
    /// What its transactions hold and its asked calls ask, together.
    pub amount: u64,
    /// What its asked calls ask.
    pub asked_amount: u64,
    /// How many calls are asked.
    pub asked: u32,
    /// How many transactions are live.
    pub live: u32,
}

/// What is open in a state, or `None` if that is more than the greatest amount for each of its records.
pub fn open_in(state: &State, known: &Known) -> Option<Open>
    requires order { AreInOrder state.now }
    requires again { IsReadAgain state.now }
    requires known { IsKnownOf known.now (rebuilt state.now) }
    ensures opened { IsSome result ↔ open_amount state.entry.now ≤ most_of_records state.entry.now.records }
    ensures held { IsSome result ↔ committed_in state.entry.now ≤ most_of_records state.entry.now.records }
    ensures value { IfSome result (λ o. IsOpenIn o state.entry.now) }
{
    open_of(&state.txns.0, known.calls(), most_of_records(state.records))
}

/// What these transactions and calls have open, or `None` if that is more than `most`.
fn open_of(txns: &[Carried], calls: &[CallKnown], most: u64) -> Option<Open>
    requires txns { length txns.now < 2 ^ 32 }
    requires calls { length calls.now < 2 ^ 32 }
    ensures { result ≡ open_of most txns.now calls.now }
{
    let held = held_within(txns, most)?;
    let asked_amount = asked_within(calls, most)?;
    let amount = sum_within(held, asked_amount, most)?;
    Some(Open {
        amount,
        asked_amount,
        asked: asked_number(calls),
        live: live_number(txns),
    })
}

/// The greatest amount for each of these records.
fn most_of_records(records: u32) -> u64
    ensures { result ≡ most_of_records records }
{
    u64::from(records) * GREATEST_AMOUNT
}

/// What these transactions hold together, or `None` if that is more than `most`.
fn held_within(txns: &[Carried], most: u64) -> Option<u64>
    ensures { result ≡ if_within most (held_together txns.now) }
{
    let mut sum = 0;
    for carried in txns {
        let sums = &carried.sums;
        let with_gateway = sum_within(sum, sums.g, most)?;
        let with_programme = sum_within(with_gateway, sums.p, most)?;
        sum = sum_within(with_programme, sums.s, most)?;
    }
    Some(sum)
}

/// What the asked ones of these calls ask together, or `None` if that is more than `most`.
fn asked_within(calls: &[CallKnown], most: u64) -> Option<u64>
    ensures { result ≡ if_within most (asked_amounts calls.now) }
{
    let mut sum = 0;
    for call in calls {
        sum = sum_within(sum, asked_amount(call), most)?;
    }
    Some(sum)
}

/// What a call asks, nothing if it has been closed.
fn asked_amount(call: &CallKnown) -> u64
    ensures { result ≡ (if is_asked call.now then call.now.opened.amount else 0) }
{
    if is_asked(call) {
        call.opened.amount
    } else {
        0
    }
}

/// A sum, or `None` if it is more than `most`. The first summand is no more than that.
fn sum_within(sum: u64, more: u64, most: u64) -> Option<u64>
    requires { sum ≤ most }
    ensures { result ≡ if_within most (sum + more) }
{
    if more > most - sum {
        return None;
    }
    Some(sum + more)
}

/// How many of these calls are asked.
fn asked_number(calls: &[CallKnown]) -> u32
    requires { length calls.now < 2 ^ 32 }
    ensures { result ≡ asked_number calls.now }
{
    let mut number = 0;
    for call in calls {
        number += one_if(is_asked(call));
    }
    number
}

/// How many of these transactions are live.
fn live_number(txns: &[Carried]) -> u32
    requires { length txns.now < 2 ^ 32 }
    ensures { result ≡ live_carried txns.now }
{
    let mut number = 0;
    for carried in txns {
        number += one_if(carried.sums.live);
    }
    number
}

/// 1 if that is so, and else 0.
fn one_if(is_so: bool) -> u32
    ensures { result ≡ (if is_so then 1 else 0) }
{
    if is_so { 1 } else { 0 }
}
