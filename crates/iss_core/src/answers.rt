//! The entries of the gateway's answers, and of calls and transactions that end.
ghost use Rattle.std.specs.Prelude.{◌≡◌, ◌+◌, ◌<◌, ◌^◌, true, nat_lt, length, IfSome, IfOk, OnOk, IsTrue};
ghost use Rattle.std.specs.List.{list_all};
ghost use Rattle.iss_model.specs.Forms.{is_stamp};
ghost use Rattle.iss_model.specs.rules.Facts.{call_in, next_notice};
ghost use Rattle.iss_model.specs.rules.CardActs.{answer_acts, counts_as_part, failed_acts, outcome_acts};
ghost use Rattle.iss_model.specs.rules.Due.{expiry_acts};
ghost use Rattle.iss_model.specs.rules.Pieces.{notice_after_abandonment};
ghost use Rattle.iss_core.specs.States.{facts_of, kept_state};
ghost use Rattle.iss_core.specs.Cards.{IsHeld};
ghost use Rattle.iss_core.specs.Order.{IsInOrder};
ghost use Rattle.iss_core.specs.Answers.{asked_with, abandoned_entries, abandonment_entries};
ghost use Rattle.iss_core.specs.Adding.{Adds, AddsActs};

use crate::asks::Ask;
use crate::pieces::{
    put_abandoned, put_declined_ask, put_funded_ask, put_notice_of_some, put_part_funded, put_void,
};
use crate::state::State;
use iss_chain::pieces;
use iss_hold::Hold;
use iss_model::{CallId, Currency, Entry, Failure, How, Method, Opened, Outcome, Reason, Txn};
use std::alloc::{AllocError, Global};

impl State {
    /// The gateway's answer to a call that is asked.
    pub(crate) fn put_answer(
        &self,
        out: &mut Vec<Entry>,
        call: CallId,
        outcome: Outcome,
        at: u64,
    ) -> Result<(), AllocError>
        requires order { IsInOrder (kept_state self.now) }
        requires stamp { IsTrue (is_stamp at) }
        ensures { OnOk result (AddsActs out.old out.new (answer_acts call outcome at (facts_of self.now))) }
    {
        match self.asked(call) {
            None => Ok(()),
            Some((opened, txn)) => self.put_outcome(out, outcome, &opened, &txn, at),
        }
    }

    /// A call that is asked, with its transaction.
    pub(crate) fn asked(&self, call: CallId) -> Option<(Opened, Txn)>
        requires order { IsInOrder (kept_state self.now) }
        ensures known { result ≡ asked_with (call_in (facts_of self.now) call.0) (facts_of self.now) }
        ensures small { IfSome result (λ x. x.0.amount < 2 ^ 62) }
    {
        let call = self.call(call)?;
        if call.how.is_some() {
            return None;
        }
        let hold = self.hold(&call.opened.txn)?;
        Some((call.opened, hold.txn))
    }

    fn put_outcome(
        &self,
        out: &mut Vec<Entry>,
        outcome: Outcome,
        opened: &Opened,
        txn: &Txn,
        at: u64,
    ) -> Result<(), AllocError>
        requires order { IsInOrder (kept_state self.now) }
        requires amount { opened.now.amount < 2 ^ 62 }
        requires stamp { IsTrue (is_stamp at) }
        ensures { OnOk result (AddsActs out.old out.new (outcome_acts outcome (facts_of self.now) opened.now txn.now at)) }
    {
        match outcome {
            Outcome::Funded => {
                out.push(Entry::Closed(opened.call, How::Funded))?;
                put_funded_ask(out, &Ask::of_call(opened, txn))
            }
            Outcome::Refused => {
                out.push(Entry::Closed(opened.call, How::Refused))?;
                put_declined_ask(out, &Ask::of_call(opened, txn), Reason::GatewayDeclined)
            }
            Outcome::Connection => self.put_failed(out, opened, txn, Failure::Connection, at),
            Outcome::Partial(currency, amount) if counts_as_part(opened, currency, amount) => {
                out.push(Entry::Closed(opened.call, How::Partial(amount)))?;
                put_part_funded(out, opened, txn, amount)
            }
            Outcome::Application | Outcome::Partial(..) => {
                self.put_failed(out, opened, txn, Failure::Application, at)
            }
        }
    }

    /// A call fails: it is closed and voided, and the programme stands in or the ask is declined.
    pub(crate) fn put_failed(
        &self,
        out: &mut Vec<Entry>,
        opened: &Opened,
        txn: &Txn,
        failure: Failure,
        at: u64,
    ) -> Result<(), AllocError>
        requires order { IsInOrder (kept_state self.now) }
        requires amount { opened.now.amount < 2 ^ 62 }
        requires stamp { IsTrue (is_stamp at) }
        ensures { OnOk result (AddsActs out.old out.new (failed_acts (facts_of self.now) opened.now txn.now failure at)) }
    {
        let number = self.next_notice();
        out.push(Entry::Closed(opened.call, How::Failed(failure)))?;
        put_void(out, number, txn, opened)?;
        self.put_stand_in(out, number + 1, &Ask::of_call(opened, txn), failure, at)
    }

    /// A live transaction expires: it ends, and the gateway is told what was let go.
    pub(crate) fn put_expiry(
        &self,
        alloc: Global,
        out: &mut Vec<Entry>,
        hold: &Hold,
    ) -> Result<(), AllocError>
        requires order { IsInOrder (kept_state self.now) }
        requires held { IsHeld (kept_state self.now) hold.now }
        ensures { OnOk result (AddsActs out.old out.new (expiry_acts (facts_of self.now) hold.now.txn)) }
    {
        let txn = &hold.txn;
        let number = self.put_abandonment(alloc, out, self.next_notice(), txn, &Reason::Expired)?;
        pieces::end(out, hold)?;
        put_notice_of_some(out, number, Method::Expiry, txn, hold.whole(), hold.g)
    }

    /// The asked calls of a transaction are abandoned, with notices from this number on. Returns the number of the next notice.
    pub(crate) fn put_abandonment(
        &self,
        alloc: Global,
        out: &mut Vec<Entry>,
        number: u32,
        txn: &Txn,
        why: &Reason,
    ) -> Result<u32, AllocError>
        requires order { IsInOrder (kept_state self.now) }
        requires next { number ≡ next_notice (facts_of self.now) }
        ensures entries { OnOk result (Adds out.old out.new (abandonment_entries number (facts_of self.now) txn.now why.now)) }
        ensures next { IfOk result (λ n. n ≡ notice_after_abandonment number (facts_of self.now) txn.now) }
    {
        let asked = self.calls.asked_of(alloc, &txn.token)?;
        abandon(out, number, txn, why, &asked)
    }
}

/// Whether a part of a call's amount counts: if the call permits one, and it is in its currency and less than all. Any
/// other part is no answer.
fn counts_as_part(opened: &Opened, currency: Currency, amount: u64) -> bool
    ensures { result ≡ counts_as_part opened.now currency amount }
{
    opened.partial && currency == opened.currency && amount < opened.amount
}

/// Calls are abandoned one by one, with notices from this number on. Returns the number of the next notice.
fn abandon(
    out: &mut Vec<Entry>,
    number: u32,
    txn: &Txn,
    why: &Reason,
    asked: &[Opened],
) -> Result<u32, AllocError>
    requires room { number + length asked.now < 2 ^ 32 }
    requires amounts { list_all (λ o. nat_lt o.amount (2 ^ 62)) asked.now ≡ true }
    ensures entries { OnOk result (Adds out.old out.new (abandoned_entries number txn.now why.now asked.now)) }
    ensures next { IfOk result (λ n. n ≡ number + length asked.now) }
{
    let mut next = number;
    for opened in asked {
        put_abandoned(out, next, txn, why, opened)?;
        next += 1;
    }
    Ok(next)
}
