//! The entries of what follows an authorisation: increments, reversals, clearings and refunds.
ghost use Rattle.std.specs.Prelude.{◌≡◌, ◌<◌, ◌^◌, Some, IfOk, OnOk, IsTrue};
ghost use Rattle.iss_model.specs.Forms.{is_amount, is_stamp};
ghost use Rattle.iss_model.specs.rules.Facts.{txn_in};
ghost use Rattle.std.specs.List.{list_any};
ghost use Rattle.iss_model.specs.rules.Settings.{card_named, is_active_card};
ghost use Rattle.iss_model.specs.rules.Asks.{is_authorization};
ghost use Rattle.iss_model.specs.rules.Reasons.{is_some_with};
ghost use Rattle.iss_model.specs.rules.CardReasons.{further_ask, increment_reason, is_pending, reversal_reason, clearing_reason};
ghost use Rattle.iss_hold.specs.Holdings.{txn_of_hold, parts_of_hold, whole_of};
ghost use Rattle.iss_core.specs.States.{facts_of, kept_state};
ghost use Rattle.iss_core.specs.Asks.{ask_of};
ghost use Rattle.iss_core.specs.Cards.{increment_on, reversal_on, reversed_on, clearing_on, cleared_on, captured_on, refund_on, refunded_on, acts_on_txn, further_ask_reason};
ghost use Rattle.iss_core.specs.Order.{IsInOrder};
ghost use Rattle.iss_core.specs.Adding.{AddsActs};

use crate::asks::Ask;
use crate::looking::is_active_card;
use crate::pieces::{put_decided, put_declined, put_notice, put_notice_of_some};
use crate::state::State;
use iss_chain::pieces;
use iss_hold::Hold;
use iss_model::{Currency, Entry, Method, Opened, Reason, Token, Txn, Verdict};
use std::alloc::{AllocError, Global};

/// What follows an authorisation on its transaction.
#[derive(Clone, Copy)]
pub(crate) struct Operation {
    pub token: Token,
    pub txn: Token,
    pub currency: Currency,
    /// In minor units.
    pub amount: u64,
    /// Whether a clearing is the last one.
    pub last: bool,
    /// In milliseconds since 1970.
    pub at: u64,
}

impl Operation {
    /// An increment of a transaction, as an ask.
    fn ask(&self, txn: &Txn) -> Ask
        ensures { ask_of result ≡ further_ask self.now.token self.now.amount self.now.at txn.now }
    {
        Ask {
            event: self.token,
            txn: *txn,
            amount: self.amount,
            first: false,
            partial: false,
            at: self.at,
        }
    }
}

impl State {
    /// An increment is declined, or counts as use and seeks funding.
    #[inline(never)]
    pub(crate) fn put_increment(
        &self,
        alloc: Global,
        out: &mut Vec<Entry>,
        operation: &Operation,
    ) -> Result<(), AllocError>
        requires order { IsInOrder (kept_state self.now) }
        requires amount { IsTrue (is_amount operation.now.amount) }
        requires stamp { IsTrue (is_stamp operation.now.at) }
        ensures { OnOk result (AddsActs out.old out.new (acts_on_txn increment_on (facts_of self.now) operation.now)) }
    {
        match self.hold(&operation.txn) {
            None => put_declined(out, &operation.token, Reason::TxnUnknown),
            Some(hold) => self.put_further_ask(alloc, out, operation, &hold),
        }
    }

    /// An increment of a known transaction is declined, or counts as use and seeks funding.
    fn put_further_ask(
        &self,
        alloc: Global,
        out: &mut Vec<Entry>,
        operation: &Operation,
        hold: &Hold,
    ) -> Result<(), AllocError>
        requires order { IsInOrder (kept_state self.now) }
        requires amount { IsTrue (is_amount operation.now.amount) }
        requires stamp { IsTrue (is_stamp operation.now.at) }
        ensures { OnOk result (AddsActs out.old out.new (increment_on (facts_of self.now) operation.now (Some (txn_of_hold hold.now)))) }
    {
        let ask = operation.ask(&hold.txn);
        if let Some(why) = self.increment_reason(alloc, operation, hold, &ask)? {
            return put_declined(out, &operation.token, why);
        }
        out.push(Entry::Usage(ask.usage()))?;
        self.put_funding(out, &ask)
    }

    fn increment_reason(
        &self,
        alloc: Global,
        operation: &Operation,
        hold: &Hold,
        ask: &Ask,
    ) -> Result<Option<Reason>, AllocError>
        requires amount { IsTrue (is_amount ask.now.amount) }
        requires stamp { IsTrue (is_stamp ask.now.at) }
        ensures { IfOk result (λ why. why ≡ further_ask_reason (facts_of self.now) operation.now hold.now (ask_of ask.now)) }
    {
        let txn = &hold.txn;
        if !hold.live {
            return Ok(Some(Reason::TxnClosed));
        }
        if self.is_pending(alloc, txn)? {
            return Ok(Some(Reason::TxnPending));
        }
        if !self.has_active_card(txn) {
            return Ok(Some(Reason::CardState));
        }
        if !self.is_active_user(&txn.user) {
            return Ok(Some(Reason::UserState));
        }
        if txn.currency != operation.currency {
            return Ok(Some(Reason::Currency));
        }
        Ok(self.ask_reason(ask))
    }

    /// Whether the call of a transaction's authorisation is asked.
    fn is_pending(&self, alloc: Global, txn: &Txn) -> Result<bool, AllocError>
        ensures { IfOk result (λ pending. pending ≡ is_pending (facts_of self.now) txn.now) }
    {
        let asked = self.calls.asked_of(alloc, &txn.token)?;
        Ok(is_any_authorization(&asked))
    }

    fn has_active_card(&self, txn: &Txn) -> bool
        ensures { result ≡ is_some_with (λ c. is_active_card c.state) (card_named txn.now.card (facts_of self.now).cards) }
    {
        match self.cards.card(&txn.card) {
            Some(card) => is_active_card(card.state),
            None => false,
        }
    }

    /// A reversal is declined, or it abandons the calls and lets go up to its amount. It then ends a transaction that
    /// holds nothing, and tells the gateway what was let go.
    pub(crate) fn put_reversal(
        &self,
        alloc: Global,
        out: &mut Vec<Entry>,
        operation: &Operation,
    ) -> Result<(), AllocError>
        requires order { IsInOrder (kept_state self.now) }
        ensures { OnOk result (AddsActs out.old out.new (acts_on_txn reversal_on (facts_of self.now) operation.now)) }
    {
        let Some(hold) = self.hold(&operation.txn) else {
            return put_declined(out, &operation.token, Reason::TxnUnknown);
        };
        if let Some(why) = reversal_reason(&hold, operation.currency) {
            return put_declined(out, &operation.token, why);
        }
        self.put_reversed(alloc, out, operation, &hold)
    }

    fn put_reversed(
        &self,
        alloc: Global,
        out: &mut Vec<Entry>,
        operation: &Operation,
        hold: &Hold,
    ) -> Result<(), AllocError>
        requires order { IsInOrder (kept_state self.now) }
        requires small { whole_of hold.now < 2 ^ 62 }
        ensures { OnOk result (AddsActs out.old out.new (reversed_on (facts_of self.now) operation.now hold.now)) }
    {
        let txn = &hold.txn;
        let number = self.put_abandonment(alloc, out, self.next_notice(), txn, &Reason::Reversed)?;
        pieces::reverse(out, hold, operation.amount)?;
        let freed = operation.amount.min(hold.whole());
        let gateway = freed.saturating_sub(hold.p).min(hold.g);
        put_notice_of_some(out, number, Method::Reversal, txn, freed, gateway)?;
        put_decided(out, &operation.token, Verdict::Done)
    }

    /// A clearing is declined, or takes its amount. It ends a live transaction if it is the last one, or nothing is held
    /// after it.
    pub(crate) fn put_clearing(
        &self,
        alloc: Global,
        out: &mut Vec<Entry>,
        operation: &Operation,
    ) -> Result<(), AllocError>
        requires order { IsInOrder (kept_state self.now) }
        requires amount { IsTrue (is_amount operation.now.amount) }
        ensures { OnOk result (AddsActs out.old out.new (acts_on_txn clearing_on (facts_of self.now) operation.now)) }
    {
        let Some(hold) = self.hold(&operation.txn) else {
            return put_declined(out, &operation.token, Reason::TxnUnknown);
        };
        if let Some(why) = clearing_reason(&hold, operation.currency) {
            return put_declined(out, &operation.token, why);
        }
        self.put_cleared(alloc, out, operation, &hold)
    }

    fn put_cleared(
        &self,
        alloc: Global,
        out: &mut Vec<Entry>,
        operation: &Operation,
        hold: &Hold,
    ) -> Result<(), AllocError>
        requires order { IsInOrder (kept_state self.now) }
        requires small { whole_of hold.now < 2 ^ 62 }
        requires amount { IsTrue (is_amount operation.now.amount) }
        ensures { OnOk result (AddsActs out.old out.new (cleared_on (facts_of self.now) operation.now hold.now)) }
    {
        let amount = operation.amount;
        pieces::clear(out, hold, amount, operation.at)?;
        let rest = hold.without(&hold.taken_to_clear(amount));
        self.put_capture(alloc, out, &rest, amount, operation.last)?;
        put_decided(out, &operation.token, Verdict::Done)
    }

    /// The end of a transaction with a clearing, which leaves this hold, and the gateway's notice of it.
    fn put_capture(
        &self,
        alloc: Global,
        out: &mut Vec<Entry>,
        rest: &Hold,
        amount: u64,
        last: bool,
    ) -> Result<(), AllocError>
        requires order { IsInOrder (kept_state self.now) }
        requires small { whole_of rest.now < 2 ^ 62 }
        ensures { OnOk result (AddsActs out.old out.new (captured_on (facts_of self.now) rest.now amount last)) }
    {
        let txn = &rest.txn;
        let number = self.next_notice();
        if rest.live && (last || rest.whole() == 0) {
            let next = self.put_abandonment(alloc, out, number, txn, &Reason::Cleared)?;
            pieces::end(out, rest)?;
            return put_notice(out, next, Method::Capture, txn, amount, rest.g);
        }
        put_notice(out, number, Method::Capture, txn, amount, 0)
    }

    /// A refund is declined, or comes back from the network, and is paid back for a product that a gateway funds.
    #[inline(never)]
    pub(crate) fn put_refund(
        &self,
        out: &mut Vec<Entry>,
        operation: &Operation,
    ) -> Result<(), AllocError>
        requires order { IsInOrder (kept_state self.now) }
        ensures { OnOk result (AddsActs out.old out.new (acts_on_txn refund_on (facts_of self.now) operation.now)) }
    {
        let Some(hold) = self.hold(&operation.txn) else {
            return put_declined(out, &operation.token, Reason::TxnUnknown);
        };
        if hold.txn.currency != operation.currency {
            return put_declined(out, &operation.token, Reason::Currency);
        }
        if self.chain.over(&operation.txn, operation.amount) {
            return put_declined(out, &operation.token, Reason::RefundOver);
        }
        self.put_refunded(out, operation, &hold)
    }

    fn put_refunded(
        &self,
        out: &mut Vec<Entry>,
        operation: &Operation,
        hold: &Hold,
    ) -> Result<(), AllocError>
        requires order { IsInOrder (kept_state self.now) }
        requires known { txn_in (facts_of self.now) operation.now.txn ≡ Some (txn_of_hold hold.now) }
        ensures { OnOk result (AddsActs out.old out.new (refunded_on (facts_of self.now) operation.now hold.now)) }
    {
        let txn = &hold.txn;
        let amount = operation.amount;
        let owed = self.chain.owed(&operation.txn);
        pieces::refund(out, txn, owed, amount)?;
        let gateway = amount - amount.min(owed);
        put_notice(
            out,
            self.next_notice(),
            Method::Refund,
            txn,
            amount,
            gateway,
        )?;
        put_decided(out, &operation.token, Verdict::Done)
    }
}

/// Why a reversal of a known transaction is declined.
fn reversal_reason(hold: &Hold, currency: Currency) -> Option<Reason>
    ensures { result ≡ reversal_reason (Some (txn_of_hold hold.now)) currency }
{
    if !hold.live {
        return Some(Reason::TxnClosed);
    }
    clearing_reason(hold, currency)
}

/// Why a clearing of a known transaction is declined: it may come after the transaction ended.
fn clearing_reason(hold: &Hold, currency: Currency) -> Option<Reason>
    ensures { result ≡ clearing_reason (Some (txn_of_hold hold.now)) currency }
{
    if hold.txn.currency != currency {
        return Some(Reason::Currency);
    }
    None
}

fn is_any_authorization(asked: &[Opened]) -> bool
    ensures { result ≡ list_any (λ o. is_authorization o.method) asked.now }
{
    asked
        .iter()
        .any(|opened| matches!(opened.method, Method::Authorization))
}
