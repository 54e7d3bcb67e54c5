//! Asks: what an authorisation or an increment wants, why it is declined by that, and how it is paid.
ghost use Rattle.std.specs.Prelude.{◌≡◌, ◌+◌, ◌<◌, ◌≤◌, ◌^◌, ◌∷◌, [], OnOk, IsTrue};
ghost use Rattle.iss_model.specs.declared.entry.Entry.TheVariants as entry;
ghost use Rattle.iss_model.specs.Forms.{is_amount, is_stamp, is_timeout};
ghost use Rattle.iss_model.specs.rules.Asks.{ask_usage, ask_given_back, call_ask, rest_given_back, usage_of, breach};
ghost use Rattle.iss_model.specs.rules.CardReasons.{lacks_funds};
ghost use Rattle.iss_model.specs.rules.CardActs.{funding_acts};
ghost use Rattle.iss_model.specs.rules.Facts.{next_notice};
ghost use Rattle.iss_model.specs.rules.Pieces.{ask_method, call_for};
ghost use Rattle.iss_core.specs.States.{facts_of, kept_state};
ghost use Rattle.iss_core.specs.Asks.{ask_of, ask_reason, unpaid_ask_acts, wanted_of};
ghost use Rattle.iss_core.specs.Order.{IsInOrder};
ghost use Rattle.iss_core.specs.Standing.{stand_in_acts};
ghost use Rattle.iss_core.specs.Adding.{AddsActs};

use crate::pieces::{failure_reason, put_decided, put_declined_ask, put_stood};
use crate::state::State;
use iss_chain::pieces;
use iss_commando::SetStand;
use iss_model::{
    Entry, Failure, Funding, Method, Opened, Part, Product, Reason, Token, Txn, UsageRow, Verdict,
};
use std::alloc::AllocError;

/// An event that asks for an amount for a transaction at a stamp.
#[derive(Clone, Copy)]
pub(crate) struct Ask {
    pub event: Token,
    pub txn: Txn,
    /// In minor units.
    pub amount: u64,
    /// Whether it is the transaction's authorisation.
    pub first: bool,
    /// Whether the gateway may fund a part of the amount.
    pub partial: bool,
    /// In milliseconds since 1970.
    pub at: u64,
}

impl Ask {
    /// The ask that a call was opened for.
    pub(crate) fn of_call(opened: &Opened, txn: &Txn) -> Ask
        ensures { ask_of result ≡ call_ask opened.now txn.now }
    {
        Ask {
            event: opened.event,
            txn: *txn,
            amount: opened.amount,
            first: matches!(opened.method, Method::Authorization),
            partial: opened.partial,
            at: opened.at,
        }
    }

    /// The use that it adds: an authorisation counts once, and an increment doesn't count.
    pub(crate) fn usage(&self) -> UsageRow
        requires { self.now.amount < 2 ^ 63 }
        ensures { result ≡ ask_usage (ask_of self.now) }
    {
        let count = if self.first { 1 } else { 0 };
        usage(&self.txn, self.amount as i64, count, self.at)
    }

    /// The use that it returns: its own, negated, at its own stamp.
    pub(crate) fn given_back(&self) -> UsageRow
        requires { self.now.amount < 2 ^ 63 }
        ensures { result ≡ ask_given_back (ask_of self.now) }
    {
        let count = if self.first { -1 } else { 0 };
        usage(&self.txn, -(self.amount as i64), count, self.at)
    }

    fn method(&self) -> Method
        ensures { result ≡ ask_method (ask_of self.now) }
    {
        if self.first {
            Method::Authorization
        } else {
            Method::Incremental
        }
    }

    /// The ask as velocity controls are asked.
    fn wanted(&self) -> iss_velocity::Spending
        ensures { result ≡ wanted_of (ask_of self.now) }
    {
        iss_velocity::Spending {
            txn: self.txn.token,
            origin: self.txn.origin,
            user: self.txn.user,
            product: self.txn.product,
            currency: self.txn.currency,
            mcc: self.txn.mcc,
            mid: self.txn.mid,
            amount: self.amount,
            first: self.first,
        }
    }
}

/// The use that comes back if a call is funded for this amount: that of the rest, at the stamp of its event.
pub(crate) fn rest_given_back(opened: &Opened, txn: &Txn, amount: u64) -> UsageRow
    requires part { amount ≤ opened.now.amount }
    requires small { opened.now.amount < 2 ^ 63 }
    ensures { result ≡ rest_given_back opened.now txn.now amount }
{
    let rest = opened.amount - amount;
    usage(txn, -(rest as i64), 0, opened.at)
}

/// An amount and a count as use of a transaction.
fn usage(txn: &Txn, amount: i64, count: i64, at: u64) -> UsageRow
    ensures { result ≡ usage_of txn.now amount count at }
{
    UsageRow {
        txn: txn.token,
        origin: txn.origin,
        user: txn.user,
        product: txn.product,
        currency: txn.currency,
        mcc: txn.mcc,
        mid: txn.mid,
        amount,
        count,
        at,
    }
}

impl State {
    /// Why an ask is declined by what it asks for: the control that it breaches, or the funds that its user lacks.
    #[inline(always)]
    pub(crate) fn ask_reason(&self, ask: &Ask) -> Option<Reason>
        requires amount { IsTrue (is_amount ask.now.amount) }
        requires stamp { IsTrue (is_stamp ask.now.at) }
        ensures { result ≡ ask_reason (facts_of self.now) (ask_of ask.now) }
    {
        if let Some(control) = self.breach(ask) {
            return Some(Reason::Control(control));
        }
        if self.lacks_funds(ask) {
            return Some(Reason::InsufficientFunds);
        }
        None
    }

    fn breach(&self, ask: &Ask) -> Option<Token>
        requires amount { IsTrue (is_amount ask.now.amount) }
        requires stamp { IsTrue (is_stamp ask.now.at) }
        ensures { result ≡ breach (facts_of self.now) (ask_of ask.now) }
    {
        self.controls.breach(&self.groups, &ask.wanted(), ask.at)
    }

    fn lacks_funds(&self, ask: &Ask) -> bool
        requires { IsTrue (is_amount ask.now.amount) }
        ensures { result ≡ lacks_funds (facts_of self.now) (ask_of ask.now) }
    {
        match ask.txn.funding {
            Funding::Account => self.is_short(&ask.txn.user, ask.txn.currency, ask.amount),
            Funding::Gateway => false,
        }
    }

    /// An ask is paid from the user's own balance, which is held, or the gateway decides.
    #[inline(always)]
    pub(crate) fn put_funding(&self, out: &mut Vec<Entry>, ask: &Ask) -> Result<(), AllocError>
        requires order { IsInOrder (kept_state self.now) }
        requires amount { IsTrue (is_amount ask.now.amount) }
        requires stamp { IsTrue (is_stamp ask.now.at) }
        ensures { OnOk result (AddsActs out.old out.new (funding_acts (facts_of self.now) (ask_of ask.now))) }
    {
        match ask.txn.funding {
            Funding::Account => {
                pieces::hold(out, &ask.txn, Part::S, ask.amount)?;
                put_decided(out, &ask.event, Verdict::Approved)
            }
            Funding::Gateway => self.put_gateway_ask(out, ask),
        }
    }

    /// The gateway is asked, unless the product's switch is on. Then the programme stands in.
    fn put_gateway_ask(&self, out: &mut Vec<Entry>, ask: &Ask) -> Result<(), AllocError>
        requires order { IsInOrder (kept_state self.now) }
        requires amount { IsTrue (is_amount ask.now.amount) }
        requires stamp { IsTrue (is_stamp ask.now.at) }
        ensures { OnOk result (AddsActs out.old out.new (unpaid_ask_acts (facts_of self.now) (ask_of ask.now))) }
    {
        match self.product(&ask.txn.product) {
            None => Ok(()),
            Some(product) if self.products.switched(&product.name) => {
                self.put_stand_in(out, self.next_notice(), ask, Failure::Switch, ask.at)
            }
            Some(product) => {
                out.push(Entry::Opened(self.call_for(&product, ask)))?;
                Ok(())
            }
        }
    }

    /// The call for an ask: the gateway has the product's time to answer.
    fn call_for(&self, product: &Product, ask: &Ask) -> Opened
        requires order { IsInOrder (kept_state self.now) }
        requires time { IsTrue (is_timeout product.now.timeout_ms) }
        requires stamp { IsTrue (is_stamp ask.now.at) }
        ensures { result ≡ call_for (facts_of self.now) product.now (ask_of ask.now) }
    {
        let txn = &ask.txn;
        Opened {
            call: self.next_call(),
            event: ask.event,
            txn: txn.token,
            method: ask.method(),
            card: txn.card,
            user: txn.user,
            currency: txn.currency,
            mcc: txn.mcc,
            mid: txn.mid,
            amount: ask.amount,
            partial: ask.partial,
            at: ask.at,
            deadline: ask.at + product.timeout_ms,
        }
    }

    /// The programme stands in for the gateway at a stamp, or the ask is declined. The first notice has this number.
    pub(crate) fn put_stand_in(
        &self,
        out: &mut Vec<Entry>,
        number: u32,
        ask: &Ask,
        failure: Failure,
        at: u64,
    ) -> Result<(), AllocError>
        requires amount { ask.now.amount < 2 ^ 62 }
        requires stamp { IsTrue (is_stamp at) }
        ensures { OnOk result (AddsActs out.old out.new (stand_in_acts number (facts_of self.now) (ask_of ask.now) failure at)) }
    {
        let txn = &ask.txn;
        match self
            .sets
            .stands(&txn.product, &txn.user, ask.amount, failure, at)
        {
            SetStand::Yes(set) => put_stood(out, number, ask, at, &set),
            SetStand::Limit(set) => put_declined_ask(out, ask, Reason::StandInLimit(set)),
            SetStand::No => put_declined_ask(out, ask, failure_reason(failure)),
        }
    }
}
