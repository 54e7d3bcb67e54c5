//! The pieces of entries that the core adds to those of transactions, each after those that are made already.
ghost use Rattle.std.specs.Prelude.{◌≡◌, ◌<◌, ◌≤◌, ◌^◌, ◌∷◌, [], Some, None, OnOk};
ghost use Rattle.iss_model.specs.declared.account.Account.TheVariants as account;
ghost use Rattle.iss_model.specs.declared.account.Part.TheVariants as part;
ghost use Rattle.iss_model.specs.declared.entry.Entry.TheVariants as entry;
ghost use Rattle.iss_model.specs.rules.Pieces.{only_gateway, notice_entry, void_entry, abandoned_call_entries, declined_ask_entries, funded_ask_entries, part_funded_entries, failure_reason};
ghost use Rattle.iss_model.specs.rules.Acts.{Declines, act_entries};
ghost use Rattle.iss_core.specs.Asks.{ask_of};
ghost use Rattle.iss_core.specs.Standing.{stood_entries};
ghost use Rattle.iss_core.specs.Adding.{Adds, plain_notice, notice_of_some};

use crate::asks::{Ask, rest_given_back};
use iss_chain::pieces;
use iss_model::{
    CallId, Entry, Failure, Funding, How, Method, Notice, Opened, Part, Reason, Token, Txn, Verdict,
};
use std::alloc::AllocError;

pub(crate) fn put_decided(
    out: &mut Vec<Entry>,
    event: &Token,
    verdict: Verdict,
) -> Result<(), AllocError>
    ensures { OnOk result (Adds out.old out.new (entry.Decided event.now verdict ∷ [])) }
{
    out.push(Entry::Decided(*event, verdict))?;
    Ok(())
}

pub(crate) fn put_declined(
    out: &mut Vec<Entry>,
    event: &Token,
    why: Reason,
) -> Result<(), AllocError>
    ensures { OnOk result (Adds out.old out.new (act_entries (Declines event.now why))) }
{
    put_decided(out, event, Verdict::Declined(why))
}

/// A notice that is of no call, for a product that a gateway funds.
pub(crate) fn put_notice(
    out: &mut Vec<Entry>,
    number: u32,
    method: Method,
    txn: &Txn,
    amount: u64,
    gateway: u64,
) -> Result<(), AllocError>
    ensures { OnOk result (Adds out.old out.new (only_gateway txn.now (plain_notice number method txn.now amount gateway))) }
{
    match txn.funding {
        Funding::Account => Ok(()),
        Funding::Gateway => {
            out.push(notice(number, method, txn, None, amount, gateway))?;
            Ok(())
        }
    }
}

/// A notice that is of no call, if the amount isn't 0.
pub(crate) fn put_notice_of_some(
    out: &mut Vec<Entry>,
    number: u32,
    method: Method,
    txn: &Txn,
    amount: u64,
    gateway: u64,
) -> Result<(), AllocError>
    ensures { OnOk result (Adds out.old out.new (only_gateway txn.now (notice_of_some number method txn.now amount gateway))) }
{
    if amount == 0 {
        return Ok(());
    }
    put_notice(out, number, method, txn, amount, gateway)
}

fn notice(
    number: u32,
    method: Method,
    txn: &Txn,
    call: Option<CallId>,
    amount: u64,
    gateway: u64,
) -> Entry
    ensures { result ≡ notice_entry number method txn.now call amount gateway }
{
    Entry::Notice(Notice {
        number,
        method,
        txn: txn.token,
        user: txn.user,
        currency: txn.currency,
        call,
        amount,
        gateway,
    })
}

/// The gateway is told that a call has ended.
pub(crate) fn put_void(
    out: &mut Vec<Entry>,
    number: u32,
    txn: &Txn,
    opened: &Opened,
) -> Result<(), AllocError>
    ensures { OnOk result (Adds out.old out.new (void_entry number txn.now opened.now ∷ [])) }
{
    out.push(notice(
        number,
        Method::Void,
        txn,
        Some(opened.call),
        opened.amount,
        0,
    ))?;
    Ok(())
}

/// A call is closed, voided, its use returned, and its event declined.
pub(crate) fn put_abandoned(
    out: &mut Vec<Entry>,
    number: u32,
    txn: &Txn,
    why: &Reason,
    opened: &Opened,
) -> Result<(), AllocError>
    requires { opened.now.amount < 2 ^ 63 }
    ensures { OnOk result (Adds out.old out.new (abandoned_call_entries number txn.now why.now opened.now)) }
{
    out.push(Entry::Closed(opened.call, How::Abandoned))?;
    put_void(out, number, txn, opened)?;
    out.push(Entry::Usage(Ask::of_call(opened, txn).given_back()))?;
    put_decided(out, &opened.event, Verdict::Declined(*why))
}

/// An ask is declined: its use is returned, and with an authorisation its transaction ends.
pub(crate) fn put_declined_ask(
    out: &mut Vec<Entry>,
    ask: &Ask,
    why: Reason,
) -> Result<(), AllocError>
    requires { ask.now.amount < 2 ^ 63 }
    ensures { OnOk result (Adds out.old out.new (declined_ask_entries (ask_of ask.now) why)) }
{
    out.push(Entry::Usage(ask.given_back()))?;
    if ask.first {
        out.push(Entry::Ended(ask.txn.token))?;
    }
    put_decided(out, &ask.event, Verdict::Declined(why))
}

/// The gateway's money is there and held, and the ask approved.
pub(crate) fn put_funded_ask(out: &mut Vec<Entry>, ask: &Ask) -> Result<(), AllocError>
    requires { ask.now.amount < 2 ^ 63 }
    ensures { OnOk result (Adds out.old out.new (funded_ask_entries (ask_of ask.now) (account.Gateway ask.now.txn.currency) part.G)) }
{
    pieces::fund(out, &ask.txn, Part::G, ask.amount)?;
    put_decided(out, &ask.event, Verdict::Approved)
}

/// A part of a call's amount is there and held, the use of the rest returned, and the call's event approved for the part.
#[inline(never)]
pub(crate) fn put_part_funded(
    out: &mut Vec<Entry>,
    opened: &Opened,
    txn: &Txn,
    amount: u64,
) -> Result<(), AllocError>
    requires part { amount ≤ opened.now.amount }
    requires small { opened.now.amount < 2 ^ 63 }
    ensures { OnOk result (Adds out.old out.new (part_funded_entries opened.now txn.now amount)) }
{
    out.push(Entry::Usage(rest_given_back(opened, txn, amount)))?;
    pieces::fund(out, txn, Part::G, amount)?;
    put_decided(out, &opened.event, Verdict::Partial(txn.currency, amount))
}

/// The programme pays in the gateway's place, by the set of a name.
pub(crate) fn put_stood(
    out: &mut Vec<Entry>,
    number: u32,
    ask: &Ask,
    at: u64,
    set: &Token,
) -> Result<(), AllocError>
    requires { ask.now.amount < 2 ^ 63 }
    ensures { OnOk result (Adds out.old out.new (stood_entries number (ask_of ask.now) at set.now)) }
{
    let txn = &ask.txn;
    out.push(Entry::Stood {
        set: *set,
        product: txn.product,
        user: txn.user,
        amount: ask.amount,
        at,
    })?;
    pieces::fund(out, txn, Part::P, ask.amount)?;
    out.push(notice(number, Method::StandIn, txn, None, ask.amount, 0))?;
    put_decided(out, &ask.event, Verdict::Approved)
}

pub(crate) fn failure_reason(failure: Failure) -> Reason
    ensures { result ≡ failure_reason failure }
{
    match failure {
        Failure::Connection => Reason::GatewayConnection,
        Failure::Timeout => Reason::GatewayTimeout,
        Failure::Application => Reason::GatewayApplication,
        Failure::Switch => Reason::GatewaySwitch,
    }
}
