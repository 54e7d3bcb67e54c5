//! What is on its way between both sides.
ghost use Rattle.std.specs.Prelude.{◌≡◌, ◌<◌, IfOk};
ghost use Rattle.std.specs.List.{filter_map, list_any};
ghost use Rattle.std.specs.Option.{option_map};
ghost use Rattle.iss_model.specs.Currencies.{same_currency};
ghost use Rattle.iss_model.specs.declared.limits.TheConstants.{INSTANCES};
ghost use Rattle.iss_laws.specs.CallEntries.{is_call};
ghost use Rattle.iss_exchange.specs.Amounts.{amount_asked, amount_noted, amount_voided, is_void_among, shown_amount};

use crate::amounts::{Amount, Amounts};
use iss_gateway::Gateway;
use iss_model::{Currency, Notice, Opened};
use std::alloc::{AllocError, Global};

/// What is on its way between both sides in a currency, in minor units.
#[derive(Drop)]
pub struct Gap {
    /// What the gateway has funded for calls that are asked, by the numbers of the calls.
    pub asked: Amounts,
    /// What it has funded and not undone for calls whose void isn't acknowledged, by the numbers of the calls.
    pub voided: Amounts,
    /// The gateway parts of unacknowledged notices on which it hasn't acted, by the numbers of the notices.
    pub noted: Amounts,
}

pub(crate) fn asked_gap(
    alloc: Global,
    instance: u64,
    gateway: &Gateway,
    asked: &[Opened],
    currency: Currency,
) -> Result<Amounts, AllocError>
    requires { instance < INSTANCES }
    ensures { IfOk result (λ found. found ≡ filter_map (amount_asked instance gateway.now.books currency) asked.now) }
{
    let mut amounts = Amounts::new(alloc);
    for opened in asked {
        amounts.put(amount_asked(instance, gateway, opened, currency))?;
    }
    Ok(amounts)
}

pub(crate) fn voided_gap(
    alloc: Global,
    instance: u64,
    gateway: &Gateway,
    calls: &[Opened],
    pending: &[Notice],
    currency: Currency,
) -> Result<Amounts, AllocError>
    requires { instance < INSTANCES }
    ensures { IfOk result (λ found. found ≡ filter_map (amount_voided instance gateway.now.books pending.now currency) calls.now) }
{
    let mut amounts = Amounts::new(alloc);
    for opened in calls {
        amounts.put(amount_voided(instance, gateway, opened, pending, currency))?;
    }
    Ok(amounts)
}

pub(crate) fn noted_gap(
    alloc: Global,
    gateway: &Gateway,
    pending: &[Notice],
    currency: Currency,
) -> Result<Amounts, AllocError>
    ensures { IfOk result (λ found. found ≡ filter_map (amount_noted gateway.now.books currency) pending.now) }
{
    let mut amounts = Amounts::new(alloc);
    for notice in pending {
        amounts.put(amount_noted(gateway, notice, currency))?;
    }
    Ok(amounts)
}

/// What the gateway has funded for a call, if that is of the currency.
fn amount_asked(
    instance: u64,
    gateway: &Gateway,
    opened: &Opened,
    currency: Currency,
) -> Option<Amount>
    requires { instance < INSTANCES }
    ensures { option_map shown_amount result ≡ amount_asked instance gateway.now.books currency opened.now }
{
    if !same_currency(opened.currency, currency) {
        return None;
    }
    let amount = gateway.funded(opened.call.uuid(instance))?;
    Some(Amount {
        number: opened.call.0,
        amount,
    })
}

/// What the gateway has funded and not undone for a call, if that is of the currency and one of these notices voids it.
fn amount_voided(
    instance: u64,
    gateway: &Gateway,
    opened: &Opened,
    pending: &[Notice],
    currency: Currency,
) -> Option<Amount>
    requires { instance < INSTANCES }
    ensures { option_map shown_amount result ≡ amount_voided instance gateway.now.books pending.now currency opened.now }
{
    if !is_void_among(opened.call.0, pending) {
        return None;
    }
    if gateway.is_voided(opened.call.uuid(instance)) {
        return None;
    }
    amount_asked(instance, gateway, opened, currency)
}

/// The gateway's part of a notice, if that is of the currency and the gateway hasn't acted on it.
fn amount_noted(gateway: &Gateway, notice: &Notice, currency: Currency) -> Option<Amount>
    ensures { option_map shown_amount result ≡ amount_noted gateway.now.books currency notice.now }
{
    if !same_currency(notice.currency, currency) {
        return None;
    }
    if gateway.is_noted(notice.number) {
        return None;
    }
    Some(Amount {
        number: notice.number,
        amount: notice.gateway,
    })
}

/// Whether one of these notices voids the call of a number.
fn is_void_among(number: u32, notices: &[Notice]) -> bool
    ensures { result ≡ is_void_among notices.now number }
{
    notices.iter().any(|notice| voids(notice, number))
}

/// Whether a notice voids the call of a number.
fn voids(notice: &Notice, number: u32) -> bool
    ensures { result ≡ is_call number notice.now.call }
{
    match notice.call {
        Some(call) => call.0 == number,
        None => false,
    }
}

fn same_currency(a: Currency, b: Currency) -> bool
    ensures { result ≡ same_currency a b }
{
    a.number() == b.number()
}
