//! Notices.
ghost use Rattle.std.specs.Prelude.{◌≡◌, ◌↔◌, IsTrue};
ghost use Rattle.std.specs.List.{list_all};
ghost use Rattle.iss_model.specs.rules.CardReasons.{is_account_funded};
ghost use Rattle.iss_model.specs.Currencies.{same_currency};
ghost use Rattle.iss_states.specs.Rebuilding.{rebuilt};
ghost use Rattle.iss_well_formed.specs.Notices.{do_notices_rise, is_notice_method, is_told_well, names_call_if_void};
ghost use Rattle.iss_noticed.specs.Addressed.{is_call_of, is_of_gateway_txn, names_its_call, names_its_txn};
ghost use Rattle.iss_noticed.specs.Commitments.{most_of_records, tells_at_most};
ghost use Rattle.iss_noticed.specs.GivenBack.{gives_back_within, is_capture};
ghost use Rattle.iss_known.specs.Known.{IsKnownOf};
ghost use Rattle.iss_sound_parts.specs.Totals.{IsOpenIn};
ghost use Rattle.iss_sound_parts.specs.Notices.{are_notices_few, do_notices_pass, is_notice_sound};
ghost use Rattle.iss_sound_parts.specs.SoundNotices.{AreNoticesSound};

use crate::totals::Open;
use iss_known::Known;
use iss_model::limits::GREATEST_AMOUNT;
use iss_model::{CallId, Funding, Method, Notice, State, Txn};

/// Whether a state's notices are sound: numbered as they were made, told well, each of a known
/// transaction that the gateway pays, and no more than its records can have made.
///
/// They tell no more than the records may have held, and give back at most what they tell. It takes
/// what is known of the state's events, and what is open in it.
#[tactic(auto, using(crate::proofs::NoticeRules::notices_pass))]
pub fn are_notices_sound(state: &State, known: &Known, still_open: &Open) -> bool
    requires known { IsKnownOf known.now (rebuilt state.now) }
    requires counted { IsOpenIn still_open.now state.now }
    ensures { IsTrue result ↔ AreNoticesSound state.entry.now }
{
    do_pass(
        &state.notices.0,
        state.made,
        state.records,
        known,
        still_open,
    )
}

/// Whether notices pass, if this many were made, for this many records.
fn do_pass(notices: &[Notice], made: u32, records: u32, known: &Known, still_open: &Open) -> bool
    ensures { result ≡ do_notices_pass known.now still_open.now records made notices.now }
{
    are_few(made, records, known, still_open)
        && do_rise(notices, made)
        && are_each_sound(notices, u64::from(records) * GREATEST_AMOUNT, known)
}

/// Whether calls are no more than records can have made, and so are the notices that were made or
/// may still come without a further record.
fn are_few(made: u32, records: u32, known: &Known, still_open: &Open) -> bool
    ensures { result ≡ are_notices_few known.now still_open.now records made }
{
    let records = u64::from(records);
    let in_sight = u64::from(made) + 2 * u64::from(still_open.asked) + u64::from(still_open.live);
    known.calls().len() as u64 <= records && in_sight <= 4 * records
}

/// Whether the numbers of notices rise from 1, up to the number that were made.
fn do_rise(notices: &[Notice], made: u32) -> bool
    ensures { result ≡ do_notices_rise 0 made notices.now }
{
    let mut last = 0;
    for notice in notices {
        if !(last < notice.number && notice.number <= made) {
            return false;
        }
        last = notice.number;
    }
    true
}

fn are_each_sound(notices: &[Notice], most: u64, known: &Known) -> bool
    ensures { result ≡ list_all (is_notice_sound known.now most) notices.now }
{
    notices.iter().all(|notice| is_sound(notice, most, known))
}

fn is_sound(notice: &Notice, most: u64, known: &Known) -> bool
    ensures { result ≡ is_notice_sound known.now most notice.now }
{
    is_told_well(notice)
        && names_its_txn(notice, known)
        && names_its_call(notice, known)
        && tells_at_most(notice, most)
        && gives_back_within(notice)
}

/// Whether it has a method that a notice may have, and names a call if it is a void, and else none.
fn is_told_well(notice: &Notice) -> bool
    ensures { result ≡ is_told_well notice.now }
{
    is_notice_method(notice.method) && names_call_if_void(notice.method, notice.call)
}

fn is_notice_method(method: Method) -> bool
    ensures { result ≡ is_notice_method method }
{
    !matches!(method, Method::Authorization | Method::Incremental)
}

fn names_call_if_void(method: Method, call: Option<CallId>) -> bool
    ensures { result ≡ names_call_if_void method call }
{
    match method {
        Method::Void => call.is_some(),
        _ => call.is_none(),
    }
}

fn names_its_txn(notice: &Notice, known: &Known) -> bool
    ensures { result ≡ names_its_txn known.now.txns notice.now }
{
    match known.txn(&notice.txn) {
        None => false,
        Some(begun) => is_of_gateway_txn(notice, &begun.txn),
    }
}

/// Whether the gateway pays a transaction, and a notice has its user and its currency.
fn is_of_gateway_txn(notice: &Notice, txn: &Txn) -> bool
    ensures { result ≡ is_of_gateway_txn notice.now txn.now }
{
    matches!(txn.funding, Funding::Gateway)
        && txn.user == notice.user
        && txn.currency.number() == notice.currency.number()
}

fn names_its_call(notice: &Notice, known: &Known) -> bool
    ensures { result ≡ names_its_call known.now.calls notice.now }
{
    let Some(id) = notice.call else {
        return true;
    };
    match known.call(id) {
        None => false,
        Some(call) => call.opened.txn == notice.txn,
    }
}

fn tells_at_most(notice: &Notice, most: u64) -> bool
    ensures { result ≡ tells_at_most most notice.now }
{
    notice.amount <= most && notice.gateway <= most
}

/// Whether it gives back at most its amount, save in a capture.
fn gives_back_within(notice: &Notice) -> bool
    ensures { result ≡ gives_back_within notice.now }
{
    matches!(notice.method, Method::Capture) || notice.gateway <= notice.amount
}
