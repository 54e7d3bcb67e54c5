//! Calls in rows that name what they share by its place.
ghost use Rattle.std.specs.Prelude.{◌≡◌, ℕ, List, None, Some, IfOk, slice_get};
ghost use Rattle.std.specs.Option.{option_copied};
ghost use Rattle.iss_index.specs.Grown.{IsGrown};
ghost use Rattle.iss_call.specs.States.{seen_call, AreMarks};
ghost use Rattle.iss_call.specs.Named.{IsNamed, IsTxnNamed, call_in, calls_in, row_numbered, txn_in};

use crate::call::{Call, state_of};
use iss_index::Names;
use iss_model::{CallId, CallState, Currency, How, Method, Opened, Token};
use std::alloc::{AllocError, Global};
use std::collections::BTreeMap;

/// The name of a call's transaction.
#[derive(Clone, Copy)]
pub(crate) enum TxnName {
    /// It is the event's own, since an authorisation begins the transaction of its token.
    OfEvent,
    /// It stands at this place.
    Other(u32),
}

/// A call, with the places of names in place of the names. Its number is given by where the row stands.
#[derive(Clone, Copy)]
pub(crate) struct CallRow {
    pub(crate) event: Token,
    method: Method,
    currency: Currency,
    partial: bool,
    card: u32,
    user: u32,
    mid: u32,
    pub(crate) txn: TxnName,
    mcc: u16,
    amount: u64,
    at: u64,
    pub(crate) deadline: u64,
    pub(crate) how: Option<How>,
}

/// The row of a call's number, `None` exactly if it was never asked.
pub(crate) fn row_numbered(rows: &[CallRow], id: CallId) -> Option<&CallRow>
    ensures { option_copied result ≡ row_numbered rows.now id.0 }
{
    rows.get((id.0 as usize).checked_sub(1)?)
}

/// The call of a row and its number.
pub(crate) fn call_of(names: &Names, id: CallId, row: &CallRow) -> Call
    requires { IsNamed names.now row.now }
    ensures { seen_call result ≡ call_in names.now id.0 row.now }
{
    let opened = Opened {
        call: id,
        event: row.event,
        txn: *txn_of(names, row),
        method: row.method,
        card: *names.at(row.card as usize),
        user: *names.at(row.user as usize),
        currency: row.currency,
        mcc: row.mcc,
        mid: *names.at(row.mid as usize),
        amount: row.amount,
        partial: row.partial,
        at: row.at,
        deadline: row.deadline,
    };
    Call {
        opened,
        how: row.how,
    }
}

/// The name of a row's transaction.
pub(crate) fn txn_of<'a>(names: &'a Names, row: &'a CallRow) -> &'a Token
    requires { IsTxnNamed names.now row.now.txn }
    ensures { result.now ≡ txn_in names.now row.now.event row.now.txn }
{
    match row.txn {
        TxnName::OfEvent => &row.event,
        TxnName::Other(place) => names.at(place as usize),
    }
}

/// The row of a call that is asked. Names that have no place are added. The last row is likely to have the same card and
/// merchant, and a user's name is likely to have been added right after the card's.
pub(crate) fn row_of(
    names: &mut Names,
    opened: &Opened,
    last: Option<&CallRow>,
) -> Result<CallRow, AllocError>
    ensures grown { IsGrown names.old names.new }
    ensures named { IfOk result (λ row. IsNamed names.new row) }
    ensures asked { IfOk result (λ row. call_in names.new opened.now.call.0 row ≡ record { opened = opened.now; how = None }) }
{
    let (last_card, last_mid) = places_of(last);
    let card = names.place_or_add(&opened.card, last_card as usize)?;
    let user = names.place_or_add(&opened.user, card.wrapping_add(1) as usize)?;
    let mid = names.place_or_add(&opened.mid, last_mid as usize)?;
    let txn = txn_name(names, opened)?;
    Ok(CallRow {
        event: opened.event,
        method: opened.method,
        currency: opened.currency,
        partial: opened.partial,
        card,
        user,
        mid,
        txn,
        mcc: opened.mcc,
        amount: opened.amount,
        at: opened.at,
        deadline: opened.deadline,
        how: None,
    })
}

/// The places of a row's card and merchant.
fn places_of(row: Option<&CallRow>) -> (u32, u32) {
    match row {
        Some(row) => (row.card, row.mid),
        None => (0, 0),
    }
}

/// The name of a call's transaction. If it isn't the event's and has no place, it is added.
fn txn_name(names: &mut Names, opened: &Opened) -> Result<TxnName, AllocError>
    ensures grown { IsGrown names.old names.new }
    ensures named { IfOk result (λ txn. IsTxnNamed names.new txn) }
    ensures same { IfOk result (λ txn. txn_in names.new opened.now.event txn ≡ opened.now.txn) }
{
    if opened.txn == opened.event {
        return Ok(TxnName::OfEvent);
    }
    let place = names.place_or_add(&opened.txn, 0)?;
    Ok(TxnName::Other(place))
}

/// How the first call of each event stands. Later calls go in first, so that earlier ones take their place.
pub(crate) fn marks_of(
    alloc: Global,
    rows: &[CallRow],
) -> Result<BTreeMap<Token, CallState>, AllocError>
    ensures { (names : List (List ℕ)) → IfOk result (AreMarks (calls_in names 1 rows.now)) }
{
    let mut marks = BTreeMap::new(alloc);
    for row in rows.iter().rev() {
        marks.insert(row.event, state_of(row.how))?;
    }
    Ok(marks)
}
