//! When the transactions and the calls of a state may stand together.
ghost use Rattle.std.specs.Prelude.{◌≡◌, ◌↔◌, IsTrue};
ghost use Rattle.std.specs.List.{list_all};
ghost use Rattle.iss_model.specs.rules.CardReasons.{is_account_funded};
ghost use Rattle.iss_states.specs.Rebuilding.{rebuilt};
ghost use Rattle.iss_known.specs.Known.{IsKnownOf};
ghost use Rattle.iss_sound_parts.specs.Asking.{IsAskedOf};
ghost use Rattle.iss_sound_parts.specs.Txns.{AreTxnsSound, are_in_order, are_sums_of, have_nothing, holds_as_asked, is_call_in_order, is_carried_in_order};

use crate::Asked;
use crate::asked::is_asked;
use iss_known::{CallKnown, Known};
use iss_model::{Carried, Funding, State, TxnSums};

/// Whether the transactions of a state and their calls may stand together.
///
/// Each call is of a listed transaction. One that has ended has no asked call, and while an authorisation is asked, no
/// other call of its transaction is. What a transaction holds goes by who funds it, and it holds nothing if it has ended
/// or its authorisation is asked.
#[tactic(auto, using(crate::proofs::Together::txns_sound))]
pub fn are_txns_sound(state: &State, known: &Known, asked: &Asked) -> bool
    requires known { IsKnownOf known.now (rebuilt state.now) }
    requires asked { IsAskedOf known.now.calls asked.now }
    ensures { IsTrue result ↔ AreTxnsSound state.entry.now }
{
    are_in_order(&state.txns.0, known, asked)
}

/// Whether each of these transactions may stand, and each call that is known.
fn are_in_order(txns: &[Carried], known: &Known, asked: &Asked) -> bool
    ensures { result ≡ are_in_order known.now asked.now txns.now }
{
    are_calls_in_order(known.calls(), known, asked) && are_carried_in_order(txns, known, asked)
}

/// Whether each of these calls may stand.
fn are_calls_in_order(calls: &[CallKnown], known: &Known, asked: &Asked) -> bool
    ensures { result ≡ list_all (is_call_in_order known.now.txns asked.now) calls.now }
{
    calls
        .iter()
        .all(|call| is_call_in_order(call, known, asked))
}

/// Whether each of these transactions may stand.
fn are_carried_in_order(txns: &[Carried], known: &Known, asked: &Asked) -> bool
    ensures { result ≡ list_all (is_carried_in_order known.now.txns asked.now) txns.now }
{
    let mut near = 0_usize;
    for carried in txns {
        if !is_carried_in_order(carried, near, known, asked) {
            return false;
        }
        near = near.saturating_add(1);
    }
    true
}

/// Whether a call is of a listed transaction, and if it is asked, of one that the gateway pays, and alone where it must be.
fn is_call_in_order(call: &CallKnown, known: &Known, asked: &Asked) -> bool
    ensures { result ≡ is_call_in_order known.now.txns asked.now call.now }
{
    match known.txn(&call.opened.txn) {
        Some(its) => {
            (!is_asked(call) || !is_account_funded(its.txn.funding)) && asked.is_alone(call)
        }
        None => false,
    }
}

/// Whether a transaction has the sums that it may have. It is likely to stand at this place.
fn is_carried_in_order(carried: &Carried, near: usize, known: &Known, asked: &Asked) -> bool
    ensures { result ≡ is_carried_in_order known.now.txns asked.now carried.now }
{
    match known.txn_near(&carried.txn, near) {
        Some(its) => {
            are_sums_of(its.txn.funding, &carried.sums) && holds_as_asked(carried, asked)
        }
        None => false,
    }
}

/// Whether sums are those of a transaction with this funding: each part is of who pays, and the programme pays nothing for
/// what comes from a user's own balance.
fn are_sums_of(funding: Funding, sums: &TxnSums) -> bool
    ensures { result ≡ are_sums_of funding sums.now }
{
    if is_account_funded(funding) {
        sums.g == 0 && sums.p == 0 && sums.paid == 0
    } else {
        sums.s == 0
    }
}

/// Whether a transaction that has ended holds nothing and has no asked call, and one whose authorisation is asked holds
/// nothing either.
fn holds_as_asked(carried: &Carried, asked: &Asked) -> bool
    ensures { result ≡ holds_as_asked asked.now carried.now }
{
    let live = carried.sums.live;
    let bare = have_nothing(&carried.sums);
    (live || !asked.has_call(&carried.txn))
        && (live || bare)
        && (!asked.has_authorization(&carried.txn) || bare)
}

/// Whether nothing is held.
fn have_nothing(sums: &TxnSums) -> bool
    ensures { result ≡ have_nothing sums.now }
{
    sums.g == 0 && sums.p == 0 && sums.s == 0
}

/// Whether the user's own balance pays.
fn is_account_funded(funding: Funding) -> bool
    ensures { result ≡ is_account_funded funding }
{
    match funding {
        Funding::Account => true,
        Funding::Gateway => false,
    }
}
