//! Whether the sums of transactions are what was done.
ghost use Rattle.std.specs.Prelude.{◌≡◌, ◌≤◌, ◌↔◌, true, length, IsTrue, IfOk};
ghost use Rattle.std.specs.List.{list_all};
ghost use Rattle.iss_model.specs.declared.limits.TheConstants.{MOST_RECORDS};
ghost use Rattle.iss_well_formed.specs.Txns.{is_fair};
ghost use Rattle.iss_sound_events.specs.Alone.{AreSoundAlone};
ghost use Rattle.iss_sound_events.specs.Done.{HasSumsDone, are_sums_done, is_as_total, is_as_totalled, is_within_approved};
ghost use Rattle.iss_sound_events.specs.Totals.{is_small_seen};

use crate::listed::are_done_listed;
use crate::totals::{Total, total_of, totals_of};
use iss_index::Index;
use iss_model::{Carried, Seen, State, TxnSums};
use std::alloc::{AllocError, Global};

/// Whether the sums of a state's transactions are what its events did, are fair, and reach no further than what was
/// approved. Nothing is done of a transaction that isn't listed.
#[tactic(auto, using(crate::proofs::Sized::sound_few, crate::proofs::Sized::sound_small, crate::proofs::SumsDone::sums_done))]
pub fn are_sums_done(alloc: Global, state: &State) -> Result<bool, AllocError>
    requires { AreSoundAlone state.now }
    ensures { IfOk result (λ done. IsTrue done ↔ HasSumsDone state.entry.now) }
{
    are_as_done(alloc, &state.events.0, &state.txns.0)
}

#[tactic(auto, using(crate::proofs::SumsDone::totalled_done))]
fn are_as_done(alloc: Global, events: &[Seen], txns: &[Carried]) -> Result<bool, AllocError>
    requires few { length events.now ≤ MOST_RECORDS }
    requires small { list_all is_small_seen events.now ≡ true }
    ensures { IfOk result (λ done. done ≡ are_sums_done events.now txns.now) }
{
    if !are_done_listed(alloc, events, txns)? {
        return Ok(false);
    }
    let totals = totals_of(alloc, events, txns.len())?;
    Ok(are_as_totalled(&totals, txns))
}

fn are_as_totalled(totals: &Index<Total>, txns: &[Carried]) -> bool
    ensures { result ≡ list_all (is_as_totalled totals.now) txns.now }
{
    let mut near = 0_usize;
    for carried in txns {
        if !is_as_totalled(totals, carried, near) {
            return false;
        }
        near = near.saturating_add(1);
    }
    true
}

/// Whether a transaction is as the total of its name says, which is likely to stand at this place.
fn is_as_totalled(totals: &Index<Total>, carried: &Carried, near: usize) -> bool
    ensures { result ≡ is_as_totalled totals.now carried.now }
{
    is_as_total(&total_of(totals, &carried.txn, near), carried)
}

/// Whether the sums of a transaction are what the total says, fair and within what was approved.
fn is_as_total(total: &Total, carried: &Carried) -> bool
    ensures { result ≡ is_as_total total.now carried.now }
{
    carried.sums.cleared == total.cleared
        && carried.sums.refunded == total.refunded
        && is_fair(carried)
        && is_within_approved(total.approved, &carried.sums)
}

fn is_fair(carried: &Carried) -> bool
    ensures { result ≡ is_fair carried.now }
{
    carried.sums.refunded <= carried.sums.cleared && carried.sums.p <= carried.sums.paid
}

/// Whether what is held is at most what was approved, and what is paid at most that and what was cleared. These sums may be
/// any numbers, so they are compared without being added.
fn is_within_approved(approved: u64, sums: &TxnSums) -> bool
    ensures { result ≡ is_within_approved approved sums.now }
{
    sums.g <= approved
        && sums.p <= approved - sums.g
        && sums.s <= approved - sums.g - sums.p
        && sums.paid.saturating_sub(approved) <= sums.cleared
}
