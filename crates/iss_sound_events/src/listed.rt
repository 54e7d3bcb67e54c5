//! Which transactions are listed.
ghost use Rattle.std.specs.Prelude.{◌≡◌, IfOk, OnOk};
ghost use Rattle.std.specs.List.{list_all};
ghost use Rattle.iss_sound_events.specs.Done.{AddsName, AreNamesOf, done_txn, is_among_if_done, is_listed_if_done, settled_txn, settles_nothing};

use crate::totals::is_done;
use iss_index::Names;
use iss_model::{Carried, Input, Seen, Token};
use std::alloc::{AllocError, Global};

/// Whether each clearing and each refund that was done is of a listed transaction. If none was done, none is looked up.
#[tactic(auto, using(crate::proofs::SumsDone::among_listed, crate::proofs::SumsDone::none_settled))]
pub(crate) fn are_done_listed(
    alloc: Global,
    events: &[Seen],
    txns: &[Carried],
) -> Result<bool, AllocError>
    ensures { IfOk result (λ listed. listed ≡ list_all (is_listed_if_done txns.now) events.now) }
{
    if do_settle_nothing(events) {
        return Ok(true);
    }
    let names = names_of(alloc, txns)?;
    Ok(are_done_of_listed(&names, events))
}

/// Whether no clearing and no refund was done.
fn do_settle_nothing(events: &[Seen]) -> bool
    ensures { result ≡ list_all settles_nothing events.now }
{
    events.iter().all(settles_nothing)
}

fn settles_nothing(event: &Seen) -> bool
    ensures { result ≡ settles_nothing event.now }
{
    done_txn(event).is_none()
}

/// The names of these transactions, each once.
fn names_of(alloc: Global, txns: &[Carried]) -> Result<Names, AllocError>
    ensures { IfOk result (λ names. AreNamesOf names txns.now) }
{
    let mut names = Names::new(alloc);
    for carried in txns {
        add_once(&mut names, &carried.txn)?;
    }
    Ok(names)
}

/// Adds a name if it isn't there.
fn add_once(names: &mut Names, name: &Token) -> Result<(), AllocError>
    ensures { OnOk result (AddsName name.now names.old names.new) }
{
    if names.find(name).is_some() {
        return Ok(());
    }
    names.add(name)?;
    Ok(())
}

/// Whether each clearing and each refund that was done is of a transaction among these names.
fn are_done_of_listed(names: &Names, events: &[Seen]) -> bool
    ensures { result ≡ list_all (is_among_if_done names.now) events.now }
{
    events.iter().all(|event| is_among_if_done(names, event))
}

fn is_among_if_done(names: &Names, event: &Seen) -> bool
    ensures { result ≡ is_among_if_done names.now event.now }
{
    match done_txn(event) {
        Some(txn) => names.find(&txn).is_some(),
        None => true,
    }
}

/// The transaction of a clearing or a refund, if it was done.
fn done_txn(event: &Seen) -> Option<Token>
    ensures { result ≡ done_txn event.now.verdict event.now.body.input }
{
    if is_done(event.verdict) {
        settled_txn(&event.body.input)
    } else {
        None
    }
}

fn settled_txn(input: &Input) -> Option<Token>
    ensures { result ≡ settled_txn input.now }
{
    match input {
        Input::Clearing { txn, .. } => Some(*txn),
        Input::Refund { txn, .. } => Some(*txn),
        _ => None,
    }
}
