//! The calls that are asked, by their transactions.
ghost use Rattle.std.specs.Prelude.{◌≡◌, List, is_some, IfOk, OnOk};
ghost use Rattle.std.specs.BTreeMap.{BTreeMap};
ghost use Rattle.iss_model.specs.rules.Activity.{CallNow, is_asked};
ghost use Rattle.iss_well_formed.specs.Txns.{has_authorization_asked};
ghost use Rattle.iss_sound_parts.specs.Asking.{AreEventsAsked, IsAskedOf, IsEntered, event_in, has_event, is_alone_by, is_looked_for};

use iss_known::{CallKnown, Known};
use iss_model::{Method, Token};
use std::alloc::{AllocError, Global};
use std::collections::BTreeMap;

/// The transactions of which a call is asked: each with the event of its first such call, and of its first authorisation
/// that is asked, if there is one.
#[derive(Drop)]
pub struct Asked {
    authorizations: BTreeMap<Token, Token>,
    calls: BTreeMap<Token, Token>,
}

impl Asked {
    /// What is asked among the calls of a state.
    pub fn of(alloc: Global, known: &Known) -> Result<Asked, AllocError>
        ensures { IfOk result (IsAskedOf known.now.calls) }
    {
        let authorizations = events_asked(alloc, known.calls(), true)?;
        let calls = events_asked(alloc, known.calls(), false)?;
        Ok(Asked {
            authorizations,
            calls,
        })
    }

    /// Whether the call of a transaction's authorisation is asked.
    pub fn has_authorization(&self, txn: &Token) -> bool
        ensures known { result ≡ has_event self.now.authorizations txn.now }
        ensures asked { (calls : List CallNow) → IsAskedOf calls self.now → result ≡ has_authorization_asked calls txn.now }
    {
        self.authorizations.contains_key(txn)
    }

    /// Whether any call of a transaction is asked.
    pub(crate) fn has_call(&self, txn: &Token) -> bool
        ensures { result ≡ has_event self.now.calls txn.now }
    {
        self.calls.contains_key(txn)
    }

    /// Whether a call isn't asked, or no authorisation of its transaction is asked but that of this call's event.
    pub(crate) fn is_alone(&self, call: &CallKnown) -> bool
        ensures { result ≡ is_alone_by (event_in self.now.authorizations) call.now }
    {
        match self.authorizations.get(&call.opened.txn) {
            Some(event) => !is_asked(call) || call.opened.event == *event,
            None => true,
        }
    }
}

/// The event of the first asked call of each transaction, or of its first asked authorisation if only those are looked for.
/// Later calls go in first, so that earlier ones take their place.
fn events_asked(
    alloc: Global,
    calls: &[CallKnown],
    only_authorizations: bool,
) -> Result<BTreeMap<Token, Token>, AllocError>
    ensures { IfOk result (AreEventsAsked only_authorizations calls.now) }
{
    let mut events = BTreeMap::new(alloc);
    for call in calls.iter().rev() {
        enter(&mut events, call, only_authorizations)?;
    }
    Ok(events)
}

/// Enters a call's event by its transaction, if the call is looked for.
fn enter(
    events: &mut BTreeMap<Token, Token>,
    call: &CallKnown,
    only_authorizations: bool,
) -> Result<(), AllocError>
    ensures { OnOk result (IsEntered only_authorizations call.now events.old events.new) }
{
    if !is_looked_for(call, only_authorizations) {
        return Ok(());
    }
    events.insert(call.opened.txn, call.opened.event)?;
    Ok(())
}

/// Whether a call is asked, and is an authorisation's if only those are looked for.
fn is_looked_for(call: &CallKnown, only_authorizations: bool) -> bool
    ensures { result ≡ is_looked_for only_authorizations call.now }
{
    is_asked(call) && (!only_authorizations || call.opened.method == Method::Authorization)
}

/// Whether a call hasn't been closed.
pub(crate) fn is_asked(call: &CallKnown) -> bool
    ensures { result ≡ is_asked call.now }
{
    call.how.is_none()
}
