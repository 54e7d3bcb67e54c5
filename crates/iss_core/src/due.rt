//! What is due, in its order, and the entries of each thing.
ghost use Rattle.std.specs.Prelude.{◌≡◌, ◌++◌, map, fold, not, IfOk, OnOk, IsTrue};
ghost use Rattle.iss_model.specs.Forms.{is_stamp};
ghost use Rattle.iss_model.specs.rules.Activity.{txn_named, call_numbered};
ghost use Rattle.iss_model.specs.rules.Due.{due_items, is_quiet, items_with, thing_entries};
ghost use Rattle.iss_core.specs.States.{facts_of, kept_state};
ghost use Rattle.iss_core.specs.Order.{IsInOrder};
ghost use Rattle.iss_core.specs.Adding.{Adds};
ghost use Rattle.iss_core.specs.Sweeps.{thing_of, HasOwnNames, AreOrdered, merged_things, txn_items, deadline_of, expiry_of, calls_until, calls_after};
ghost use Rattle.iss_core.specs.declared.due.Due.TheVariants.{Call};

use crate::state::State;
use iss_model::{CallId, Entry, Failure, Token};
use std::alloc::{AllocError, Global};

/// A call that isn't answered by its deadline, or a transaction whose holds expire.
#[derive(Clone, Copy)]
pub(crate) enum Due {
    Call(CallId),
    Txn(Token),
}

impl State {
    /// Whether something is due at a moment.
    pub(crate) fn is_due(&self, at: u64) -> bool
        ensures { result ≡ not (is_quiet (due_items (facts_of self.now) at)) }
    {
        self.calls.is_due(at) || self.chain.is_due(at)
    }

    /// All that is due at a moment: by the moment since when, calls before transactions, and then by number.
    pub(crate) fn due(&self, alloc: Global, at: u64) -> Result<Vec<Due>, AllocError>
        requires names { HasOwnNames (kept_state self.now) }
        ensures { IfOk result (λ v. map thing_of v.items ≡ map (λ item. item.thing) (due_items (facts_of self.now) at)) }
    {
        let calls = self.calls.due(alloc, at)?;
        let txns = self.chain.due(alloc, at)?;
        self.merged(alloc, &calls, &txns)
    }

    /// Calls and transactions, each in their order, as one list in its order.
    fn merged(
        &self,
        alloc: Global,
        calls: &[CallId],
        txns: &[Token],
    ) -> Result<Vec<Due>, AllocError>
        requires { AreOrdered (txn_items (facts_of self.now).txns txns.now) }
        ensures { IfOk result (λ v. map thing_of v.items ≡ merged_things (facts_of self.now) calls.now txns.now) }
    {
        let mut due = Vec::new(alloc);
        let mut left = calls;
        for txn in txns {
            left = self.push_until(&mut due, left, self.expiry(txn))?;
            due.push(Due::Txn(*txn))?;
        }
        push_all(&mut due, left)?;
        Ok(due)
    }

    /// Adds the first calls, as far as their deadlines aren't later than a moment. Returns the others.
    fn push_until<'a>(
        &self,
        due: &mut Vec<Due>,
        calls: &'a [CallId],
        until: u64,
    ) -> Result<&'a [CallId], AllocError>
        ensures due { OnOk result (due.new.items ≡ due.old.items ++ map Call (calls_until (facts_of self.now).calls until calls.now)) }
        ensures rest { IfOk result (λ rest. rest.now ≡ calls_after (facts_of self.now).calls until calls.now) }
    {
        for (place, call) in calls.iter().enumerate() {
            if self.deadline(*call) > until {
                return Ok(&calls[place..]);
            }
            due.push(Due::Call(*call))?;
        }
        Ok(&[])
    }

    fn deadline(&self, call: CallId) -> u64
        ensures { result ≡ deadline_of (call_numbered call.0 (facts_of self.now).calls) }
    {
        match self.call(call) {
            Some(call) => call.opened.deadline,
            None => 0,
        }
    }

    fn expiry(&self, txn: &Token) -> u64
        ensures { result ≡ expiry_of (txn_named txn.now (facts_of self.now).txns) }
    {
        match self.hold(txn) {
            Some(hold) => hold.txn.expires,
            None => 0,
        }
    }

    /// The entries of a due thing: a call that isn't answered has failed, a transaction expires, and what an earlier one
    /// has settled makes nothing.
    pub(crate) fn put_due(
        &self,
        alloc: Global,
        out: &mut Vec<Entry>,
        thing: &Due,
        at: u64,
    ) -> Result<(), AllocError>
        requires order { IsInOrder (kept_state self.now) }
        requires stamp { IsTrue (is_stamp at) }
        ensures { OnOk result (Adds out.old out.new (thing_entries (thing_of thing.now) at (facts_of self.now))) }
    {
        match thing {
            Due::Call(call) => match self.asked(*call) {
                Some((opened, txn)) => self.put_failed(out, &opened, &txn, Failure::Timeout, at),
                None => Ok(()),
            },
            Due::Txn(txn) => match self.hold(txn) {
                Some(hold) if hold.live => self.put_expiry(alloc, out, &hold),
                Some(_) | None => Ok(()),
            },
        }
    }
}

fn push_all(due: &mut Vec<Due>, calls: &[CallId]) -> Result<(), AllocError>
    ensures { OnOk result (due.new.items ≡ due.old.items ++ map Call calls.now) }
{
    for call in calls {
        due.push(Due::Call(*call))?;
    }
    Ok(())
}
