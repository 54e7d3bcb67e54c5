//! Calls as they are known.
ghost use Rattle.std.specs.Prelude.{◌≡◌, [], ◌∷◌, ◌++◌, ◌+◌, option_map, length, IfOk, OnOk, OnErr};
ghost use Rattle.iss_model.specs.rules.Activity.{call_numbered};
ghost use Rattle.iss_states.specs.Rebuilding.{how_of_mark};

use iss_model::{CallId, CallState, How, Opened};
use std::alloc::{AllocError, Global};
use std::marker::Model;

/// A call as it was opened, and how it was closed.
#[derive(Clone, Copy)]
pub struct CallKnown {
    pub opened: Opened,
    /// `None` while it is asked.
    pub how: Option<How>,
}

impl Model for CallKnown {
    ghost use Rattle.iss_model.specs.rules.Activity.{CallNow};

    ghost Value = { CallNow };

    ghost view = { λ c. record { opened = c.opened; how = c.how } };

    ghost inverse = { λ c. record { opened = c.opened; how = c.how } };

    ghost inverse_ok = { λ a h. λ i. a };
}

/// Calls in the order of their numbers, from 1. Contracts see their list.
#[derive(Drop)]
pub(crate) struct Calls {
    list: Vec<CallKnown>,
}

impl Model for Calls {
    ghost use Rattle.std.specs.Prelude.{List};
    ghost use Rattle.iss_model.specs.rules.Activity.{CallNow};

    ghost Value = { List CallNow };

    ghost use Rattle.iss_known.specs.Reading.{AreNumbered};

    ghost view = { λ c. c.list.items };

    ghost invariant = { λ c. AreNumbered 1 c.list.items };
}

impl Calls {
    /// No call. Nothing is allocated.
    pub(crate) fn new(alloc: Global) -> Calls
        ensures { result ≡ [] }
    {
        Calls {
            list: Vec::new(alloc),
        }
    }

    pub(crate) fn as_slice(&self) -> &[CallKnown]
        ensures { result.now ≡ self.now }
    {
        &self.list
    }

    /// The call of that number, or `None` if there is none.
    pub(crate) fn get(&self, id: CallId) -> Option<&CallKnown>
        ensures { option_map (λ found. found.now) result ≡ call_numbered id.0 self.now }
    {
        let calls = self.list.as_slice();
        calls.get((id.0 as usize).checked_sub(1)?)
    }

    /// The number of the next call. If 2^32 - 1 calls stand, that is a failed allocation.
    pub(crate) fn next(&self) -> Result<CallId, AllocError>
        ensures { IfOk result (λ id. id.0 ≡ length self.now + 1) }
    {
        match u32::try_from(self.list.len()) {
            Ok(count) if count < u32::MAX => Ok(CallId(count + 1)),
            _ => Err(AllocError),
        }
    }

    /// Adds a call of the next number. If an allocation fails, all stays as it was.
    pub(crate) fn add(&mut self, call: CallKnown) -> Result<(), AllocError>
        requires { call.opened.call.0 ≡ length self.old + 1 }
        ensures added { OnOk result (self.new ≡ self.old ++ call ∷ []) }
        ensures refused { OnErr result (self.new ≡ self.old) }
    {
        self.list.push(call)?;
        Ok(())
    }
}

/// How a call with that mark was closed, if it is.
pub(crate) fn how_of_mark(mark: CallState) -> Option<How>
    ensures { result ≡ how_of_mark mark }
{
    match mark {
        CallState::Closed(how) => Some(how),
        CallState::Asked | CallState::Unknown => None,
    }
}
