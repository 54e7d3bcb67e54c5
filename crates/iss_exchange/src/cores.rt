//! Cores of records that stand.
ghost use Rattle.std.specs.Prelude.{◌≡◌, ◌<◌, ◌≤◌, IfOk, OnOk, List, length, map, ◌++◌, ◌∷◌, []};
ghost use Rattle.iss_model.specs.declared.input.Record.{Record};
ghost use Rattle.iss_model.specs.declared.limits.TheConstants.{INSTANCES, MOST_RECORDS};
ghost use Rattle.iss_model.specs.rules.Histories.{IsLegal};
ghost use Rattle.iss_model.specs.state.Cores.{core_facts};
ghost use Rattle.iss_state.specs.Numbers.{CallsNumberedFrom};
ghost use Rattle.iss_state.specs.Sound.{AreInForm};
ghost use Rattle.iss_core.specs.Values.{CoreStandsFor};
ghost use Rattle.iss_exchange.specs.Standing.{AreStamped};

use iss_core::Core;
use iss_model::{CallId, Opened, Record};
use std::alloc::{AllocError, Global};

/// The core of an instance that stands for these records.
pub(crate) fn core_of(alloc: Global, instance: u64, records: &[Record]) -> Result<Core, AllocError>
    requires instance { instance < INSTANCES }
    requires legal { IsLegal records.now }
    requires form { AreInForm records.now }
    requires stamps { AreStamped records.now }
    requires room { length records.now ≤ MOST_RECORDS }
    ensures { IfOk result (λ core. CoreStandsFor core records.now) }
{
    let mut core = Core::new(alloc, instance)?;
    for record in records {
        let (next, _) = core.step(alloc, record)?;
        core = next;
    }
    Ok(core)
}

/// All calls that were ever asked, as they were opened, by number.
pub(crate) fn calls_of(alloc: Global, core: &Core) -> Result<Vec<Opened>, AllocError>
    requires numbered { CallsNumberedFrom 1 (core_facts core.now.state).calls }
    requires few { length (core_facts core.now.state).calls ≤ MOST_RECORDS }
    ensures { IfOk result (λ calls. calls.items ≡ map (λ c. c.opened) (core_facts core.now.state).calls) }
{
    let mut calls = Vec::new(alloc);
    let mut count = 0;
    'calls: while let Some(opened) = core.opened(CallId(count + 1)) {
        push(&mut calls, &opened)?;
        count += 1;
    }
    Ok(calls)
}

/// Adds a thing after the others.
pub(crate) fn push<T: Copy + Drop>(things: &mut Vec<T>, thing: &T) -> Result<(), AllocError>
    ensures { OnOk result (things.new.items ≡ things.old.items ++ thing.now ∷ []) }
{
    things.push(*thing)?;
    Ok(())
}
