//! A line of a drill: it is planned, committed and released as a line that comes in.
ghost use Rattle.std.specs.Prelude.{◌≡◌, ◌+◌, ◌<◌, ◌^◌, Bool, Option, IfOk, IfSome, OnOk, IsTrue};
ghost use Rattle.iss_model.specs.Forms.{is_in_form, is_stamp};
ghost use Rattle.iss_model.specs.run.Runs.{Run};
ghost use Rattle.iss_store.specs.Planning.{IsPlanOf};
ghost use Rattle.iss_drill.specs.Drills.{is_repeat};
ghost use Rattle.iss_drill.specs.Tallies.{IsFew};
ghost use Rattle.iss_drill.specs.Giving.{StandsAtRun, Keeps, TellsAnswer, IsCallNumbered, TakesInput, TellsLeft, GivesInput, OpensCall};

use crate::tally::{Tally, call_opened};
use iss_edge::{Channel, Edge};
use iss_model::{Answer, CallId, Input, Judged};
use iss_store::{PlanFault, Planned, Routes, Store};
use std::alloc::{AllocError, Global};

/// Gives the store an input at a stamp, and counts what it comes to. Returns the store after it, and the call that it opened,
/// if it opened one. A call on a device in memory fails only if an allocation does.
#[tactic(auto, using(crate::proofs::Given::given_few))]
pub(crate) fn give<E: Edge>(
    alloc: Global,
    store: Store,
    routes: &mut Routes,
    device: &mut E,
    input: &Input,
    at: u64,
    tally: &mut Tally,
) -> Result<(Store, Option<CallId>), AllocError>
    requires size { E.extent device.old ≡ store.layout.size }
    requires input_form { IsTrue (is_in_form input.now) }
    requires stamp { IsTrue (is_stamp at) }
    requires room { tally.old.lines < 2 ^ 20 }
    requires few { IsFew tally.old.lines tally.old }
    ensures given { GivesInput input.now at tally.old tally.new store result }
    ensures opened { OpensCall input.now at tally.old store result }
    ensures lines { OnOk result (tally.new.lines ≡ tally.old.lines + 1) }
    ensures numbered { IfOk result (λ x. IfSome x.1 IsCallNumbered) }
    ensures few { OnOk result (IsFew (tally.old.lines + 1) tally.new) }
    ensures kept { E.extent device.new ≡ E.extent device.old }
    ensures size { IfOk result (λ x. x.0.layout.size ≡ store.layout.size) }
{
    let taken = take(alloc, store, routes, device, input, at, tally)?;
    tally.lines += 1;
    Ok(taken)
}

/// Plans an input and keeps its record, or tells it why it makes none.
fn take<E: Edge>(
    alloc: Global,
    mut store: Store,
    routes: &mut Routes,
    device: &mut E,
    input: &Input,
    at: u64,
    tally: &mut Tally,
) -> Result<(Store, Option<CallId>), AllocError>
    requires size { E.extent device.old ≡ store.layout.size }
    requires input_form { IsTrue (is_in_form input.now) }
    requires stamp { IsTrue (is_stamp at) }
    requires room { tally.old.lines < 2 ^ 20 }
    requires few { IsFew tally.old.lines tally.old }
    ensures takes { TakesInput input.now at tally.old tally.new store result }
    ensures lines { OnOk result (tally.new.lines ≡ tally.old.lines) }
    ensures numbered { IfOk result (λ x. IfSome x.1 IsCallNumbered) }
    ensures few { OnOk result (IsFew (tally.old.lines + 1) tally.new) }
    ensures kept { E.extent device.new ≡ E.extent device.old }
    ensures size { IfOk result (λ x. x.0.layout.size ≡ store.layout.size) }
{
    match store.plan(alloc, input, at) {
        Ok(planned) => {
            let more = planned.more();
            let (next, opened) = keep(alloc, store, routes, device, planned, tally)?;
            if !more {
                return Ok((next, opened));
            }
            tell_left(alloc, &next, routes, device, input, at, tally)?;
            Ok((next, opened))
        }
        Err(PlanFault::Told(answer)) => {
            tell(alloc, &store, routes, device, &answer, tally)?;
            Ok((store, None))
        }
        Err(PlanFault::OutOfMemory) => Err(AllocError),
    }
}

/// Makes the record of a plan last, and then sends what comes of it.
fn keep<E: Edge>(
    alloc: Global,
    store: Store,
    routes: &mut Routes,
    device: &mut E,
    planned: Planned,
    tally: &mut Tally,
) -> Result<(Store, Option<CallId>), AllocError>
    requires size { E.extent device.old ≡ store.layout.size }
    requires plan { IsPlanOf store planned }
    requires room { tally.old.lines < 2 ^ 20 }
    requires few { IsFew tally.old.lines tally.old }
    ensures keeps { (run : Run) → StandsAtRun store run → IfOk result (λ x. Keeps run planned.accepted tally.old tally.new x.0 x.1) }
    ensures lines { OnOk result (tally.new.lines ≡ tally.old.lines) }
    ensures repeats { OnOk result (tally.new.repeats ≡ tally.old.repeats) }
    ensures numbered { IfOk result (λ x. IfSome x.1 IsCallNumbered) }
    ensures few { OnOk result (IsFew (tally.old.lines + 1) tally.new) }
    ensures kept { E.extent device.new ≡ E.extent device.old }
    ensures size { IfOk result (λ x. x.0.layout.size ≡ store.layout.size) }
{
    let Ok((next, durable)) = store.commit(alloc, device, planned) else {
        return Err(AllocError);
    };
    tally.count(durable.entries());
    let opened = call_opened(durable.entries());
    match next.release(alloc, device, durable, routes) {
        Ok(_) => Ok((next, opened)),
        Err(_) => Err(AllocError),
    }
}

/// Sends an input that isn't new its answer, after the time is taken up.
fn tell_left<E: Edge>(
    alloc: Global,
    store: &Store,
    routes: &mut Routes,
    device: &mut E,
    input: &Input,
    at: u64,
    tally: &mut Tally,
) -> Result<(), AllocError>
    requires input_form { IsTrue (is_in_form input.now) }
    requires stamp { IsTrue (is_stamp at) }
    requires room { tally.old.repeats < 2 ^ 20 }
    ensures tells { TellsLeft input.now at tally.old tally.new store.now result }
    ensures told { OnOk result ((yes : Bool) × TellsAnswer yes tally.old tally.new) }
    ensures kept { E.extent device.new ≡ E.extent device.old }
{
    match store.core().judge(alloc, input, at)? {
        Judged::Told(answer) => tell(alloc, store, routes, device, &answer, tally),
        Judged::New(_) => Ok(()),
        Judged::Clock(_) => Ok(()),
    }
}

/// Sends an input its answer, and counts it if it is a repeat.
fn tell<E: Edge>(
    alloc: Global,
    store: &Store,
    routes: &mut Routes,
    device: &mut E,
    answer: &Answer,
    tally: &mut Tally,
) -> Result<(), AllocError>
    requires room { tally.old.repeats < 2 ^ 20 }
    ensures tells { OnOk result (TellsAnswer (is_repeat answer.now) tally.old tally.new) }
    ensures kept { E.extent device.new ≡ E.extent device.old }
{
    tally.count_answer(answer);
    match store.tell(alloc, device, routes, Channel(0), answer) {
        Ok(()) => Ok(()),
        Err(_) => Err(AllocError),
    }
}
