//! Inputs are judged one after the other. What a record makes lasts before anything of it goes out.
ghost use Rattle.std.specs.Prelude.{◌≡◌, ◌<◌, [], true, IfOk, OnOk};
ghost use Rattle.iss_edge.specs.World.{Stays};
ghost use Rattle.iss_store.specs.Planning.{IsPlanOf};
ghost use Rattle.iss_store.specs.Routes.{IsServed};
ghost use Rattle.iss_store.specs.Saying.{IsDurableOf};
ghost use Rattle.iss_link.specs.Worlds.{StillTold};
ghost use Rattle.iss_serve.specs.Causes.{IsServeCaused};
ghost use Rattle.iss_serve.specs.Held.{seen_held, queued_as, answers_unreached, IsQueuedInForm, judging_first, left_to_judge, resting, CallsNumbered, IsHeld, IsStillHeld, IsOf, records_left};
ghost use Rattle.iss_serve.specs.Judged.{Judges, Settles, waiting_for, IsPlannedFor};
ghost use Rattle.iss_serve.specs.Runs.{ServesTo, ServesInPart, JudgesFirst, JudgesOnce, JudgesPart, KeepsPlan, tasks_told, tasks_said, SendsFirst, SendsFirstPart};

use crate::ServeFault;
use crate::hearing::answer;
use crate::held::{Held, QueuedInput};
use iss_edge::Edge;
use iss_model::{Answer, CallId, Outcome};
use iss_store::{Durable, PlanFault, Planned, Store};
use std::alloc::{AllocError, Global};
use std::mem;

/// Judges an input, and then the answers of the calls that weren't reached, in their order.
pub(crate) fn judge_all<E: Edge>(
    alloc: Global,
    store: Store,
    held: &mut Held,
    first: &QueuedInput,
    edge: &mut E,
) -> Result<Store, ServeFault>
    requires size { E.extent edge.old ≡ store.layout.size }
    requires held { IsHeld held.old }
    requires instance { IsOf store held.old }
    requires form { IsQueuedInForm first.now }
    ensures judged { ServesTo E.told E.heard edge.old edge.new (judging_first store held.old first.now []) result (resting held.new) }
    ensures part { ServesInPart E.told E.heard edge.old edge.new (judging_first store held.old first.now []) result }
    ensures alone { StillTold E.told edge.old edge.new }
    ensures settles { IfOk result (λ next. Settles store next held.old held.new) }
    ensures caused { IsServeCaused (E.faults edge.old) (E.faults edge.new) result }
    ensures kept { Stays E.extent edge.old edge.new }
{
    let next = judge(alloc, store, held, first, edge)?;
    judge_unreached(alloc, next, held, edge)
}

/// Judges the answers of the calls that weren't reached, in their order, and of those that aren't reached meanwhile.
pub(crate) fn judge_unreached<E: Edge>(
    alloc: Global,
    store: Store,
    held: &mut Held,
    edge: &mut E,
) -> Result<Store, ServeFault>
    requires size { E.extent edge.old ≡ store.layout.size }
    requires held { IsHeld held.old }
    requires instance { IsOf store held.old }
    ensures judged { ServesTo E.told E.heard edge.old edge.new (resting held.old store) result (resting held.new) }
    ensures part { ServesInPart E.told E.heard edge.old edge.new (resting held.old store) result }
    ensures alone { StillTold E.told edge.old edge.new }
    ensures settles { IfOk result (λ next. Settles store next held.old held.new) }
    ensures caused { IsServeCaused (E.faults edge.old) (E.faults edge.new) result }
    ensures kept { Stays E.extent edge.old edge.new }
{
    let mut next = store;
    'calls: while !held.unreached.is_empty() {
        let calls = held.take_unreached(alloc);
        next = judge_each(alloc, next, held, &calls, edge)?;
    }
    Ok(next)
}

/// Judges the answers of these calls, which weren't reached.
fn judge_each<E: Edge>(
    alloc: Global,
    store: Store,
    held: &mut Held,
    calls: &[CallId],
    edge: &mut E,
) -> Result<Store, ServeFault>
    requires size { E.extent edge.old ≡ store.layout.size }
    requires held { IsHeld held.old }
    requires numbered { CallsNumbered calls.now }
    requires instance { IsOf store held.old }
    ensures judged { ServesTo E.told E.heard edge.old edge.new
        (left_to_judge held.old (answers_unreached calls.now) store) result (resting held.new) }
    ensures part { ServesInPart E.told E.heard edge.old edge.new
        (left_to_judge held.old (answers_unreached calls.now) store) result }
    ensures alone { StillTold E.told edge.old edge.new }
    ensures judges { IfOk result (λ next. Judges store next held.old held.new) }
    ensures caused { IsServeCaused (E.faults edge.old) (E.faults edge.new) result }
    ensures kept { Stays E.extent edge.old edge.new }
{
    let mut next = store;
    for call in calls {
        let queued = answer(*call, Outcome::Connection);
        next = judge(alloc, next, held, &queued, edge)?;
    }
    Ok(next)
}

/// Judges an input. If a time record goes before its answer, that is made first, and the input is judged again.
fn judge<E: Edge>(
    alloc: Global,
    store: Store,
    held: &mut Held,
    queued: &QueuedInput,
    edge: &mut E,
) -> Result<Store, ServeFault>
    requires size { E.extent edge.old ≡ store.layout.size }
    requires held { IsHeld held.old }
    requires instance { IsOf store held.old }
    requires form { IsQueuedInForm queued.now }
    ensures judged { JudgesFirst E.told E.heard edge.old edge.new store held.old held.new queued.now result }
    ensures part { JudgesPart E.told E.heard edge.old edge.new store held.old queued.now result }
    ensures alone { StillTold E.told edge.old edge.new }
    ensures judges { IfOk result (λ next. Judges store next held.old held.new) }
    ensures caused { IsServeCaused (E.faults edge.old) (E.faults edge.new) result }
    ensures kept { Stays E.extent edge.old edge.new }
{
    let mut next = store;
    'again: loop {
        let (after, more) = judge_once(alloc, next, held, queued, edge)?;
        next = after;
        if !more {
            return Ok(next);
        }
    }
}

/// Judges an input once, and tells whether it is to be judged again, after a time record that was made first.
fn judge_once<E: Edge>(
    alloc: Global,
    mut store: Store,
    held: &mut Held,
    queued: &QueuedInput,
    edge: &mut E,
) -> Result<(Store, bool), ServeFault>
    requires size { E.extent edge.old ≡ store.layout.size }
    requires held { IsHeld held.old }
    requires instance { IsOf store held.old }
    requires form { IsQueuedInForm queued.now }
    ensures judged { JudgesOnce E.told E.heard edge.old edge.new store held.old held.new queued.now result }
    ensures part { JudgesPart E.told E.heard edge.old edge.new store held.old queued.now result }
    ensures alone { StillTold E.told edge.old edge.new }
    ensures judges { IfOk result (λ x. Judges store x.0 held.old held.new) }
    ensures again { IfOk result (λ x. x.1 ≡ true → records_left x.0 < records_left store) }
    ensures caused { IsServeCaused (E.faults edge.old) (E.faults edge.new) result }
    ensures kept { Stays E.extent edge.old edge.new }
{
    match store.plan(alloc, &queued.input, held.clock) {
        Ok(planned) => {
            let more = planned.more();
            let next = keep(alloc, store, held, planned, queued, edge)?;
            Ok((next, more))
        }
        Err(PlanFault::Told(answer)) => {
            tell(alloc, &store, held, queued, &answer, edge)?;
            Ok((store, false))
        }
        Err(PlanFault::OutOfMemory) => Err(ServeFault::OutOfMemory),
    }
}

/// Makes the record of a plan last, lets the client of a new event wait for it, and then sends what the record says.
#[tactic(auto, using(iss_link::proofs::Worlds::told_some))]
fn keep<E: Edge>(
    alloc: Global,
    store: Store,
    held: &mut Held,
    planned: Planned,
    queued: &QueuedInput,
    edge: &mut E,
) -> Result<Store, ServeFault>
    requires size { E.extent edge.old ≡ store.layout.size }
    requires held { IsHeld held.old }
    requires instance { IsOf store held.old }
    requires plan { IsPlanOf store planned }
    requires planned_for { IsPlannedFor store held.old.clock queued.now.input planned }
    ensures judged { KeepsPlan E.told E.heard edge.old edge.new store planned held.old held.new queued.now result }
    ensures part { JudgesPart E.told E.heard edge.old edge.new store held.old queued.now result }
    ensures alone { StillTold E.told edge.old edge.new }
    ensures judges { IfOk result (λ next. Judges store next held.old held.new) }
    ensures less { IfOk result (λ next. records_left next < records_left store) }
    ensures caused { IsServeCaused (E.faults edge.old) (E.faults edge.new) result }
    ensures kept { Stays E.extent edge.old edge.new }
{
    let more = planned.more();
    let (next, durable) = store.commit(alloc, edge, planned)?;
    held.wait_for(queued, more)?;
    release(alloc, &next, held, durable, edge)?;
    Ok(next)
}

/// Sends what a record says, and notes what became of it.
#[tactic(auto, using(iss_link::proofs::Worlds::told_some))]
fn release<E: Edge>(
    alloc: Global,
    store: &Store,
    held: &mut Held,
    durable: Durable,
    edge: &mut E,
) -> Result<(), ServeFault>
    requires last { IsDurableOf store.now durable }
    requires routes { IsServed held.old.routes }
    ensures released { SendsFirst E.told E.heard edge.old edge.new
        store.now held.old held.new (tasks_said store.now durable held.old) result }
    ensures part { SendsFirstPart E.told E.heard edge.old edge.new
        store.now held.old (tasks_said store.now durable held.old) result }
    ensures alone { StillTold E.told edge.old edge.new }
    ensures still { OnOk result (IsStillHeld held.old held.new) }
    ensures caused { IsServeCaused (E.faults edge.old) (E.faults edge.new) result }
    ensures kept { Stays E.extent edge.old edge.new }
{
    let gone = store.release(alloc, edge, durable, &mut held.routes)?;
    held.note_all(&gone)?;
    Ok(())
}

/// Tells a client why its input makes no record. If the input came from the gateway or the clock, nobody is told.
#[tactic(auto, using(iss_link::proofs::Worlds::told_some))]
fn tell<E: Edge>(
    alloc: Global,
    store: &Store,
    held: &mut Held,
    queued: &QueuedInput,
    answer: &Answer,
    edge: &mut E,
) -> Result<(), ServeFault>
    requires routes { IsServed held.old.routes }
    ensures told { SendsFirst E.told E.heard edge.old edge.new
        store.now held.old held.new (tasks_told queued.now answer.now) result }
    ensures part { SendsFirstPart E.told E.heard edge.old edge.new
        store.now held.old (tasks_told queued.now answer.now) result }
    ensures alone { StillTold E.told edge.old edge.new }
    ensures still { OnOk result (IsStillHeld held.old held.new) }
    ensures unreached { OnOk result (held.new.unreached.items ≡ held.old.unreached.items) }
    ensures caused { IsServeCaused (E.faults edge.old) (E.faults edge.new) result }
    ensures kept { Stays E.extent edge.old edge.new }
{
    let Some(ch) = queued.client else {
        return Ok(());
    };
    store.tell(alloc, edge, &mut held.routes, ch, answer)?;
    held.routes.forget(ch);
    Ok(())
}

impl Held {
    /// The client of a new event waits until it is decided. If a time record only goes before an answer, nobody waits.
    fn wait_for(&mut self, queued: &QueuedInput, is_clock: bool) -> Result<(), AllocError>
        ensures now { OnOk result (seen_held self.new ≡ waiting_for (queued_as queued.now) is_clock (seen_held self.old)) }
        ensures still { OnOk result (IsStillHeld self.old self.new) }
    {
        if is_clock {
            return Ok(());
        }
        match (queued.client, queued.input.event()) {
            (Some(ch), Some(event)) => self.routes.wait_for(&event, ch),
            _ => Ok(()),
        }
    }

    /// The calls that weren't reached, of which none is left then.
    fn take_unreached(&mut self, alloc: Global) -> Vec<CallId>
        ensures calls { result.items ≡ self.old.unreached.items }
        ensures now { seen_held self.new ≡ record (seen_held self.old) { unreached = [] } }
        ensures still { IsStillHeld self.old self.new }
    {
        mem::replace(&mut self.unreached, Vec::new(alloc))
    }
}
