//! A run that serves.
ghost use Rattle.std.specs.Prelude.{◌≡◌, ◌<◌, [], IfOk, IfErr, OnOk};
ghost use Rattle.iss_edge.specs.World.{Told, Stays};
ghost use Rattle.iss_edge.specs.Outer.{ToldBoth};
ghost use Rattle.iss_link.specs.Worlds.{StillTold};
ghost use Rattle.iss_serve.specs.Causes.{IsServeCaused, IsOfDisk};
ghost use Rattle.iss_serve.specs.Held.{seen_held, resting, first_stage, IsHeld, IsOf};
ghost use Rattle.iss_serve.specs.Judged.{Settles};
ghost use Rattle.iss_device.specs.Refusals.{RefusesExactly};
ghost use Rattle.iss_serve.specs.Runs.{ServesTo, ServesInPart, ServesToEnd, ServesUpTo};
ghost use Rattle.iss_serve.specs.ServeRuns.{serve_status, ServeRun, EndsCaused, ServeEndsWell};

use crate::ServeFault;
use crate::closing::close_all;
use crate::held::Held;
use crate::judging::{judge_all, judge_unreached};
use iss_edge::Edge;
use iss_store::Store;
use std::alloc::Global;

/// Opens the device, and sends again what still waits for the gateway. Then it waits at most `turns` times for what comes
/// next: a client, a channel that is ready, or the time. In the end every channel that is still open is closed.
///
/// If a client's channel or one to the gateway fails, that channel is closed, and the run goes on.
///
/// # Errors
///
/// `Device` if the device stands for no records, `Wait` if a wait failed, `Disk` if a call on the device did, and
/// `OutOfMemory`.
#[tactic(auto, using(crate::proofs::ToldServes::told_unopened_serve, crate::proofs::ToldServes::caused_by_opening, crate::proofs::ToldServes::caused_behind))]
pub fn serve<E: Edge>(alloc: Global, turns: u32, edge: &mut E) -> Result<(), ServeFault>
    ensures serving { ToldBoth E.told E.heard (ServeRun turns (serve_status result)) edge.old edge.new }
    ensures refused { Told (RefusesExactly (serve_status result)) (E.told edge.old) (E.told edge.new) }
    ensures caused { EndsCaused (E.faults edge.old) (E.faults edge.new) result }
    ensures complete { Told (ServeEndsWell (E.faults edge.old) (E.faults edge.new) (serve_status result))
        (E.told edge.old) (E.told edge.new) }
{
    let store = Store::open(alloc, edge)?;
    serve_on(alloc, store, turns, edge)
}

/// Serves on a store that was opened.
fn serve_on<E: Edge>(
    alloc: Global,
    store: Store,
    turns: u32,
    edge: &mut E,
) -> Result<(), ServeFault>
    requires size { E.extent edge.old ≡ store.layout.size }
    ensures whole { OnOk result (ToldBoth E.told E.heard (ServesToEnd store turns) edge.old edge.new) }
    ensures part { IfErr result (λ why. ToldBoth E.told E.heard (ServesUpTo (IsOfDisk why) store turns) edge.old edge.new) }
    ensures alone { StillTold E.told edge.old edge.new }
    ensures caused { IsServeCaused (E.faults edge.old) (E.faults edge.new) result }
{
    let mut held = Held::new(alloc, store.core().instance(), turns)?;
    let resumed = resume(alloc, store, &mut held, edge)?;
    wait_on(alloc, resumed, &mut held, edge)?;
    close_all(alloc, &held, edge)?;
    Ok(())
}

/// Sends again what still waits for the gateway, and judges the answers of the calls that weren't reached.
#[tactic(auto, using(iss_link::proofs::Worlds::told_some))]
fn resume<E: Edge>(
    alloc: Global,
    store: Store,
    held: &mut Held,
    edge: &mut E,
) -> Result<Store, ServeFault>
    requires size { E.extent edge.old ≡ store.layout.size }
    requires held { IsHeld held.old }
    requires instance { IsOf store held.old }
    ensures resumed { ServesTo E.told E.heard edge.old edge.new
        (first_stage store (seen_held held.old)) result (resting held.new) }
    ensures part { ServesInPart E.told E.heard edge.old edge.new (first_stage store (seen_held held.old)) result }
    ensures alone { StillTold E.told edge.old edge.new }
    ensures settles { IfOk result (λ next. Settles store next held.old held.new) }
    ensures caused { IsServeCaused (E.faults edge.old) (E.faults edge.new) result }
    ensures kept { Stays E.extent edge.old edge.new }
{
    let gone = store.resume(alloc, edge, &mut held.routes)?;
    held.note_all(&gone)?;
    judge_unreached(alloc, store, held, edge)
}

/// Takes in what comes while waits are left.
fn wait_on<E: Edge>(
    alloc: Global,
    store: Store,
    held: &mut Held,
    edge: &mut E,
) -> Result<Store, ServeFault>
    requires size { E.extent edge.old ≡ store.layout.size }
    requires held { IsHeld held.old }
    requires instance { IsOf store held.old }
    requires settled { held.old.unreached.items ≡ [] }
    ensures waited { ServesTo E.told E.heard edge.old edge.new (resting held.old store) result (resting held.new) }
    ensures part { ServesInPart E.told E.heard edge.old edge.new (resting held.old store) result }
    ensures alone { StillTold E.told edge.old edge.new }
    ensures settled { IfOk result (λ next. held.new.unreached.items ≡ []) }
    ensures turns { IfOk result (λ next. held.new.turns ≡ 0) }
    ensures caused { IsServeCaused (E.faults edge.old) (E.faults edge.new) result }
{
    let mut next = store;
    'turns: while held.turns > 0 {
        next = turn(alloc, next, held, edge)?;
    }
    Ok(next)
}

/// Waits once, takes in what came, and judges what there is to be judged then.
fn turn<E: Edge>(
    alloc: Global,
    store: Store,
    held: &mut Held,
    edge: &mut E,
) -> Result<Store, ServeFault>
    requires size { E.extent edge.old ≡ store.layout.size }
    requires held { IsHeld held.old }
    requires instance { IsOf store held.old }
    requires settled { held.old.unreached.items ≡ [] }
    requires turns { 0 < held.old.turns }
    ensures turned { ServesTo E.told E.heard edge.old edge.new (resting held.old store) result (resting held.new) }
    ensures part { ServesInPart E.told E.heard edge.old edge.new (resting held.old store) result }
    ensures alone { StillTold E.told edge.old edge.new }
    ensures held { IfOk result (λ next. IsHeld held.new) }
    ensures instance { IfOk result (λ next. IsOf next held.new) }
    ensures settled { IfOk result (λ next. held.new.unreached.items ≡ []) }
    ensures turns { IfOk result (λ next. held.new.turns < held.old.turns) }
    ensures same_size { IfOk result (λ next. next.layout.size ≡ store.layout.size) }
    ensures caused { IsServeCaused (E.faults edge.old) (E.faults edge.new) result }
    ensures kept { Stays E.extent edge.old edge.new }
{
    match held.hear(alloc, edge)? {
        Some(queued) => judge_all(alloc, store, held, &queued, edge),
        None => Ok(store),
    }
}
