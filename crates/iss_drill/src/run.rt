//! A drill, from an empty device to its line.
ghost use Rattle.std.specs.Prelude.{◌≡◌, ◌+◌, ◌*◌, ◌<◌, ◌≤◌, ◌^◌, [], ◌∷◌, ℕ, List, IfOk, OnOk, OnErr, IsTrue, IsSomeAnd};
ghost use Rattle.iss_edge.specs.World.{Told};
ghost use Rattle.iss_journal.specs.declared.layout.TheConstants.{LEAST_SIZE, GREATEST_SIZE};
ghost use Rattle.iss_model.specs.Forms.{is_in_form};
ghost use Rattle.iss_model.specs.run.Runs.{Run};
ghost use Rattle.iss_texts.specs.Sending.{Says, SaysSome};
ghost use Rattle.iss_opening.specs.Standing.{IsOpenedOn};
ghost use Rattle.iss_drill.specs.declared.limits.TheConstants.{MOST_EVENTS};
ghost use Rattle.iss_drill.specs.Drills.{drill_form, drill_seat, drill_run, setup_lines, drill_lines, drill_text, DrillCause};
ghost use Rattle.iss_drill.specs.Tallies.{IsFew};
ghost use Rattle.iss_drill.specs.Giving.{Gives, GivesSetup, GivesEvent};

use crate::DrillFault;
use crate::blank::Blank;
use crate::device::Quiet;
use crate::events::{next_event, outcome_of};
use crate::generator::Generator;
use crate::giving::give;
use crate::report::{drill_line, taken_together};
use crate::setup::{INPUTS, setup_input};
use crate::tally::Tally;
use iss_edge::{Channel, Edge};
use iss_journal::Journal;
use iss_model::Input;
use iss_store::{Routes, Store};
use std::alloc::{AllocError, Global};

/// What a device has for the set-up, in bytes.
const FOR_ALL: u32 = 1_048_576;

/// What it has more for each event, in bytes.
const FOR_EACH: u32 = 512;

/// The time from one event to the next, in milliseconds.
const MINUTE: u64 = 60_000;

/// Runs a drill of `n` events, 1 to 100000, and writes its line on channel 0, by one emit. It is a line of JSON (RFC
/// 8259). It tells what was approved and declined, what then stands, and how many lines, notices, records and repeats
/// there were.
#[tactic(auto, using(crate::proofs::Sending::told_drilled, crate::proofs::Sending::told_undrilled, iss_texts::proofs::ToldSaying::told_none))]
pub fn drill<E: Edge>(alloc: Global, n: u32, edge: &mut E) -> Result<(), DrillFault>
    requires least { 1 ≤ n }
    requires most { n ≤ MOST_EVENTS }
    ensures drilled { OnOk result (Told (Says (drill_text n ∷ [])) (E.told edge.old) (E.told edge.new)) }
    ensures part { OnErr result (Told (SaysSome (drill_text n ∷ [])) (E.told edge.old) (E.told edge.new)) }
    ensures cause { DrillCause (E.faults edge.old) (E.faults edge.new) result }
    ensures kept { E.extent edge.new ≡ E.extent edge.old }
    ensures channels { E.channels edge.new ≡ E.channels edge.old }
{
    let line = drilled(alloc, n)?;
    edge.emit(Channel(0), &line)?;
    Ok(())
}

/// The line of a drill.
fn drilled(alloc: Global, n: u32) -> Result<Vec<u8>, AllocError>
    requires most { n ≤ MOST_EVENTS }
    ensures { IfOk result (λ line. line.items ≡ drill_text n) }
{
    let mut tally = Tally::new();
    let (fresh, mut device) = fresh_store(alloc, FOR_ALL + FOR_EACH * n)?;
    let mut routes = Routes::lines(alloc);
    let ready = set_up(alloc, fresh, &mut routes, &mut device, &mut tally)?;
    let store = give_events(alloc, n, ready, &mut routes, &mut device, &mut tally)?;
    let totals = taken_together(store.core(), &tally);
    drill_line(alloc, &totals)
}

/// A store without a record, and its device of `size` bytes. A call on a device in memory fails only if an allocation does.
fn fresh_store(alloc: Global, size: u32) -> Result<(Store, Quiet), AllocError>
    requires { LEAST_SIZE ≤ size }
    ensures opened { IfOk result (λ x. IsOpenedOn (drill_form x.0.layout.size) drill_seat [] x.0) }
    ensures size { IfOk result (λ x. x.0.layout.size ≡ size) }
    ensures extent { IfOk result (λ x. ⟦<Quiet as Edge>⟧.extent x.1 ≡ size) }
{
    let mut blank = Blank::new(alloc, u64::from(size))?;
    let store = format_and_open(alloc, &mut blank)?;
    let device = Quiet::new(blank.size(), blank.first().to_vec(alloc)?);
    Ok((store, device))
}

/// Makes a device one journal of instance 0 that stands for no records, and opens it. It fails only if an allocation does.
fn format_and_open<E: Edge>(alloc: Global, edge: &mut E) -> Result<Store, AllocError>
    requires least { LEAST_SIZE ≤ E.extent edge.old }
    requires most { E.extent edge.old ≤ GREATEST_SIZE }
    ensures opened { IfOk result (λ store. (device : List ℕ)
        → IsSomeAnd (E.told edge.new) (λ world. device ≡ world.device)
        → IsOpenedOn (drill_form store.layout.size) drill_seat [] store) }
    ensures size { IfOk result (λ store. store.layout.size ≡ E.extent edge.old) }
    ensures kept { E.extent edge.new ≡ E.extent edge.old }
{
    let Ok(()) = Journal::format(edge, 0) else {
        return Err(AllocError);
    };
    match Store::open(alloc, edge) {
        Ok(store) => Ok(store),
        Err(_) => Err(AllocError),
    }
}

/// Gives the store the inputs that a drill begins with.
fn set_up(
    alloc: Global,
    fresh: Store,
    routes: &mut Routes,
    device: &mut Quiet,
    tally: &mut Tally,
) -> Result<Store, AllocError>
    requires size { ⟦<Quiet as Edge>⟧.extent device.old ≡ fresh.layout.size }
    requires start { tally.old.lines ≡ 0 }
    requires few { IsFew 0 tally.old }
    ensures given { (start : Run) → Gives start [] (setup_lines INPUTS) tally.old tally.new fresh result }
    ensures lines { OnOk result (tally.new.lines ≡ INPUTS) }
    ensures few { OnOk result (IsFew INPUTS tally.new) }
    ensures kept { ⟦<Quiet as Edge>⟧.extent device.new ≡ ⟦<Quiet as Edge>⟧.extent device.old }
    ensures size { IfOk result (λ s. s.layout.size ≡ fresh.layout.size) }
{
    let mut store = fresh;
    'inputs: for number in 0..INPUTS {
        store = give_setup(alloc, store, routes, device, number + 1, tally)?;
    }
    Ok(store)
}

/// Gives the store the input of this number, from 1 on, of those that a drill begins with.
fn give_setup(
    alloc: Global,
    store: Store,
    routes: &mut Routes,
    device: &mut Quiet,
    number: u32,
    tally: &mut Tally,
) -> Result<Store, AllocError>
    requires least { 1 ≤ number }
    requires most { number ≤ INPUTS }
    requires size { ⟦<Quiet as Edge>⟧.extent device.old ≡ store.layout.size }
    requires room { tally.old.lines < 2 ^ 20 }
    requires few { IsFew tally.old.lines tally.old }
    ensures given { GivesSetup number tally.old tally.new store result }
    ensures lines { OnOk result (tally.new.lines ≡ tally.old.lines + 1) }
    ensures few { OnOk result (IsFew (tally.old.lines + 1) tally.new) }
    ensures kept { ⟦<Quiet as Edge>⟧.extent device.new ≡ ⟦<Quiet as Edge>⟧.extent device.old }
    ensures size { IfOk result (λ s. s.layout.size ≡ store.layout.size) }
{
    let (next, _) = give(alloc, store, routes, device, &setup_input(number), 0, tally)?;
    Ok(next)
}

/// Gives the store the events, each with the answer of the call that it opens.
fn give_events(
    alloc: Global,
    n: u32,
    ready: Store,
    routes: &mut Routes,
    device: &mut Quiet,
    tally: &mut Tally,
) -> Result<Store, AllocError>
    requires most { n ≤ MOST_EVENTS }
    requires size { ⟦<Quiet as Edge>⟧.extent device.old ≡ ready.layout.size }
    requires start { tally.old.lines ≡ INPUTS }
    requires few { IsFew INPUTS tally.old }
    ensures given { Gives (drill_run n) (setup_lines INPUTS) (drill_lines n) tally.old tally.new ready result }
    ensures lines { OnOk result (tally.new.lines ≤ INPUTS + 2 * n) }
{
    let mut store = ready;
    let mut generator = Generator::new();
    let mut last = Input::Time;
    'events: for before in 0..n {
        let number = before + 1;
        let drawn = generator.draw();
        last = next_event(number, drawn, last);
        store = give_event(alloc, store, routes, device, &last, number, drawn, tally)?;
    }
    Ok(store)
}

/// Gives the store the event of this number, and then the answer of the call that it opens, if it opens one.
fn give_event(
    alloc: Global,
    store: Store,
    routes: &mut Routes,
    device: &mut Quiet,
    event: &Input,
    number: u32,
    y: u32,
    tally: &mut Tally,
) -> Result<Store, AllocError>
    requires most { number ≤ MOST_EVENTS }
    requires size { ⟦<Quiet as Edge>⟧.extent device.old ≡ store.layout.size }
    requires form { IsTrue (is_in_form event.now) }
    requires room { tally.old.lines + 1 < 2 ^ 20 }
    requires few { IsFew tally.old.lines tally.old }
    ensures given { GivesEvent number event.now y tally.old tally.new store result }
    ensures lines { OnOk result (tally.new.lines ≤ tally.old.lines + 2) }
    ensures few { OnOk result (IsFew tally.new.lines tally.new) }
    ensures kept { ⟦<Quiet as Edge>⟧.extent device.new ≡ ⟦<Quiet as Edge>⟧.extent device.old }
    ensures size { IfOk result (λ s. s.layout.size ≡ store.layout.size) }
{
    let at = MINUTE * u64::from(number);
    let (next, opened) = give(alloc, store, routes, device, event, at, tally)?;
    let Some(call) = opened else {
        return Ok(next);
    };
    let outcome = outcome_of(y);
    let answer = Input::Answer { call, outcome };
    let (answered, _) = give(alloc, next, routes, device, &answer, at, tally)?;
    Ok(answered)
}
