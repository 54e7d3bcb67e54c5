//! What a line does on a store, and what it is told.
ghost use Rattle.std.specs.Prelude.{◌≡◌, [], ◌∷◌, IfOk, OnOk, OnErr, IsTrue};
ghost use Rattle.iss_edge.specs.World.{Told, Stays};
ghost use Rattle.iss_edge.specs.Outer.{ToldBoth};
ghost use Rattle.iss_model.specs.Forms.{is_in_form, is_stamp, is_stamp_or_none};
ghost use Rattle.iss_event.specs.FormLines.{form_text};
ghost use Rattle.iss_texts.specs.Sending.{Says, SaysSome};
ghost use Rattle.iss_store.specs.Planning.{IsPlanOf};
ghost use Rattle.iss_store.specs.Routes.{IsLines};
ghost use Rattle.iss_top.specs.Hearing.{SendsAsHeard, SendsOnBook};
ghost use Rattle.iss_top.specs.Replaying.{told_line, response_to_line, response_to_plan, texts_left, TakesTo, TakesInPart, IsTaking};

use crate::buffer::is_blank;
use crate::stop::Stop;
use crate::workspace::Workspace;
use iss_edge::{Channel, Edge};
use iss_event::{FormFault, Line, LineFault, Mode, read_line_in};
use iss_model::{Input, Judged};
use iss_store::{PlanFault, Planned, Routes, Store};
use iss_texts::Texts;
use std::alloc::Global;

/// Takes a line: what it makes lasts before anything of it goes out. Returns the store after it. A blank line is told nothing.
pub(crate) fn take_line<E: Edge>(
    alloc: Global,
    store: Store,
    line: &[u8],
    workspace: &mut Workspace,
    routes: &mut Routes,
    edge: &mut E,
) -> Result<Store, Stop>
    requires size { E.extent edge.old ≡ store.layout.size }
    requires lines { IsLines routes.old }
    ensures taken { TakesTo E.told edge.old edge.new (λ s. told_line s line.now) store result }
    ensures part { TakesInPart E.told edge.old edge.new (λ s. told_line s line.now) store result }
    ensures heard { ToldBoth E.told E.heard (SendsOnBook store) edge.old edge.new }
    ensures taking { IsTaking (E.faults edge.old) (E.faults edge.new) result }
    ensures kept { Stays E.extent edge.old edge.new }
    ensures size { IfOk result (λ next. next.layout.size ≡ store.layout.size) }
    ensures lines { IsLines routes.new }
{
    if is_blank(line) {
        return Ok(store);
    }
    let Workspace { scratch, texts } = workspace;
    match read_line_in(scratch, alloc, line, Mode::Lines) {
        Ok(said) => take_input(alloc, store, &said, routes, edge),
        Err(LineFault::Form(fault)) => {
            tell_fault(texts, &fault, edge)?;
            Ok(store)
        }
        Err(LineFault::OutOfMemory) => Err(Stop::Memory),
    }
}

/// Sends what is told of a line with a fault of form.
fn tell_fault<E: Edge>(texts: &mut Texts, fault: &FormFault, edge: &mut E) -> Result<(), Stop>
    ensures told { OnOk result (Told (Says (form_text fault.now ∷ [])) (E.told edge.old) (E.told edge.new)) }
    ensures part { OnErr result (Told (SaysSome (form_text fault.now ∷ [])) (E.told edge.old) (E.told edge.new)) }
    ensures heard { ToldBoth E.told E.heard SendsAsHeard edge.old edge.new }
    ensures taking { IsTaking (E.faults edge.old) (E.faults edge.new) result }
    ensures kept { Stays E.extent edge.old edge.new }
{
    texts.clear();
    texts.put_form(fault)?;
    match texts.send(edge) {
        Ok(()) => Ok(()),
        Err(_) => Err(Stop::Output),
    }
}

/// Takes the input of a line at its stamp. If it makes a record, that lasts first; else the input is told why.
fn take_input<E: Edge>(
    alloc: Global,
    mut store: Store,
    said: &Line,
    routes: &mut Routes,
    edge: &mut E,
) -> Result<Store, Stop>
    requires size { E.extent edge.old ≡ store.layout.size }
    requires lines { IsLines routes.old }
    requires input_form { IsTrue (is_in_form said.now.input) }
    requires stamp_form { IsTrue (is_stamp_or_none said.now.at) }
    ensures taken { TakesTo E.told edge.old edge.new (response_to_line said.now.input said.now.at) store result }
    ensures part { TakesInPart E.told edge.old edge.new (response_to_line said.now.input said.now.at) store result }
    ensures heard { ToldBoth E.told E.heard (SendsOnBook store) edge.old edge.new }
    ensures taking { IsTaking (E.faults edge.old) (E.faults edge.new) result }
    ensures kept { Stays E.extent edge.old edge.new }
    ensures size { IfOk result (λ next. next.layout.size ≡ store.layout.size) }
    ensures lines { IsLines routes.new }
{
    let at = said.at.unwrap_or(0);
    match store.plan(alloc, &said.input, at) {
        Ok(planned) => {
            let more = planned.more();
            let next = keep(alloc, store, planned, routes, edge)?;
            if !more {
                return Ok(next);
            }
            tell_answer_left(alloc, &next, &said.input, at, routes, edge)?;
            Ok(next)
        }
        Err(PlanFault::Told(answer)) => {
            store.tell(alloc, edge, routes, Channel(0), &answer)?;
            Ok(store)
        }
        Err(PlanFault::OutOfMemory) => Err(Stop::Memory),
    }
}

/// Makes the record of a plan last, and then sends what it says.
fn keep<E: Edge>(
    alloc: Global,
    store: Store,
    planned: Planned,
    routes: &mut Routes,
    edge: &mut E,
) -> Result<Store, Stop>
    requires size { E.extent edge.old ≡ store.layout.size }
    requires lines { IsLines routes.old }
    requires plan { IsPlanOf store planned }
    ensures taken { TakesTo E.told edge.old edge.new (response_to_plan planned) store result }
    ensures part { TakesInPart E.told edge.old edge.new (response_to_plan planned) store result }
    ensures heard { ToldBoth E.told E.heard (SendsOnBook store) edge.old edge.new }
    ensures taking { IsTaking (E.faults edge.old) (E.faults edge.new) result }
    ensures kept { Stays E.extent edge.old edge.new }
    ensures size { IfOk result (λ next. next.layout.size ≡ store.layout.size) }
    ensures lines { IsLines routes.new }
{
    let (next, durable) = store.commit(alloc, edge, planned)?;
    next.release(alloc, edge, durable, routes)?;
    Ok(next)
}

/// Sends the answer of an input that isn't new once the time is taken up.
fn tell_answer_left<E: Edge>(
    alloc: Global,
    store: &Store,
    input: &Input,
    at: u64,
    routes: &mut Routes,
    edge: &mut E,
) -> Result<(), Stop>
    requires lines { IsLines routes.old }
    requires input_form { IsTrue (is_in_form input.now) }
    requires stamp_form { IsTrue (is_stamp at) }
    ensures told { OnOk result (Told (Says (texts_left store.now input.now at)) (E.told edge.old) (E.told edge.new)) }
    ensures part { OnErr result (Told (SaysSome (texts_left store.now input.now at)) (E.told edge.old) (E.told edge.new)) }
    ensures heard { ToldBoth E.told E.heard SendsAsHeard edge.old edge.new }
    ensures taking { IsTaking (E.faults edge.old) (E.faults edge.new) result }
    ensures kept { Stays E.extent edge.old edge.new }
    ensures lines { IsLines routes.new }
{
    match store.core().judge(alloc, input, at)? {
        Judged::Told(answer) => {
            store.tell(alloc, edge, routes, Channel(0), &answer)?;
            Ok(())
        }
        Judged::New(_) => Ok(()),
        Judged::Clock(_) => Ok(()),
    }
}
