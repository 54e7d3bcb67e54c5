//! What an outside in memory notes of its calls: what was done, and what was answered.

ghost use Rattle.std.specs.Prelude.{◌≡◌, ◌⊎◌, ◌++◌, ◌∷◌, [], take, true, false, Some, OnOk, OnErr, IsTrue};
ghost use Rattle.iss_edge.specs.World.{Told, Later, Rose};
ghost use Rattle.iss_edge.specs.Calls.{Hears, HearsNothing};
ghost use Rattle.iss_edge.specs.Channels.{count_of};
ghost use Rattle.iss_edge.specs.Memory.{told_if};
ghost use Rattle.iss_edge.specs.declared.outside.Action.TheVariants.{Write, Sync, Emit, Close};
ghost use Rattle.iss_edge.specs.declared.outside.Answered.TheVariants.{Took, Emitted};

use crate::{Action, Answered, Bytes, Channel, Failed, Fault, FaultCounts};
use std::alloc::{AllocError, Global};

/// How many bytes go out in an emit that is to fail.
const PREFIX: usize = 3;

/// What the calls answered, and whether each answer could be noted.
#[derive(Drop)]
pub(crate) struct Heard {
    pub(crate) answers: Vec<Answered>,
    pub(crate) whole: bool,
}

/// Notes a write in the trace.
pub(crate) fn note_write(
    alloc: Global,
    trace: &mut Vec<Action>,
    at: u64,
    bytes: &[u8],
    ok: bool,
) -> Result<(), AllocError>
    ensures ok { OnOk result (trace.new.items ≡ trace.old.items ++ Write at bytes.now ok ∷ []) }
    ensures err { OnErr result (trace.new.items ≡ trace.old.items) }
{
    let bytes = Bytes::from(Vec::from_slice(alloc, bytes)?);
    trace.push(Action::Write { at, bytes, ok })?;
    Ok(())
}

/// Notes a sync in the trace.
pub(crate) fn note_sync(trace: &mut Vec<Action>, ok: bool) -> Result<(), AllocError>
    ensures ok { OnOk result (trace.new.items ≡ trace.old.items ++ Sync ok ∷ []) }
    ensures err { OnErr result (trace.new.items ≡ trace.old.items) }
{
    trace.push(Action::Sync { ok })?;
    Ok(())
}

/// Notes in the heard list what was taken.
pub(crate) fn hear_bytes(
    alloc: Global,
    heard: &mut Vec<Answered>,
    ch: Channel,
    bytes: &[u8],
) -> Result<(), AllocError>
    ensures ok { OnOk result (heard.new.items ≡ heard.old.items ++ Took ch (Some bytes.now) ∷ []) }
    ensures err { OnErr result (heard.new.items ≡ heard.old.items) }
{
    let taken = Bytes::from(Vec::from_slice(alloc, bytes)?);
    heard.push(Answered::Took {
        ch,
        bytes: Some(taken),
    })?;
    Ok(())
}

/// Notes in the trace that these bytes went out.
fn note(
    alloc: Global,
    trace: &mut Vec<Action>,
    ch: Channel,
    bytes: &[u8],
    ok: bool,
) -> Result<(), AllocError>
    ensures ok { OnOk result (trace.new.items ≡ trace.old.items ++ Emit ch bytes.now ok ∷ []) }
    ensures err { OnErr result (trace.new.items ≡ trace.old.items) }
{
    let sent = Bytes::from(Vec::from_slice(alloc, bytes)?);
    trace.push(Action::Emit {
        ch,
        bytes: sent,
        ok,
    })?;
    Ok(())
}

/// Notes in the trace an emit that fails after its first bytes went out.
pub(crate) fn send_prefix(
    alloc: Global,
    trace: &mut Vec<Action>,
    ch: Channel,
    bytes: &[u8],
) -> Result<(), AllocError>
    ensures ok { OnOk result
        (trace.new.items ≡ trace.old.items ++ Emit ch (take PREFIX bytes.now) false ∷ []) }
    ensures err { OnErr result (trace.new.items ≡ trace.old.items) }
{
    note(alloc, trace, ch, &bytes[..bytes.len().min(PREFIX)], false)
}

/// Notes an emit that succeeds in both lists, or in neither.
pub(crate) fn send(
    alloc: Global,
    trace: &mut Vec<Action>,
    heard: &mut Vec<Answered>,
    ch: Channel,
    bytes: &[u8],
) -> Result<(), AllocError>
    ensures sent { OnOk result (trace.new.items ≡ trace.old.items ++ Emit ch bytes.now true ∷ []) }
    ensures heard { OnOk result (heard.new.items ≡ heard.old.items ++ Emitted ch true ∷ []) }
    ensures unsent { OnErr result (trace.new.items ≡ trace.old.items) }
    ensures unheard { OnErr result (heard.new.items ≡ heard.old.items) }
{
    // With room for the answer, nothing can fail after the action is noted.
    heard.reserve(1)?;
    note(alloc, trace, ch, bytes, true)?;
    heard.push(Answered::Emitted { ch, ok: true })?;
    Ok(())
}

/// Notes in the trace that a channel was closed. If an allocation fails, nothing is noted in the heard list any more.
pub(crate) fn note_close(trace: &mut Vec<Action>, heard: &mut Heard, ch: Channel)
    ensures noted { IsTrue heard.new.whole → trace.new.items ≡ trace.old.items ++ Close ch ∷ [] }
    ensures closed { (trace.new.items ≡ trace.old.items ++ Close ch ∷ []) ⊎ (trace.new.items ≡ trace.old.items) }
    ensures heard { Told HearsNothing (told_if heard.old.whole heard.old.answers.items)
        (told_if heard.new.whole heard.new.answers.items) }
{
    if trace.push(Action::Close { ch }).is_err() {
        heard.whole = false;
    }
}

/// Counts a call that failed and notes its answer.
pub(crate) fn fail(
    faults: &mut FaultCounts,
    fault: Fault,
    heard: &mut Heard,
    answer: Answered,
) -> Failed
    ensures later { Later faults.old faults.new }
    ensures counted { Rose (count_of fault faults.old) (count_of fault faults.new) }
    ensures heard { Told (Hears answer) (told_if heard.old.whole heard.old.answers.items)
        (told_if heard.new.whole heard.new.answers.items) }
{
    if heard.answers.push(answer).is_err() {
        heard.whole = false;
    }
    faults.count(fault)
}
