//! What the entries of a record send while clients are served.
ghost use Rattle.std.specs.Prelude.{◌≡◌, ◌<◌, true, [], ◌∷◌, ◌++◌, IfOk, OnOk, OnErr};
ghost use Rattle.iss_edge.specs.World.{Told, Later, Stays};
ghost use Rattle.iss_edge.specs.Outer.{Adds, ToldBoth};
ghost use Rattle.iss_model.specs.declared.limits.TheConstants.{INSTANCES};
ghost use Rattle.iss_store.specs.Saying.{StaysGood};
ghost use Rattle.iss_opening.specs.Numbers.{is_from_one, is_numbered, AreNumbered};
ghost use Rattle.iss_store.specs.Serving.{NotesOn, NotesGone, NotesAnswered, SendsSomeOf, SendsOn, CausesGone, tasks_by, tasks_by_each, decision_tasks, request_tasks, notice_tasks, all_gone, has_number, HaveNumbers};

use crate::message::Message;
use crate::sending::{reply, send};
use crate::waiting::Waiters;
use iss_edge::{Channel, Edge};
use iss_link::Gone;
use iss_model::{Entry, Notice, Opened, Token, Verdict};
use std::alloc::{AllocError, Global};

/// Sends the texts of entries in their order, each decision to the client that waited for it before. Returns what became of those to
/// the gateway, and the channels that were answered.
#[tactic(auto, using(crate::proofs::ServedTexts::sent_to_begin, crate::proofs::Stays::told_nothing_stays, crate::proofs::StaysServed::told_stays_then))]
pub(crate) fn send_entries<E: Edge>(
    alloc: Global,
    edge: &mut E,
    entries: &[Entry],
    waiters: &Waiters,
    instance: u64,
    message: &mut Message,
) -> Result<(Vec<Gone>, Vec<Channel>), AllocError>
    requires instance { instance < INSTANCES }
    requires numbered { AreNumbered entries.now }
    ensures sends { IfOk result (λ x. ToldBoth E.told E.heard (SendsOn (tasks_by_each instance waiters.now entries.now) (all_gone x.0.items) x.1.items) edge.old edge.new) }
    ensures part { OnErr result (ToldBoth E.told E.heard (SendsSomeOf (tasks_by_each instance waiters.now entries.now)) edge.old edge.new) }
    ensures stays { Told StaysGood (E.told edge.old) (E.told edge.new) }
    ensures later { Later (E.faults edge.old) (E.faults edge.new) }
    ensures cause { IfOk result (λ x. CausesGone (E.faults edge.old) (E.faults edge.new) x.0.items) }
    ensures numbered { IfOk result (λ x. HaveNumbers x.0.items) }
    ensures kept { Stays E.extent edge.old edge.new }
{
    let mut gone = Vec::new(alloc);
    let mut answered = Vec::new(alloc);
    for entry in entries {
        send_entry(
            edge,
            entry,
            waiters,
            instance,
            message,
            &mut gone,
            &mut answered,
        )?;
    }
    Ok((gone, answered))
}

/// Sends the text of an entry if it has one that goes out, and notes what became of it.
#[tactic(auto, using(crate::proofs::ServedTexts::notes_nothing, crate::proofs::ServedTexts::told_nothing_sent, crate::proofs::ServedTexts::told_none_of, crate::proofs::Stays::told_nothing_stays))]
fn send_entry<E: Edge>(
    edge: &mut E,
    entry: &Entry,
    waiters: &Waiters,
    instance: u64,
    message: &mut Message,
    gone: &mut Vec<Gone>,
    answered: &mut Vec<Channel>,
) -> Result<(), AllocError>
    requires instance { instance < INSTANCES }
    requires numbered { is_numbered entry.now ≡ true }
    requires before { HaveNumbers gone.old.items }
    ensures numbered { OnOk result (HaveNumbers gone.new.items) }
    ensures notes { OnOk result (NotesOn E.faults E.told E.heard edge.old edge.new
        (tasks_by instance waiters.now entry.now) gone.old.items gone.new.items answered.old.items answered.new.items) }
    ensures part { OnErr result (ToldBoth E.told E.heard (SendsSomeOf (tasks_by instance waiters.now entry.now)) edge.old edge.new) }
    ensures stays { Told StaysGood (E.told edge.old) (E.told edge.new) }
    ensures later { Later (E.faults edge.old) (E.faults edge.new) }
    ensures kept { Stays E.extent edge.old edge.new }
{
    match entry {
        Entry::Decided(event, verdict) => match waiters.channel_for(event) {
            Some(ch) => send_decision(edge, ch, event, verdict, message, answered),
            None => Ok(()),
        },
        Entry::Opened(opened) => send_request(edge, opened, instance, message, gone),
        Entry::Notice(notice) => send_notice(edge, notice, instance, message, gone),
        _ => Ok(()),
    }
}

/// Tells a client the decision that it waits for.
#[tactic(auto, using(crate::proofs::ServedTexts::notes_reply, crate::proofs::ServedTexts::told_unchanged, crate::proofs::Stays::told_nothing_stays))]
fn send_decision<E: Edge>(
    edge: &mut E,
    ch: Channel,
    event: &Token,
    verdict: &Verdict,
    message: &mut Message,
    answered: &mut Vec<Channel>,
) -> Result<(), AllocError>
    ensures notes { NotesAnswered E.faults E.told E.heard edge.old edge.new
        (decision_tasks ch event.now verdict.now) answered.old.items answered.new.items result }
    ensures part { OnErr result (ToldBoth E.told E.heard (Adds [] []) edge.old edge.new) }
    ensures stays { Told StaysGood (E.told edge.old) (E.told edge.new) }
    ensures later { Later (E.faults edge.old) (E.faults edge.new) }
    ensures kept { Stays E.extent edge.old edge.new }
{
    message.write_decision(event, verdict)?;
    answered.push(ch)?;
    reply(edge, ch, &message.bytes);
    Ok(())
}

/// Sends the request of a call, and notes whether it was reached.
#[tactic(auto, using(crate::proofs::ServedTexts::told_none_of, crate::proofs::Stays::told_nothing_stays))]
fn send_request<E: Edge>(
    edge: &mut E,
    opened: &Opened,
    instance: u64,
    message: &mut Message,
    gone: &mut Vec<Gone>,
) -> Result<(), AllocError>
    requires instance { instance < INSTANCES }
    requires numbered { is_from_one opened.now.call.0 ≡ true }
    requires before { HaveNumbers gone.old.items }
    ensures numbered { OnOk result (HaveNumbers gone.new.items) }
    ensures notes { NotesGone E.faults E.told E.heard edge.old edge.new
        (request_tasks instance opened.now) gone.old.items gone.new.items result }
    ensures part { OnErr result (ToldBoth E.told E.heard (SendsSomeOf (request_tasks instance opened.now)) edge.old edge.new) }
    ensures stays { Told StaysGood (E.told edge.old) (E.told edge.new) }
    ensures later { Later (E.faults edge.old) (E.faults edge.new) }
    ensures kept { Stays E.extent edge.old edge.new }
{
    message.write_request(opened, instance)?;
    match send(edge, &message.bytes) {
        Some(ch) => note(gone, &Gone::Asked(*opened, ch)),
        None => note(gone, &Gone::Unreached(opened.call)),
    }
}

/// Sends a notice, and notes on which channel. A notice that doesn't go out waits for the next run.
#[tactic(auto, using(crate::proofs::ServedTexts::told_none_of, crate::proofs::Stays::told_nothing_stays))]
fn send_notice<E: Edge>(
    edge: &mut E,
    notice: &Notice,
    instance: u64,
    message: &mut Message,
    gone: &mut Vec<Gone>,
) -> Result<(), AllocError>
    requires instance { instance < INSTANCES }
    requires numbered { is_from_one notice.now.number ≡ true }
    requires before { HaveNumbers gone.old.items }
    ensures numbered { OnOk result (HaveNumbers gone.new.items) }
    ensures notes { NotesGone E.faults E.told E.heard edge.old edge.new
        (notice_tasks instance notice.now) gone.old.items gone.new.items result }
    ensures part { OnErr result (ToldBoth E.told E.heard (SendsSomeOf (notice_tasks instance notice.now)) edge.old edge.new) }
    ensures stays { Told StaysGood (E.told edge.old) (E.told edge.new) }
    ensures later { Later (E.faults edge.old) (E.faults edge.new) }
    ensures kept { Stays E.extent edge.old edge.new }
{
    message.write_notice(notice, instance)?;
    match send(edge, &message.bytes) {
        Some(ch) => note(gone, &Gone::Noted(notice.number, ch)),
        None => Ok(()),
    }
}

/// Notes what became of a text.
fn note(gone: &mut Vec<Gone>, one: &Gone) -> Result<(), AllocError>
    requires numbered { has_number one.now ≡ true }
    requires before { HaveNumbers gone.old.items }
    ensures noted { OnOk result (gone.new.items ≡ gone.old.items ++ one.now ∷ []) }
    ensures numbered { OnOk result (HaveNumbers gone.new.items) }
{
    gone.push(*one)?;
    Ok(())
}
