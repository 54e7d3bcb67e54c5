//! What a store says while clients are served: each text on a channel of its own.
ghost use Rattle.std.specs.Prelude.{◌≡◌, [], ◌++◌, map, IfOk, OnOk};
ghost use Rattle.iss_edge.specs.World.{Told, Stays};
ghost use Rattle.iss_model.specs.declared.entry.Entry.TheVariants as entry_of;
ghost use Rattle.iss_store.specs.Saying.{StaysGood, SayingCause};
ghost use Rattle.iss_opening.specs.Numbers.{AreNumbered};
ghost use Rattle.iss_store.specs.Serving.{SendsAnswer, SendsPending, SendsRecord, CausesGone, HaveNumbers, tasks_by_each, tasks_pending};

use crate::entries::send_entries;
use crate::message::Message;
use crate::sending::reply;
use crate::waiting::Waiters;
use crate::{Durable, Store, StoreFault};
use iss_edge::{Channel, Edge};
use iss_link::Gone;
use iss_model::{Answer, Entry, Notice, Opened};
use std::alloc::{AllocError, Global};

impl Store {
    /// Sends what a record says: each decision to the client that waits for it, and each request and notice to the
    /// gateway. Returns what became of those.
    #[tactic(auto, using(crate::proofs::ServedTexts::told_whole_desk, crate::proofs::ServedTexts::told_part_desk, crate::proofs::ServedTexts::record_tasks))]
    pub(crate) fn send_record<E: Edge>(
        &self,
        alloc: Global,
        edge: &mut E,
        durable: &Durable,
        waiters: &mut Waiters,
        message: &mut Message,
    ) -> Result<Vec<Gone>, StoreFault>
        ensures sends { SendsRecord E.told E.heard edge.old edge.new self.now durable.now waiters.old waiters.new result }
        ensures stays { Told StaysGood (E.told edge.old) (E.told edge.new) }
        ensures cause { SayingCause (E.faults edge.old) (E.faults edge.new) result }
        ensures unreached { IfOk result (λ gone. CausesGone (E.faults edge.old) (E.faults edge.new) gone.items) }
        ensures numbered { IfOk result (λ gone. HaveNumbers gone.items) }
        ensures kept { Stays E.extent edge.old edge.new }
    {
        let (gone, answered) = send_entries(
            alloc,
            edge,
            &durable.entries,
            waiters,
            self.core.instance(),
            message,
        )?;
        waiters.forget_all(&answered);
        Ok(gone)
    }

    /// Sends what still waits for the gateway, each text on a channel of its own: requests, and then notices.
    #[tactic(auto, using(crate::proofs::ServedTexts::told_whole_desk, crate::proofs::ServedTexts::told_part_desk, crate::proofs::Resumed::told_resumed, crate::proofs::ServedTexts::told_none_of, crate::proofs::Stays::told_nothing_stays))]
    pub(crate) fn send_pending<E: Edge>(
        &self,
        alloc: Global,
        edge: &mut E,
        message: &mut Message,
    ) -> Result<Vec<Gone>, StoreFault>
        ensures sends { SendsPending E.told E.heard edge.old edge.new self.now result }
        ensures stays { Told StaysGood (E.told edge.old) (E.told edge.new) }
        ensures cause { SayingCause (E.faults edge.old) (E.faults edge.new) result }
        ensures unreached { IfOk result (λ gone. CausesGone (E.faults edge.old) (E.faults edge.new) gone.items) }
        ensures numbered { IfOk result (λ gone. HaveNumbers gone.items) }
        ensures kept { Stays E.extent edge.old edge.new }
    {
        let nobody = Waiters::new(alloc);
        let entries = self.pending_entries(alloc)?;
        let (gone, _) = send_entries(
            alloc,
            edge,
            &entries,
            &nobody,
            self.core.instance(),
            message,
        )?;
        Ok(gone)
    }

    /// The entries of what still waits for the gateway.
    #[tactic(auto, using(crate::proofs::ServedTexts::pending_tasks, crate::proofs::Waits::pending_numbered))]
    fn pending_entries(&self, alloc: Global) -> Result<Vec<Entry>, AllocError>
        ensures tasks { IfOk result (λ entries. tasks_by_each self.now.core.instance [] entries.items ≡ tasks_pending self.now) }
        ensures numbered { IfOk result (λ entries. AreNumbered entries.items) }
    {
        let mut entries = Vec::new(alloc);
        put_calls(&mut entries, &self.core.asked(alloc)?)?;
        put_notices(&mut entries, &self.core.pending(alloc)?)?;
        Ok(entries)
    }

    /// Tells a client why its input makes no record, and closes its channel.
    #[tactic(auto, using(crate::proofs::ServedTexts::told_unchanged, crate::proofs::Stays::told_nothing_stays))]
    pub(crate) fn send_answer<E: Edge>(
        &self,
        edge: &mut E,
        ch: Channel,
        answer: &Answer,
        message: &mut Message,
    ) -> Result<(), StoreFault>
        ensures sends { SendsAnswer E.told E.heard edge.old edge.new self.now.core.state.count ch answer.now result }
        ensures stays { Told StaysGood (E.told edge.old) (E.told edge.new) }
        ensures cause { SayingCause (E.faults edge.old) (E.faults edge.new) result }
        ensures kept { Stays E.extent edge.old edge.new }
    {
        message.write_answer(answer)?;
        reply(edge, ch, &message.bytes);
        Ok(())
    }
}

/// Adds the entries of calls.
fn put_calls(entries: &mut Vec<Entry>, calls: &[Opened]) -> Result<(), AllocError>
    ensures { OnOk result (entries.new.items ≡ entries.old.items ++ map entry_of.Opened calls.now) }
{
    for call in calls {
        entries.push(Entry::Opened(*call))?;
    }
    Ok(())
}

/// Adds the entries of notices.
fn put_notices(entries: &mut Vec<Entry>, notices: &[Notice]) -> Result<(), AllocError>
    ensures { OnOk result (entries.new.items ≡ entries.old.items ++ map entry_of.Notice notices.now) }
{
    for notice in notices {
        entries.push(Entry::Notice(*notice))?;
    }
    Ok(())
}
