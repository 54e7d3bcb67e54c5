//! What a store says over lines: each text by an emit of its own on channel 0.
ghost use Rattle.std.specs.Prelude.{◌≡◌, ◌<◌, [], ◌∷◌, IfOk, OnOk};
ghost use Rattle.std.specs.List.{flat_map};
ghost use Rattle.iss_edge.specs.World.{Told, Stays};
ghost use Rattle.iss_model.specs.declared.limits.TheConstants.{INSTANCES};
ghost use Rattle.iss_model.specs.texts.AnswerLines.{answer_text};
ghost use Rattle.iss_texts.specs.TextRows.{Gains, HasAll, said_texts};
ghost use Rattle.iss_store.specs.Values.{said_of};
ghost use Rattle.iss_store.specs.Saying.{texts_of_record, texts_pending, request_texts, notice_texts, StaysGood, SayingCause, SaysLines};

use crate::{Durable, Store, StoreFault};
use iss_edge::{Channel, Edge};
use iss_event::told_line;
use iss_link::Gone;
use iss_model::{Answer, Notice, Opened};
use iss_texts::Texts;
use std::alloc::{AllocError, Global};

impl Store {
    /// Sends what a record says: the decisions, requests, notices and acknowledgements of its entries, and then that a
    /// time was taken. No answer is awaited, so nothing is returned.
    #[tactic(auto, using(crate::proofs::Stays::told_some_stay, crate::proofs::Stays::told_all_stay, crate::proofs::Stays::told_nothing_stays, crate::proofs::ServedTexts::told_unchanged, iss_texts::proofs::Rows::all_end))]
    pub(crate) fn say_record<E: Edge>(
        &self,
        alloc: Global,
        edge: &mut E,
        durable: &Durable,
        texts: &mut Texts,
    ) -> Result<Vec<Gone>, StoreFault>
        ensures says { SaysLines E.told E.heard E.channels edge.old edge.new (texts_of_record self.now durable.now) result }
        ensures stays { Told StaysGood (E.told edge.old) (E.told edge.new) }
        ensures cause { SayingCause (E.faults edge.old) (E.faults edge.new) result }
        ensures gone { IfOk result (λ gone. gone.items ≡ []) }
        ensures kept { Stays E.extent edge.old edge.new }
    {
        self.write_record(texts, durable)?;
        texts.send(edge)?;
        Ok(Vec::new(alloc))
    }

    /// Writes what a record says into a row, in place of what stands there.
    #[tactic(auto, using(iss_texts::proofs::Rows::gained_all))]
    fn write_record(&self, texts: &mut Texts, durable: &Durable) -> Result<(), AllocError>
        ensures { OnOk result (HasAll (texts_of_record self.now durable.now) texts.new) }
    {
        texts.clear();
        put_record(texts, durable, self.core.instance())?;
        Ok(())
    }

    /// Sends what still waits for the gateway: requests, and then notices.
    #[tactic(auto, using(crate::proofs::Stays::told_some_stay, crate::proofs::Stays::told_all_stay, crate::proofs::Stays::told_nothing_stays, crate::proofs::ServedTexts::told_unchanged, iss_texts::proofs::Rows::all_end))]
    pub(crate) fn say_pending<E: Edge>(
        &self,
        alloc: Global,
        edge: &mut E,
    ) -> Result<Vec<Gone>, StoreFault>
        ensures says { SaysLines E.told E.heard E.channels edge.old edge.new (texts_pending self.now) result }
        ensures stays { Told StaysGood (E.told edge.old) (E.told edge.new) }
        ensures cause { SayingCause (E.faults edge.old) (E.faults edge.new) result }
        ensures gone { IfOk result (λ gone. gone.items ≡ []) }
        ensures kept { Stays E.extent edge.old edge.new }
    {
        let texts = self.pending_texts(alloc)?;
        texts.send(edge)?;
        Ok(Vec::new(alloc))
    }

    /// The texts of what still waits for the gateway.
    fn pending_texts(&self, alloc: Global) -> Result<Texts, AllocError>
        ensures { IfOk result (HasAll (texts_pending self.now)) }
    {
        let mut texts = Texts::new(alloc);
        put_requests(&mut texts, &self.core.asked(alloc)?, self.core.instance())?;
        put_notices(&mut texts, &self.core.pending(alloc)?, self.core.instance())?;
        Ok(texts)
    }
}

/// Tells why an input makes no record.
#[tactic(auto, using(crate::proofs::Stays::told_nothing_stays, crate::proofs::ServedTexts::told_unchanged, crate::proofs::Stays::emitted_stays, crate::proofs::Telling::tell_sent, crate::proofs::Telling::tell_stopped, crate::proofs::Stays::emitted_in_part, crate::proofs::Stays::prefix_stays))]
pub(crate) fn say_answer<E: Edge>(
    alloc: Global,
    edge: &mut E,
    ch: Channel,
    answer: &Answer,
) -> Result<(), StoreFault>
    requires channel { ch.0 ≡ 0 }
    ensures says { SaysLines E.told E.heard E.channels edge.old edge.new (answer_text answer.now ∷ []) result }
    ensures stays { Told StaysGood (E.told edge.old) (E.told edge.new) }
    ensures cause { SayingCause (E.faults edge.old) (E.faults edge.new) result }
    ensures kept { Stays E.extent edge.old edge.new }
{
    let line = told_line(alloc, answer)?;
    edge.emit(ch, &line)?;
    Ok(())
}

/// Adds the requests of calls.
fn put_requests(texts: &mut Texts, calls: &[Opened], instance: u64) -> Result<(), AllocError>
    requires { instance < INSTANCES }
    ensures { OnOk result (Gains (flat_map (request_texts instance) calls.now) texts.old texts.new) }
{
    for call in calls {
        texts.put_request(call, instance)?;
    }
    Ok(())
}

/// Adds notices.
fn put_notices(texts: &mut Texts, notices: &[Notice], instance: u64) -> Result<(), AllocError>
    requires { instance < INSTANCES }
    ensures { OnOk result (Gains (flat_map (notice_texts instance) notices.now) texts.old texts.new) }
{
    for notice in notices {
        texts.put_notice(notice, instance)?;
    }
    Ok(())
}

/// Adds what a record that lasts has to say.
#[tactic(auto, using(crate::proofs::Said::said_timed, crate::proofs::Said::said_untimed))]
fn put_record(texts: &mut Texts, durable: &Durable, instance: u64) -> Result<(), AllocError>
    requires { instance < INSTANCES }
    ensures { OnOk result (Gains (said_texts instance (said_of durable.now)) texts.old texts.new) }
{
    texts.put_entries(&durable.entries, instance)?;
    if durable.is_time {
        return texts.put_time();
    }
    Ok(())
}
