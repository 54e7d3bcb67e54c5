//! What a store says, by its routes: what a committed record makes, what still waits for the gateway, and answers.
ghost use Rattle.std.specs.Prelude.{◌≡◌, [], ◌∷◌, IfOk};
ghost use Rattle.iss_edge.specs.World.{Told, Stays};
ghost use Rattle.iss_model.specs.texts.AnswerLines.{answer_text};
ghost use Rattle.iss_store.specs.Routes.{IsLines, IsServed};
ghost use Rattle.iss_store.specs.Saying.{texts_of_record, texts_pending, TextsOnBook, StaysGood, SayingCause, SaysLines, IsDurableOf};
ghost use Rattle.iss_store.specs.Serving.{SendsRecord, SendsPending, SendsAnswer, TasksOnBook, CausesGone, HaveNumbers};

use crate::routes::Kind;
use crate::saying::say_answer;
use crate::{Durable, Routes, Store, StoreFault};
use iss_edge::{Channel, Edge};
use iss_link::Gone;
use iss_model::Answer;
use std::alloc::Global;

impl Store {
    /// Sends what the record of this store's last commit says, in the order of its entries.
    ///
    /// Over lines each text goes out by one emit: the decisions, requests, notices and acknowledgements, and then that a
    /// time was taken. While clients are served, each decision goes to the client that waits for it, and closes that
    /// client's channel. Each request and notice goes to the gateway. Returns what became of those: the channels on which
    /// they went out, and the calls that weren't reached. Over lines nothing is returned.
    ///
    /// # Errors
    ///
    /// `Output` if a text didn't go out on channel 0, and `OutOfMemory`. While clients are served, only `OutOfMemory` comes.
    pub fn release<E: Edge>(
        &self,
        alloc: Global,
        edge: &mut E,
        durable: Durable,
        routes: &mut Routes,
    ) -> Result<Vec<Gone>, StoreFault>
        requires last { IsDurableOf self.now durable }
        ensures lines { IsLines routes.old
            → SaysLines E.told E.heard E.channels edge.old edge.new (texts_of_record self.now durable) result }
        ensures gone { IsLines routes.old → IfOk result (λ gone. gone.items ≡ []) }
        ensures served { IsServed routes.old
            → SendsRecord E.told E.heard edge.old edge.new self.now durable routes.old.waiters routes.new.waiters result }
        ensures stays { Told StaysGood (E.told edge.old) (E.told edge.new) }
        ensures cause { SayingCause (E.faults edge.old) (E.faults edge.new) result }
        ensures unreached { IfOk result (λ gone. CausesGone (E.faults edge.old) (E.faults edge.new) gone.items) }
        ensures numbered { IfOk result (λ gone. HaveNumbers gone.items) }
        ensures kind { routes.new.kind ≡ routes.old.kind }
        ensures kept { Stays E.extent edge.old edge.new }
    {
        match routes.kind {
            Kind::Lines => self.say_record(alloc, edge, &durable, &mut routes.texts),
            Kind::Served => self.send_record(
                alloc,
                edge,
                &durable,
                &mut routes.waiters,
                &mut routes.message,
            ),
        }
    }

    /// Sends what still waits for the gateway, by number. First comes the request of each call that is asked, and then
    /// each notice that isn't acknowledged. The bytes are those that went out before, since they follow from what stands.
    /// While clients are served, each text goes on a channel of its own, and what became of it is returned.
    ///
    /// # Errors
    ///
    /// As for `release`.
    #[tactic(auto, using(crate::proofs::Said::pending_on_book, crate::proofs::ServedTexts::tasks_on_book))]
    pub fn resume<E: Edge>(
        &self,
        alloc: Global,
        edge: &mut E,
        routes: &mut Routes,
    ) -> Result<Vec<Gone>, StoreFault>
        ensures lines { IsLines routes.old
            → SaysLines E.told E.heard E.channels edge.old edge.new (texts_pending self.now) result }
        ensures gone { IsLines routes.old → IfOk result (λ gone. gone.items ≡ []) }
        ensures lines_on_book { TextsOnBook self.now }
        ensures served { IsServed routes.old → SendsPending E.told E.heard edge.old edge.new self.now result }
        ensures served_on_book { TasksOnBook self.now }
        ensures stays { Told StaysGood (E.told edge.old) (E.told edge.new) }
        ensures cause { SayingCause (E.faults edge.old) (E.faults edge.new) result }
        ensures unreached { IfOk result (λ gone. CausesGone (E.faults edge.old) (E.faults edge.new) gone.items) }
        ensures numbered { IfOk result (λ gone. HaveNumbers gone.items) }
        ensures kind { routes.new.kind ≡ routes.old.kind }
        ensures waiters { routes.new.waiters ≡ routes.old.waiters }
        ensures kept { Stays E.extent edge.old edge.new }
    {
        match routes.kind {
            Kind::Lines => self.say_pending(alloc, edge),
            Kind::Served => self.send_pending(alloc, edge, &mut routes.message),
        }
    }

    /// Tells why an input makes no record: over lines on channel 0. While clients are served, the client on this channel is
    /// told, and the channel is closed.
    ///
    /// # Errors
    ///
    /// As for `release`.
    pub fn tell<E: Edge>(
        &self,
        alloc: Global,
        edge: &mut E,
        routes: &mut Routes,
        ch: Channel,
        answer: &Answer,
    ) -> Result<(), StoreFault>
        requires channel { IsLines routes.old → ch.0 ≡ 0 }
        ensures lines { IsLines routes.old
            → SaysLines E.told E.heard E.channels edge.old edge.new (answer_text answer.now ∷ []) result }
        ensures served { IsServed routes.old
            → SendsAnswer E.told E.heard edge.old edge.new self.now.core.state.count ch answer.now result }
        ensures stays { Told StaysGood (E.told edge.old) (E.told edge.new) }
        ensures cause { SayingCause (E.faults edge.old) (E.faults edge.new) result }
        ensures kind { routes.new.kind ≡ routes.old.kind }
        ensures waiters { routes.new.waiters ≡ routes.old.waiters }
        ensures kept { Stays E.extent edge.old edge.new }
    {
        match routes.kind {
            Kind::Lines => say_answer(alloc, edge, ch, answer),
            Kind::Served => self.send_answer(edge, ch, answer, &mut routes.message),
        }
    }
}
