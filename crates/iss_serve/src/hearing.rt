//! What a wait brings: a client, a channel that is ready, the time, or nothing.
ghost use Rattle.std.specs.Prelude.{◌≡◌, ◌<◌, ◌≤◌, [], ◌∷◌, Some, None, true, false, length, IfOk, IfSome, IsSome, IsTrue};
ghost use Rattle.iss_edge.specs.declared.outside.Action.TheVariants.{Close};
ghost use Rattle.iss_edge.specs.declared.outside.Answered.TheVariants.{Took};
ghost use Rattle.iss_edge.specs.World.{Later, Stays};
ghost use Rattle.iss_edge.specs.Outer.{Adds, ToldBoth};
ghost use Rattle.iss_model.specs.Forms.{is_outcome};
ghost use Rattle.iss_model.specs.declared.input.Input.TheVariants as input_of;
ghost use Rattle.iss_session.specs.declared.piece.TheConstants.{LONGEST_PIECE};
ghost use Rattle.iss_session.specs.Desks.{waiters_without};
ghost use Rattle.iss_session.specs.Hearings.{is_reading, is_waiting, link_at, inputs_of, readers_without};
ghost use Rattle.iss_link.specs.Hearing.{got_in};
ghost use Rattle.iss_session.specs.Sessions.{unasked};
ghost use Rattle.iss_link.specs.Values.{heard_of};
ghost use Rattle.iss_link.specs.Worlds.{StillTold};
ghost use Rattle.iss_opening.specs.Numbers.{is_from_one};
ghost use Rattle.iss_store.specs.Serving.{SendsReply};
ghost use Rattle.iss_opening.specs.Values.{StoreNow};
ghost use Rattle.iss_serve.specs.Causes.{IsServeCaused};
ghost use Rattle.iss_serve.specs.Held.{seen_held, queued_maybe, queued_as, IsQueuedInForm, resting, taking, arrived_on, is_heard_in_form, IsHeld, IsStillHeld, IsOf};
ghost use Rattle.iss_serve.specs.Runs.{HearsFrom, HearsOfAny, HearsShort, PassesOver, ServesInPart, ServesShort};

use crate::ServeFault;
use crate::held::{Held, QueuedInput};
use crate::requests::{Request, read_request};
use iss_clients::take_piece;
use iss_edge::{Arrival, Channel, Edge};
use iss_link::Heard;
use iss_model::limits::LAST_STAMP;
use iss_model::{CallId, Input, Outcome};
use iss_store::reply;
use std::alloc::{AllocError, Global};

impl Held {
    /// Waits once, takes in what came, and returns the input that is to be judged for it.
    #[tactic(auto, using(crate::proofs::Alone::told_waited))]
    pub(crate) fn hear<E: Edge>(
        &mut self,
        alloc: Global,
        edge: &mut E,
    ) -> Result<Option<QueuedInput>, ServeFault>
        requires held { IsHeld self.old }
        requires settled { self.old.unreached.items ≡ [] }
        requires turns { 0 < self.old.turns }
        ensures held { IfOk result (λ heard. IsHeld self.new) }
        ensures settled { IfOk result (λ heard. self.new.unreached.items ≡ []) }
        ensures instance { IfOk result (λ heard. self.new.links.instance ≡ self.old.links.instance) }
        ensures turns { IfOk result (λ heard. self.new.turns < self.old.turns) }
        ensures forms { IfOk result (λ heard. IfSome heard IsQueuedInForm) }
        ensures hears { HearsFrom E.told E.heard edge.old edge.new self.old self.new (resting self.old) result }
        ensures part { (store : StoreNow) → IsOf store self.old
            → ServesInPart E.told E.heard edge.old edge.new (resting self.old store) result }
        ensures alone { StillTold E.told edge.old edge.new }
        ensures caused { IsServeCaused (E.faults edge.old) (E.faults edge.new) result }
        ensures kept { Stays E.extent edge.old edge.new }
    {
        self.turns -= 1;
        let Ok(arrival) = edge.wait() else {
            return Err(ServeFault::Wait);
        };
        match arrival {
            Arrival::Client(ch) => {
                self.clients.add(alloc, ch)?;
                Ok(None)
            }
            Arrival::Ready(ch) => Ok(self.take(alloc, edge, ch)?),
            Arrival::Time(at) => {
                self.clock = at.min(LAST_STAMP);
                Ok(Some(unasked(Input::Time)))
            }
            Arrival::Idle => Ok(None),
            Arrival::End => {
                self.turns = 0;
                Ok(None)
            }
        }
    }

    /// Takes from a channel that is ready. A channel that nobody listens to is left alone.
    fn take<E: Edge>(
        &mut self,
        alloc: Global,
        edge: &mut E,
        ch: Channel,
    ) -> Result<Option<QueuedInput>, AllocError>
        requires held { IsHeld self.old }
        requires settled { self.old.unreached.items ≡ [] }
        requires ready { (E.channels edge.old).ready ≡ Some ch.0 }
        ensures still { IfOk result (λ heard. IsStillHeld self.old self.new) }
        ensures settled { IfOk result (λ heard. self.new.unreached.items ≡ []) }
        ensures forms { IfOk result (λ heard. IfSome heard IsQueuedInForm) }
        ensures hears { HearsFrom E.told E.heard edge.old edge.new self.old self.new (arrived_on self.old ch) result }
        ensures part { HearsShort E.told E.heard edge.old edge.new self.old (arrived_on self.old ch) result }
        ensures alone { StillTold E.told edge.old edge.new }
        ensures later { Later (E.faults edge.old) (E.faults edge.new) }
        ensures kept { Stays E.extent edge.old edge.new }
    {
        if self.clients.is_reading(ch) {
            return self.take_request(alloc, edge, ch);
        }
        if self.routes.waits(ch) {
            self.pass_over(edge, ch);
            return Ok(None);
        }
        if self.links.state(ch).is_some() {
            return self.take_answer(alloc, edge, ch);
        }
        Ok(None)
    }

    /// Takes from a client whose request isn't whole. If the take fails, or the bytes end early, the channel is closed.
    fn take_request<E: Edge>(
        &mut self,
        alloc: Global,
        edge: &mut E,
        ch: Channel,
    ) -> Result<Option<QueuedInput>, AllocError>
        requires reading { is_reading ch self.old.clients ≡ true }
        requires held { IsHeld self.old }
        requires settled { self.old.unreached.items ≡ [] }
        requires ready { (E.channels edge.old).ready ≡ Some ch.0 }
        ensures still { IfOk result (λ heard. IsStillHeld self.old self.new) }
        ensures settled { IfOk result (λ heard. self.new.unreached.items ≡ []) }
        ensures forms { IfOk result (λ heard. IfSome heard IsQueuedInForm) }
        ensures hears { HearsOfAny E.told E.heard edge.old edge.new self.old self.new ch result }
        ensures part { (store : StoreNow) → ServesShort E.told E.heard edge.old edge.new (taking store (seen_held self.old) ch) result }
        ensures alone { StillTold E.told edge.old edge.new }
        ensures later { Later (E.faults edge.old) (E.faults edge.new) }
        ensures kept { Stays E.extent edge.old edge.new }
    {
        let Some(count) = take_piece(edge, ch, &mut self.buffer) else {
            self.lose_client(edge, ch);
            return Ok(None);
        };
        if count == 0 {
            self.lose_client(edge, ch);
            return Ok(None);
        }
        match read_request(
            &mut self.clients,
            alloc,
            &mut self.scratch,
            ch,
            &self.buffer[..count],
        )? {
            Request::More => Ok(None),
            Request::Says(input) => Ok(Some(QueuedInput {
                input,
                client: Some(ch),
            })),
            Request::Bad(text) => {
                self.answer_client(edge, ch, &text);
                Ok(None)
            }
        }
    }

    /// A client whose request isn't whole is lost, and its channel is closed.
    #[tactic(auto, using(iss_edge::proofs::Outers::told_closes, iss_link::proofs::Worlds::told_some))]
    fn lose_client<E: Edge>(&mut self, edge: &mut E, ch: Channel)
        ensures now { seen_held self.new ≡ record (seen_held self.old) { clients = readers_without ch self.old.clients } }
        ensures still { IsStillHeld self.old self.new }
        ensures told { ToldBoth E.told E.heard (Adds (Close ch ∷ []) []) edge.old edge.new }
        ensures alone { StillTold E.told edge.old edge.new }
        ensures later { Later (E.faults edge.old) (E.faults edge.new) }
        ensures kept { Stays E.extent edge.old edge.new }
    {
        self.clients.remove(ch);
        edge.close(ch);
    }

    /// A client gets its response, and its channel is closed.
    #[tactic(auto, using(iss_link::proofs::Worlds::told_some))]
    pub(crate) fn answer_client<E: Edge>(&mut self, edge: &mut E, ch: Channel, text: &[u8])
        ensures now { seen_held self.new ≡ record (seen_held self.old) { served = waiters_without ch self.old.routes.waiters } }
        ensures still { IsStillHeld self.old self.new }
        ensures sends { SendsReply E.told E.heard edge.old edge.new ch text.now }
        ensures alone { StillTold E.told edge.old edge.new }
        ensures later { Later (E.faults edge.old) (E.faults edge.new) }
        ensures kept { Stays E.extent edge.old edge.new }
    {
        reply(edge, ch, text);
        self.routes.forget(ch);
    }

    /// Takes from a client that waits, and ignores what comes. If the take fails, the channel is closed, and the client waits no longer.
    fn pass_over<E: Edge>(&mut self, edge: &mut E, ch: Channel)
        requires other { is_reading ch self.old.clients ≡ false }
        requires waiting { is_waiting ch self.old.routes.waiters ≡ true }
        requires held { IsHeld self.old }
        requires settled { self.old.unreached.items ≡ [] }
        requires ready { (E.channels edge.old).ready ≡ Some ch.0 }
        ensures still { IsStillHeld self.old self.new }
        ensures settled { self.new.unreached.items ≡ [] }
        ensures hears { PassesOver E.told E.heard edge.old edge.new self.old self.new ch }
        ensures alone { StillTold E.told edge.old edge.new }
        ensures later { Later (E.faults edge.old) (E.faults edge.new) }
        ensures kept { Stays E.extent edge.old edge.new }
    {
        match take_piece(edge, ch, &mut self.buffer) {
            Some(_) => {}
            None => self.lose_waiter(edge, ch),
        }
    }

    /// A client that waits is lost, and its channel is closed.
    #[tactic(auto, using(iss_edge::proofs::Outers::told_closes, iss_link::proofs::Worlds::told_some))]
    fn lose_waiter<E: Edge>(&mut self, edge: &mut E, ch: Channel)
        ensures now { seen_held self.new ≡ record (seen_held self.old) { served = waiters_without ch self.old.routes.waiters } }
        ensures still { IsStillHeld self.old self.new }
        ensures told { ToldBoth E.told E.heard (Adds (Close ch ∷ []) []) edge.old edge.new }
        ensures alone { StillTold E.told edge.old edge.new }
        ensures later { Later (E.faults edge.old) (E.faults edge.new) }
        ensures kept { Stays E.extent edge.old edge.new }
    {
        self.routes.forget(ch);
        edge.close(ch);
    }

    /// Takes from a channel on which the gateway's answer is awaited.
    fn take_answer<E: Edge>(
        &mut self,
        alloc: Global,
        edge: &mut E,
        ch: Channel,
    ) -> Result<Option<QueuedInput>, AllocError>
        requires no_client { is_reading ch self.old.clients ≡ false }
        requires none_waits { is_waiting ch self.old.routes.waiters ≡ false }
        requires watched { IsSome (link_at ch self.old.links.links) }
        requires held { IsHeld self.old }
        requires settled { self.old.unreached.items ≡ [] }
        requires ready { (E.channels edge.old).ready ≡ Some ch.0 }
        ensures still { IfOk result (λ heard. IsStillHeld self.old self.new) }
        ensures settled { IfOk result (λ heard. self.new.unreached.items ≡ []) }
        ensures forms { IfOk result (λ heard. IfSome heard IsQueuedInForm) }
        ensures hears { HearsFrom E.told E.heard edge.old edge.new self.old self.new (λ store. taking store (seen_held self.old) ch) result }
        ensures part { HearsShort E.told E.heard edge.old edge.new self.old (λ store. taking store (seen_held self.old) ch) result }
        ensures alone { StillTold E.told edge.old edge.new }
        ensures later { Later (E.faults edge.old) (E.faults edge.new) }
        ensures kept { Stays E.extent edge.old edge.new }
    {
        let heard = self.links.ready(alloc, edge, ch)?;
        Ok(queued_of(&heard))
    }
}

/// What is to be judged once a link heard this.
fn queued_of(heard: &Heard) -> Option<QueuedInput>
    requires form { is_heard_in_form (heard_of heard.now) ≡ true }
    ensures queued { queued_maybe result ≡ inputs_of (heard_of heard.now) }
    ensures forms { IfSome result IsQueuedInForm }
{
    match heard {
        Heard::Nothing => None,
        Heard::Outcome(call, outcome) => Some(answer(*call, *outcome)),
        Heard::Acked(notice) => Some(ack(*notice)),
        Heard::Dropped(_) => None,
    }
}

/// An input that no client sent.
fn unasked(input: Input) -> QueuedInput
    ensures { queued_as result ≡ unasked input }
{
    QueuedInput {
        input,
        client: None,
    }
}

/// The answer of a call. Calls are numbered from 1.
pub(crate) fn answer(call: CallId, outcome: Outcome) -> QueuedInput
    requires numbered { is_from_one call.0 ≡ true }
    requires form { IsTrue (is_outcome outcome) }
    ensures said { queued_as result ≡ unasked (input_of.Answer call outcome) }
    ensures forms { IsQueuedInForm result }
{
    unasked(Input::Answer { call, outcome })
}

/// The acknowledgement of a notice. Notices are numbered from 1 too.
fn ack(notice: u32) -> QueuedInput
    requires { is_from_one notice ≡ true }
    ensures said { queued_as result ≡ unasked (input_of.Ack notice) }
    ensures forms { IsQueuedInForm result }
{
    unasked(Input::Ack { notice })
}
