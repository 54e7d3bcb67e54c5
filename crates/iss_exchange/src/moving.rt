//! What each move does, by the rules.
ghost use Rattle.std.specs.Prelude.{◌≡◌, ◌<◌, length, map, IfOk, IsTrue, slice_get};
ghost use Rattle.iss_model.specs.declared.limits.TheConstants.{MOST_RECORDS};
ghost use Rattle.iss_model.specs.Forms.{is_in_form, is_stamp};
ghost use Rattle.iss_model.specs.rules.Histories.{Follows, history_of};
ghost use Rattle.iss_model.specs.texts.CallTokens.{call_uuid};
ghost use Rattle.iss_core.specs.Values.{CoreStandsFor};
ghost use Rattle.iss_gateway.specs.declared.books.TheConstants.{MOST_HEARD};
ghost use Rattle.iss_gateway.specs.Books.{count_of};
ghost use Rattle.iss_delivery.specs.Delivering.{IsSendable};
ghost use Rattle.iss_exchange_laws.specs.declared.moves.Move.TheVariants.{Input as Own};
ghost use Rattle.iss_exchange_laws.specs.Exchanges.{at_place, may_come, with_answer, with_crash, with_input, with_input_of, with_release};
ghost use Rattle.iss_exchange_laws.specs.Messages.{input_given, message_sent};
ghost use Rattle.iss_exchange.specs.Standing.{AreStanding, Becomes, IsOrderly, answered, delivered_in, exchange_in, heard_in, moved_in, with_record};

use crate::cores::{core_of, push};
use crate::forms::{is_in_form, is_stamp};
use crate::sides::{Answer, Sides};
use iss_delivery::{deliver, input_given, is_gateways, put_sent};
use iss_exchange_laws::{Move, Sent};
use iss_model::limits::MOST_RECORDS;
use iss_model::{Input, Judged, Record};
use std::alloc::{AllocError, Global};

impl Sides {
    /// What a move comes to. If an allocation fails, both sides are gone.
    pub(crate) fn turn(self, alloc: Global, m: &Move) -> Result<Sides, AllocError>
        requires standing { AreStanding self }
        requires orderly { IsOrderly (exchange_in self) }
        requires room { count_of self.gateway.books < MOST_HEARD }
        ensures { IfOk result (Becomes self (moved_in self m.now)) }
    {
        match m {
            Move::Input(input, at) => self.take_own(alloc, input, *at),
            Move::Release => self.release(alloc),
            Move::Crash(kept) => self.crash(alloc, *kept),
            Move::ToGateway(place) => self.reach_gateway(alloc, *place),
            Move::ToProcessor(place, at) => self.reach_processor(alloc, *place, *at),
        }
    }

    /// Takes an input, unless only the gateway's word makes it.
    #[tactic(auto, using(crate::proofs::Becoming::stays_yes, crate::proofs::Becoming::goes_on_if))]
    fn take_own(self, alloc: Global, input: &Input, at: u64) -> Result<Sides, AllocError>
        requires standing { AreStanding self }
        requires orderly { IsOrderly (exchange_in self) }
        ensures { IfOk result (Becomes self (moved_in self (Own input.now at))) }
    {
        if is_gateways(input) {
            return Ok(self);
        }
        self.take(alloc, input, at)
    }

    /// Takes an input that may come, and keeps the record that it makes, if it makes one.
    #[tactic(auto, using(crate::proofs::Becoming::stays_not))]
    fn take(self, alloc: Global, input: &Input, at: u64) -> Result<Sides, AllocError>
        requires standing { AreStanding self }
        requires orderly { IsOrderly (exchange_in self) }
        ensures { IfOk result (Becomes self (with_input (exchange_in self) input.now at)) }
    {
        if !self.may_come(input, at) {
            return Ok(self);
        }
        self.judge(alloc, input, at)
    }

    /// Whether an input may come: it and its stamp are in form, and there is a number left for its record.
    fn may_come(&self, input: &Input, at: u64) -> bool
        requires { AreStanding self.now }
        ensures { result ≡ may_come self.now.records.items input.now at }
    {
        is_in_form(input) && is_stamp(at) && self.core.count() < MOST_RECORDS
    }

    /// Judges an input that may come, and keeps the record that it makes, if it makes one.
    fn judge(self, alloc: Global, input: &Input, at: u64) -> Result<Sides, AllocError>
        requires standing { AreStanding self }
        requires orderly { IsOrderly (exchange_in self) }
        requires may { IsTrue (may_come self.records.items input.now at) }
        ensures { IfOk result (Becomes self (with_input (exchange_in self) input.now at)) }
    {
        match self.core.judge(alloc, input, at)? {
            Judged::New(accepted) => self.keep(alloc, accepted),
            Judged::Clock(clock) => self.keep(alloc, clock),
            Judged::Told(_) => Ok(self),
        }
    }

    /// Keeps a record that follows.
    fn keep(mut self, alloc: Global, accepted: Record) -> Result<Sides, AllocError>
        requires standing { AreStanding self }
        requires orderly { IsOrderly (exchange_in self) }
        requires follows { Follows (history_of self.records.items) accepted }
        requires input_form { IsTrue (is_in_form accepted.input) }
        requires stamp_form { IsTrue (is_stamp accepted.at) }
        requires room { length self.records.items < MOST_RECORDS }
        ensures { IfOk result (Becomes self (with_record (exchange_in self) accepted)) }
    {
        let (core, _) = self.core.step(alloc, &accepted)?;
        self.records.push(accepted)?;
        Ok(Sides { core, ..self })
    }

    /// Sends what the first record sends that isn't released yet, if there is one.
    fn release(mut self, alloc: Global) -> Result<Sides, AllocError>
        requires standing { AreStanding self }
        requires orderly { IsOrderly (exchange_in self) }
        ensures { IfOk result (Becomes self (with_release (exchange_in self) (slice_get self.records.items self.released))) }
    {
        if self.released >= self.records.len() {
            return Ok(self);
        }
        let released_core = self.released_core;
        let (released_core, entries) = released_core.step(alloc, &self.records[self.released])?;
        put_sent(&mut self.sent, &entries)?;
        Ok(Sides {
            released_core,
            released: self.released + 1,
            ..self
        })
    }

    /// Loses all records but the first ones, unless a released one would go.
    fn crash(mut self, alloc: Global, kept: u32) -> Result<Sides, AllocError>
        requires standing { AreStanding self }
        requires orderly { IsOrderly (exchange_in self) }
        ensures { IfOk result (Becomes self (with_crash (exchange_in self) kept)) }
    {
        let kept = kept as usize;
        if kept < self.released || kept >= self.records.len() {
            return Ok(self);
        }
        self.records.truncate(kept);
        let core = core_of(alloc, self.instance, &self.records)?;
        Ok(Sides { core, ..self })
    }

    /// The request or notice of this number, from 1, reaches the gateway, if it was sent.
    fn reach_gateway(self, alloc: Global, place: u32) -> Result<Sides, AllocError>
        requires standing { AreStanding self }
        requires orderly { IsOrderly (exchange_in self) }
        requires room { count_of self.gateway.books < MOST_HEARD }
        ensures { IfOk result (Becomes self (delivered_in self (at_place place self.sent.items))) }
    {
        match sent_at(&self.sent, place) {
            Some(what) => self.hear(alloc, &what),
            None => Ok(self),
        }
    }

    /// The gateway hears what was sent, unless its text is read as no message.
    fn hear(mut self, alloc: Global, what: &Sent) -> Result<Sides, AllocError>
        requires standing { AreStanding self }
        requires sendable { IsSendable what.now }
        requires room { count_of self.gateway.books < MOST_HEARD }
        ensures { IfOk result (Becomes self (heard_in self what.now (message_sent (call_uuid self.instance) what.now))) }
    {
        let Some(message) = deliver(alloc, self.instance, what)? else {
            return Ok(self);
        };
        let given = self.gateway.hear(&message)?;
        push(&mut self.given, &Answer { what: *what, given })?;
        push(&mut self.heard, &message)?;
        Ok(self)
    }

    /// The gateway's answer of this number, from 1, reaches the processor, if it was given.
    fn reach_processor(self, alloc: Global, place: u32, at: u64) -> Result<Sides, AllocError>
        requires standing { AreStanding self }
        requires orderly { IsOrderly (exchange_in self) }
        ensures { IfOk result (Becomes self (with_answer (exchange_in self) (at_place place (map answered self.given.items)) at)) }
    {
        match answer_at(&self.given, place) {
            Some(answer) => self.take_answer(alloc, &answer, at),
            None => Ok(self),
        }
    }

    /// Takes what the gateway gave, if that is an input.
    fn take_answer(self, alloc: Global, answer: &Answer, at: u64) -> Result<Sides, AllocError>
        requires standing { AreStanding self }
        requires orderly { IsOrderly (exchange_in self) }
        ensures { IfOk result (Becomes self (with_input_of (exchange_in self) (input_given answer.now.what answer.now.given) at)) }
    {
        match input_given(&answer.what, answer.given) {
            Some(input) => self.take(alloc, &input, at),
            None => Ok(self),
        }
    }
}

/// What was sent at a place, from 1.
fn sent_at(sent: &[Sent], place: u32) -> Option<Sent>
    ensures { result ≡ at_place place sent.now }
{
    if place == 0 {
        return None;
    }
    sent.get(place as usize - 1).copied()
}

/// What was given at a place, from 1.
fn answer_at(given: &[Answer], place: u32) -> Option<Answer>
    ensures { result ≡ at_place place given.now }
{
    if place == 0 {
        return None;
    }
    given.get(place as usize - 1).copied()
}
