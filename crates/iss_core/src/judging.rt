//! Whether an input is new. Nothing is changed or simulated: it is judged by what stands before anything due.
ghost use Rattle.std.specs.Prelude.{◌≡◌, ◌&&◌, nat_lt, false, None, IfOk, IsTrue};
ghost use Rattle.iss_model.specs.declared.input.Input.TheVariants as input;
ghost use Rattle.iss_model.specs.declared.decision.Judged.TheVariants as judged;
ghost use Rattle.iss_model.specs.Inputs.{event_token};
ghost use Rattle.iss_model.specs.Forms.{is_in_form};
ghost use Rattle.iss_model.specs.rules.Due.{due_items, is_quiet};
ghost use Rattle.iss_model.specs.rules.Judging.{judgement_as, judgement_at, notice_answer, is_ack};
ghost use Rattle.iss_model.specs.state.Cores.{core_keeper};
ghost use Rattle.iss_state.specs.Pending.{IsWell};
ghost use Rattle.iss_core.specs.States.{facts_of, kept_state};

use crate::state::State;
use iss_model::{Answer, CallId, Input, Judged, Outcome, Record};
use std::alloc::{AllocError, Global};

impl State {
    /// An input judged at a moment.
    pub(crate) fn judge(&self, alloc: Global, input: &Input, at: u64) -> Result<Judged, AllocError>
        requires well { IsWell (kept_state self.now) }
        requires form { IsTrue (is_in_form input.now) }
        ensures { IfOk result (λ j. j ≡ judgement_at core_keeper (kept_state self.now) input.now at) }
    {
        match input.event() {
            Some(_) => {
                let answer = self.events.answer(alloc, input)?;
                self.judged(answer, input, at)
            }
            None => self.judge_other(input, at),
        }
    }

    /// An input that isn't an event: an answer, an acknowledgement or a time.
    fn judge_other(&self, input: &Input, at: u64) -> Result<Judged, AllocError>
        requires well { IsWell (kept_state self.now) }
        requires other { event_token input.now ≡ None }
        ensures { IfOk result (λ j. j ≡ judgement_at core_keeper (kept_state self.now) input.now at) }
    {
        match input {
            Input::Answer { call, outcome } => self.judge_answer(*call, *outcome, at),
            Input::Ack { notice } => match self.notice_answer(*notice) {
                Some(answer) => Ok(Judged::Told(answer)),
                None => new(input, at),
            },
            Input::Time => {
                if self.is_due(at) {
                    return new(input, at);
                }
                Ok(Judged::Told(Answer::Idle))
            }
            _ => unreachable!(),
        }
    }

    /// An input that has no answer is new. One that has an answer receives it, after a time record if something is due.
    #[inline(always)]
    fn judged(&self, answer: Option<Answer>, input: &Input, at: u64) -> Result<Judged, AllocError>
        requires { is_ack input.now ≡ false }
        ensures { IfOk result (λ j. j ≡ judgement_as answer (is_quiet (due_items (facts_of self.now) at)) input.now at) }
    {
        let Some(answer) = answer else {
            return new(input, at);
        };
        if self.is_due(at) {
            return Ok(Judged::Clock(Record {
                at,
                input: Input::Time,
            }));
        }
        Ok(Judged::Told(answer))
    }

    /// The answer to a call that was never opened, or is closed, is refused. One to a call that is asked is new until the
    /// call's deadline and its transaction's expiry; from then on it comes too late.
    fn judge_answer(&self, call: CallId, outcome: Outcome, at: u64) -> Result<Judged, AllocError>
        requires { IsWell (kept_state self.now) }
        ensures { IfOk result (λ j. j ≡ judgement_at core_keeper (kept_state self.now) (input.Answer call outcome) at) }
    {
        let Some(asked) = self.call(call) else {
            let answer = Answer::UnknownCall(call);
            return self.judged(Some(answer), &Input::Answer { call, outcome }, at);
        };
        if let Some(how) = asked.how {
            let answer = Answer::Late(call, how);
            return self.judged(Some(answer), &Input::Answer { call, outcome }, at);
        }
        let Some(hold) = self.hold(&asked.opened.txn) else {
            unreachable!()
        };
        if !is_in_time(at, asked.opened.deadline, hold.txn.expires) {
            return Ok(Judged::Clock(Record {
                at,
                input: Input::Time,
            }));
        }
        Ok(Judged::New(Record {
            at,
            input: Input::Answer { call, outcome },
        }))
    }

    /// The answer to an acknowledgement of a notice that was never made, or is acknowledged.
    #[inline(never)]
    fn notice_answer(&self, notice: u32) -> Option<Answer>
        ensures { result ≡ notice_answer (facts_of self.now) notice }
    {
        if notice == 0 || notice > self.notices.made() {
            return Some(Answer::UnknownNotice(notice));
        }
        match self.notices.get(notice) {
            Some(_) => None,
            None => Some(Answer::Already(notice)),
        }
    }
}

/// Whether a moment is before a deadline and an expiry.
fn is_in_time(at: u64, deadline: u64, expires: u64) -> bool
    ensures { result ≡ (nat_lt at deadline && nat_lt at expires) }
{
    at < deadline && at < expires
}

fn new(input: &Input, at: u64) -> Result<Judged, AllocError>
    ensures { IfOk result (λ j. j ≡ judged.New (record { at = at; input = input.now })) }
{
    Ok(Judged::New(Record {
        at,
        input: input.copied()?,
    }))
}
