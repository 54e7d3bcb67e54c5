//! A message to a client or to the gateway, written in the room of the one before.
ghost use Rattle.std.specs.Prelude.{◌≡◌, ◌<◌, [], OnOk};
ghost use Rattle.iss_http.specs.declared.statuses.TheConstants.{OK};
ghost use Rattle.iss_http.specs.Messages.{respond, ask, IsStatus};
ghost use Rattle.iss_model.specs.declared.decision.Reply.TheVariants as reply_of;
ghost use Rattle.iss_model.specs.declared.limits.TheConstants.{INSTANCES};
ghost use Rattle.iss_model.specs.texts.AnswerLines.{answer_text};
ghost use Rattle.iss_model.specs.texts.GatewayTexts.{request_text, notice_text};
ghost use Rattle.iss_model.specs.texts.Wordings.{reply_line};
ghost use Rattle.iss_session.specs.Judgements.{answer_status};

use iss_event::{put_reply, put_told};
use iss_http::statuses::{CONFLICT, INSUFFICIENT_STORAGE, OK};
use iss_http::{write_ask, write_response};
use iss_jit::{put_notice, put_request};
use iss_model::{Answer, Notice, Opened, Reply, Token, Verdict};
use std::alloc::{AllocError, Global};

/// A message and its body, both in room that is kept from one message to the next. If an allocation fails, a part of a
/// message may be there.
#[derive(Drop)]
pub(crate) struct Message {
    body: Vec<u8>,
    pub(crate) bytes: Vec<u8>,
}

impl Message {
    pub(crate) fn new(alloc: Global) -> Message
        ensures { result.bytes.items ≡ [] }
    {
        Message {
            body: Vec::new(alloc),
            bytes: Vec::new(alloc),
        }
    }

    /// Writes the response that tells a decision.
    pub(crate) fn write_decision(
        &mut self,
        event: &Token,
        verdict: &Verdict,
    ) -> Result<(), AllocError>
        ensures { OnOk result (self.new.bytes.items ≡ respond OK (reply_line event.now (reply_of.Decided verdict.now))) }
    {
        self.body.clear();
        put_reply(&mut self.body, event, &Reply::Decided(*verdict))?;
        write_response(&mut self.bytes, OK, &self.body)
    }

    /// Writes the response that tells why an event isn't new.
    pub(crate) fn write_answer(&mut self, answer: &Answer) -> Result<(), AllocError>
        ensures { OnOk result (self.new.bytes.items ≡ respond (answer_status answer.now) (answer_text answer.now)) }
    {
        self.body.clear();
        put_told(&mut self.body, answer)?;
        write_response(&mut self.bytes, answer_status(answer), &self.body)
    }

    /// Writes the request of a call.
    pub(crate) fn write_request(&mut self, opened: &Opened, instance: u64) -> Result<(), AllocError>
        requires { instance < INSTANCES }
        ensures { OnOk result (self.new.bytes.items ≡ ask (request_text instance opened.now)) }
    {
        self.body.clear();
        put_request(&mut self.body, opened, instance)?;
        write_ask(&mut self.bytes, &self.body)
    }

    /// Writes a notice.
    pub(crate) fn write_notice(&mut self, notice: &Notice, instance: u64) -> Result<(), AllocError>
        requires { instance < INSTANCES }
        ensures { OnOk result (self.new.bytes.items ≡ ask (notice_text instance notice.now)) }
    {
        self.body.clear();
        put_notice(&mut self.body, notice, instance)?;
        write_ask(&mut self.bytes, &self.body)
    }
}

/// The status of a response that tells why an event isn't new: Conflict, Insufficient Storage or OK of RFC 9110.
fn answer_status(answer: &Answer) -> u16
    ensures value { result ≡ answer_status answer.now }
    ensures known { IsStatus result }
{
    match answer {
        Answer::Conflict(..) => CONFLICT,
        Answer::Full { .. } => INSUFFICIENT_STORAGE,
        Answer::Spent => INSUFFICIENT_STORAGE,
        _ => OK,
    }
}
