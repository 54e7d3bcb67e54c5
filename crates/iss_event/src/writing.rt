//! The lines that are sent, as bytes after those that are there. If an allocation fails, a part of a line may be there.
ghost use Rattle.std.specs.Prelude.{◌≡◌, ◌++◌, IfOk, OnOk, decimal};
ghost use Rattle.iss_model.specs.texts.AnswerLines.{answer_text, how_text, acked_line, time_line};
ghost use Rattle.iss_model.specs.texts.Wordings.{reply_line, fault_line};
ghost use Rattle.iss_model.specs.declared.decision.Answer.TheVariants as answer;
ghost use Rattle.iss_event.specs.declared.line.FormFault.TheVariants.{Field};
ghost use Rattle.iss_event.specs.FormLines.{form_text};
ghost use Rattle.iss_event.specs.Replies.{reply_start, part_start, reply_end, declined_end};

use crate::FormFault;
use crate::reason::put_reason;
use iss_amount::{put_amount_text, put_decimal};
use iss_field::Name;
use iss_model::{Answer, CallId, Currency, Failure, How, Reason, Reply, Token, Verdict};
use itoa::Buffer;
use std::alloc::{AllocError, Global};

/// The line that tells what became of an event, with its line feed.
pub fn reply_line(alloc: Global, event: &Token, reply: &Reply) -> Result<Vec<u8>, AllocError>
    ensures { IfOk result (λ line. line.items ≡ reply_line event.now reply.now) }
{
    let mut line = Vec::new(alloc);
    put_reply(&mut line, event, reply)?;
    Ok(line)
}

/// The line that tells an input that makes no record what became of it, with its line feed.
pub fn told_line(alloc: Global, answer: &Answer) -> Result<Vec<u8>, AllocError>
    ensures { IfOk result (λ line. line.items ≡ answer_text answer.now) }
{
    let mut line = Vec::new(alloc);
    put_told(&mut line, answer)?;
    Ok(line)
}

/// The line of an acknowledgement that was taken, with its line feed.
pub fn acked_line(alloc: Global, notice: u32) -> Result<Vec<u8>, AllocError>
    ensures { IfOk result (λ line. line.items ≡ acked_line notice) }
{
    let mut line = Vec::new(alloc);
    put_acked(&mut line, notice)?;
    Ok(line)
}

/// The line of a time at which something was due, with its line feed.
pub fn time_line(alloc: Global) -> Result<Vec<u8>, AllocError>
    ensures { IfOk result (λ line. line.items ≡ time_line) }
{
    let mut line = Vec::new(alloc);
    put_time(&mut line)?;
    Ok(line)
}

/// The line that tells of a fault of form, with its line feed.
pub fn form_line(alloc: Global, fault: &FormFault) -> Result<Vec<u8>, AllocError>
    ensures { IfOk result (λ line. line.items ≡ form_text fault.now) }
{
    let mut line = Vec::new(alloc);
    put_form(&mut line, fault)?;
    Ok(line)
}

/// Adds the line that tells what became of an event, with its line feed.
#[tactic(auto, using(crate::proofs::Lines::reply_after))]
pub fn put_reply(out: &mut Vec<u8>, event: &Token, reply: &Reply) -> Result<(), AllocError>
    ensures { OnOk result (out.new.items ≡ out.old.items ++ reply_line event.now reply.now) }
{
    put_reply_start(out, reply)?;
    out.extend_from_slice(event.text())?;
    put_reply_end(out, reply)
}

/// Adds the line that tells an input that makes no record what became of it, with its line feed.
#[tactic(auto, using(crate::proofs::Lines::repeat))]
pub fn put_told(out: &mut Vec<u8>, answer: &Answer) -> Result<(), AllocError>
    ensures { OnOk result (out.new.items ≡ out.old.items ++ answer_text answer.now) }
{
    match answer {
        Answer::Repeat(event, reply) => put_reply(out, event, reply),
        Answer::Conflict(event, number) => put_conflict(out, event, *number),
        Answer::Late(call, how) => put_late(out, call, *how),
        Answer::UnknownCall(call) => {
            put_numbered(out, b"{\"call\":", call.0, b",\"reply\":\"unknown\"}\n")
        }
        Answer::Already(notice) => {
            put_numbered(out, b"{\"notice\":", *notice, b",\"reply\":\"already\"}\n")
        }
        Answer::UnknownNotice(notice) => {
            put_numbered(out, b"{\"notice\":", *notice, b",\"reply\":\"unknown\"}\n")
        }
        Answer::Idle => put_idle(out),
        Answer::Full { free, need } => put_full(out, *free, *need),
        Answer::Spent => put_spent(out),
    }
}

/// Adds the line of an acknowledgement that was taken, with its line feed.
pub fn put_acked(out: &mut Vec<u8>, notice: u32) -> Result<(), AllocError>
    ensures { OnOk result (out.new.items ≡ out.old.items ++ acked_line notice) }
{
    put_numbered(out, b"{\"notice\":", notice, b",\"reply\":\"acked\"}\n")
}

/// Adds the line of a time at which something was due, with its line feed.
#[tactic(auto, unfolding(iss_model::specs::texts::AnswerLines::time_line))]
pub fn put_time(out: &mut Vec<u8>) -> Result<(), AllocError>
    ensures { OnOk result (out.new.items ≡ out.old.items ++ time_line) }
{
    out.extend_from_slice(b"{\"reply\":\"time\"}\n")
}

/// Adds the line that tells of a fault of form, with its line feed.
#[tactic(auto, unfolding(crate::specs::FormLines::form_text))]
pub fn put_form(out: &mut Vec<u8>, fault: &FormFault) -> Result<(), AllocError>
    ensures { OnOk result (out.new.items ≡ out.old.items ++ form_text fault.now) }
{
    match fault {
        FormFault::Long => put_fault(out, b"LONG"),
        FormFault::Json => put_fault(out, b"JSON"),
        FormFault::Field(name) => put_bad_field(out, *name),
    }
}

fn put_fault(out: &mut Vec<u8>, fault: &[u8]) -> Result<(), AllocError>
    ensures { OnOk result (out.new.items ≡ out.old.items ++ fault_line fault.now) }
{
    put_between(out, b"{\"fault\":\"", fault, b"\",\"reply\":\"form\"}\n")
}

fn put_bad_field(out: &mut Vec<u8>, name: Name) -> Result<(), AllocError>
    ensures { OnOk result (out.new.items ≡ out.old.items ++ form_text (Field name)) }
{
    put_between(
        out,
        b"{\"fault\":\"FIELD\",\"field\":\"",
        name.text().as_bytes(),
        b"\",\"reply\":\"form\"}\n",
    )
}

fn put_reply_start(out: &mut Vec<u8>, reply: &Reply) -> Result<(), AllocError>
    ensures { OnOk result (out.new.items ≡ out.old.items ++ reply_start reply.now) }
{
    match reply {
        Reply::Decided(Verdict::Partial(currency, amount)) => {
            put_part_start(out, *currency, *amount)
        }
        Reply::Decided(Verdict::Done | Verdict::Approved | Verdict::Declined(_)) | Reply::Pending =>
            out.extend_from_slice(b"{\"event\":\""),
    }
}

fn put_part_start(out: &mut Vec<u8>, currency: Currency, amount: u64) -> Result<(), AllocError>
    ensures { OnOk result (out.new.items ≡ out.old.items ++ part_start currency amount) }
{
    out.extend_from_slice(b"{\"amount\":\"")?;
    put_amount_text(out, amount, currency)?;
    out.extend_from_slice(b"\",\"event\":\"")
}

fn put_reply_end(out: &mut Vec<u8>, reply: &Reply) -> Result<(), AllocError>
    ensures { OnOk result (out.new.items ≡ out.old.items ++ reply_end reply.now) }
{
    match reply {
        Reply::Decided(Verdict::Done) => out.extend_from_slice(b"\",\"reply\":\"done\"}\n"),
        Reply::Decided(Verdict::Approved) => out.extend_from_slice(b"\",\"reply\":\"approved\"}\n"),
        Reply::Decided(Verdict::Partial(..)) => {
            out.extend_from_slice(b"\",\"reply\":\"partial\"}\n")
        }
        Reply::Decided(Verdict::Declined(reason)) => put_declined_end(out, reason),
        Reply::Pending => out.extend_from_slice(b"\",\"reply\":\"pending\"}\n"),
    }
}

#[tactic(auto, using(crate::proofs::Lines::declined_after))]
fn put_declined_end(out: &mut Vec<u8>, reason: &Reason) -> Result<(), AllocError>
    ensures { OnOk result (out.new.items ≡ out.old.items ++ declined_end reason.now) }
{
    out.extend_from_slice(b"\",\"reason\":\"")?;
    put_reason(out, reason)?;
    out.extend_from_slice(b"\",\"reply\":\"declined\"}\n")
}

#[tactic(auto, using(crate::proofs::Lines::conflict_after))]
fn put_conflict(out: &mut Vec<u8>, event: &Token, number: u32) -> Result<(), AllocError>
    ensures { OnOk result (out.new.items
        ≡ out.old.items ++ answer_text (answer.Conflict event.now number)) }
{
    put_between(out, b"{\"event\":\"", event.text(), b"\",\"record\":")?;
    put_decimal(out, u64::from(number))?;
    out.extend_from_slice(b",\"reply\":\"conflict\"}\n")
}

#[tactic(auto, using(crate::proofs::Lines::late_after))]
fn put_late(out: &mut Vec<u8>, call: &CallId, how: How) -> Result<(), AllocError>
    ensures { OnOk result (out.new.items ≡ out.old.items ++ answer_text (answer.Late call.now how)) }
{
    put_numbered(
        out,
        b"{\"call\":",
        call.0,
        b",\"reply\":\"late\",\"state\":\"",
    )?;
    out.extend_from_slice(how_text(how).as_bytes())?;
    out.extend_from_slice(b"\"}\n")
}

#[tactic(auto, using(crate::proofs::Lines::full_after))]
fn put_full(out: &mut Vec<u8>, free: u64, need: u64) -> Result<(), AllocError>
    ensures { OnOk result (out.new.items ≡ out.old.items ++ answer_text (answer.Full free need)) }
{
    out.extend_from_slice(b"{\"free\":")?;
    put_decimal(out, free)?;
    out.extend_from_slice(b",\"need\":")?;
    put_decimal(out, need)?;
    out.extend_from_slice(b",\"reply\":\"full\"}\n")
}

#[tactic(auto, unfolding(iss_model::specs::texts::AnswerLines::answer_text))]
fn put_idle(out: &mut Vec<u8>) -> Result<(), AllocError>
    ensures { OnOk result (out.new.items ≡ out.old.items ++ answer_text answer.Idle) }
{
    out.extend_from_slice(b"{\"reply\":\"idle\"}\n")
}

#[tactic(auto, unfolding(iss_model::specs::texts::AnswerLines::answer_text))]
fn put_spent(out: &mut Vec<u8>) -> Result<(), AllocError>
    ensures { OnOk result (out.new.items ≡ out.old.items ++ answer_text answer.Spent) }
{
    out.extend_from_slice(b"{\"reply\":\"spent\"}\n")
}

fn put_numbered(
    out: &mut Vec<u8>,
    prefix: &[u8],
    number: u32,
    suffix: &[u8],
) -> Result<(), AllocError>
    ensures { OnOk result (out.new.items
        ≡ out.old.items ++ (prefix.now ++ (decimal number ++ suffix.now))) }
{
    put_between(out, prefix, Buffer::new().format(number).as_bytes(), suffix)
}

pub(crate) fn put_between(
    out: &mut Vec<u8>,
    prefix: &[u8],
    text: &[u8],
    suffix: &[u8],
) -> Result<(), AllocError>
    ensures { OnOk result (out.new.items
        ≡ out.old.items ++ (prefix.now ++ (text.now ++ suffix.now))) }
{
    out.extend_from_slice(prefix)?;
    out.extend_from_slice(text)?;
    out.extend_from_slice(suffix)
}

fn how_text(how: How) -> &'static str
    ensures { result.now ≡ how_text how }
{
    match how {
        How::Funded => "FUNDED",
        How::Partial(_) => "PARTIAL",
        How::Refused => "REFUSED",
        How::Failed(Failure::Connection) => "CONNECTION",
        How::Failed(Failure::Timeout) => "TIMEOUT",
        How::Failed(Failure::Application) => "APPLICATION",
        How::Failed(Failure::Switch) => "SWITCH",
        How::Abandoned => "ABANDONED",
    }
}
