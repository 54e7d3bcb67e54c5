//! What is sent, as it is heard.
ghost use Rattle.std.specs.Prelude.{◌≡◌, ◌<◌, Some, IfOk, IfSome, IsTrue};
ghost use Rattle.iss_model.specs.declared.limits.TheConstants.{INSTANCES};
ghost use Rattle.iss_model.specs.texts.CallTokens.{call_uuid};
ghost use Rattle.iss_model.specs.texts.GatewayTexts.{notice_text, request_text};
ghost use Rattle.iss_gateway.specs.Messages.{is_within};
ghost use Rattle.iss_gateway.specs.Readings.{message_read};
ghost use Rattle.iss_exchange_laws.specs.declared.moves.Sent.TheVariants.{Notice as Telling, Request as Asking};
ghost use Rattle.iss_exchange_laws.specs.Messages.{message_sent};
ghost use Rattle.iss_delivery.specs.Delivering.{IsAsking, IsSendable, IsTelling, IsTypedCall, IsTypedNotice, text_sent};

use iss_exchange_laws::Sent;
use iss_gateway::{Message, read_text};
use iss_jit::{notice_text, request_text};
use iss_model::{Notice, Opened};
use std::alloc::{AllocError, Global};

/// What the gateway of an instance reads from the text of what is sent. It reads none from a notice whose amount or gateway
/// part is over what a limit may be.
pub fn deliver(alloc: Global, instance: u64, what: &Sent) -> Result<Option<Message>, AllocError>
    requires instance { instance < INSTANCES }
    requires sendable { IsSendable what.now }
    ensures sent { IfOk result (λ read. read ≡ message_sent (call_uuid instance) what.now) }
    ensures read { IfOk result (λ read. read ≡ message_read (text_sent instance what.now)) }
    ensures within { IfOk result (λ read. IfSome read (λ m. IsTrue (is_within m))) }
{
    match what {
        Sent::Request(opened) => deliver_request(alloc, instance, opened),
        Sent::Notice(notice) => deliver_notice(alloc, instance, notice),
    }
}

fn deliver_request(
    alloc: Global,
    instance: u64,
    opened: &Opened,
) -> Result<Option<Message>, AllocError>
    requires instance { instance < INSTANCES }
    requires asking { IsAsking opened.now }
    ensures sent { IfOk result (λ read. read ≡ message_sent (call_uuid instance) (Asking opened.now)) }
    ensures read { IfOk result (λ read. read ≡ message_read (request_text instance opened.now)) }
    ensures within { IfOk result (λ read. IfSome read (λ m. IsTrue (is_within m))) }
{
    know_call(opened);
    let text = request_text(alloc, opened, instance)?;
    read_text(alloc, &text)
}

fn deliver_notice(
    alloc: Global,
    instance: u64,
    notice: &Notice,
) -> Result<Option<Message>, AllocError>
    requires instance { instance < INSTANCES }
    requires telling { IsTelling notice.now }
    ensures sent { IfOk result (λ read. read ≡ message_sent (call_uuid instance) (Telling notice.now)) }
    ensures read { IfOk result (λ read. read ≡ message_read (notice_text instance notice.now)) }
    ensures within { IfOk result (λ read. IfSome read (λ m. IsTrue (is_within m))) }
{
    know_notice(notice);
    let text = notice_text(alloc, notice, instance)?;
    read_text(alloc, &text)
}

/// Does nothing. It says what a call's types say: its number fits, and its names are tokens.
fn know_call(opened: &Opened)
    ensures { IsTypedCall opened.now }
{
    let _number = opened.call.0;
    let _card = opened.card.text();
    let _event = opened.event.text();
    let _mid = opened.mid.text();
    let _txn = opened.txn.text();
    let _user = opened.user.text();
}

/// Does nothing. It says what a notice's types say: its number and amounts fit, and its names are tokens.
fn know_notice(notice: &Notice)
    ensures { IsTypedNotice notice.now }
{
    let _number = notice.number;
    let _amount = notice.amount;
    let _gateway = notice.gateway;
    let _txn = notice.txn.text();
    let _user = notice.user.text();
}
