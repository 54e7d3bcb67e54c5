//! The texts of requests and notices, after those that are there. If an allocation fails, a part of a text may be there.
ghost use Rattle.std.specs.Prelude.{◌≡◌, ◌<◌, ◌++◌, IfOk, OnOk};
ghost use Rattle.iss_model.specs.declared.limits.TheConstants.{INSTANCES};
ghost use Rattle.iss_model.specs.texts.GatewayTexts.{request_text, notice_text};

use crate::members::{
    put_amount, put_call, put_currency, put_ended, put_mcc, put_method, put_number, put_partial,
    put_token,
};
use iss_model::{Notice, Opened};
use std::alloc::{AllocError, Global};

/// The text that asks the gateway of an instance for the funds of a call, without a line feed.
pub fn request_text(alloc: Global, opened: &Opened, instance: u64) -> Result<Vec<u8>, AllocError>
    requires { instance < INSTANCES }
    ensures { IfOk result (λ text. text.items ≡ request_text instance opened.now) }
{
    let mut text = Vec::new(alloc);
    put_request(&mut text, opened, instance)?;
    Ok(text)
}

/// The text of a notice to the gateway of an instance, without a line feed.
pub fn notice_text(alloc: Global, notice: &Notice, instance: u64) -> Result<Vec<u8>, AllocError>
    requires { instance < INSTANCES }
    ensures { IfOk result (λ text. text.items ≡ notice_text instance notice.now) }
{
    let mut text = Vec::new(alloc);
    put_notice(&mut text, notice, instance)?;
    Ok(text)
}

/// Adds the text of a request.
pub fn put_request(out: &mut Vec<u8>, opened: &Opened, instance: u64) -> Result<(), AllocError>
    requires { instance < INSTANCES }
    ensures { OnOk result (out.new.items ≡ out.old.items ++ request_text instance opened.now) }
{
    put_amount(out, b'{', "amount", opened.amount, opened.currency)?;
    put_token(out, "card", &opened.card)?;
    put_currency(out, opened.currency)?;
    put_token(out, "event", &opened.event)?;
    put_mcc(out, opened.mcc)?;
    put_method(out, opened.method)?;
    put_token(out, "mid", &opened.mid)?;
    put_number(out, "number", opened.call.0)?;
    put_partial(out, opened.partial)?;
    put_call(out, opened.call, instance)?;
    put_token(out, "txn", &opened.txn)?;
    put_token(out, "user", &opened.user)?;
    out.extend_from_slice(b"}")
}

/// Adds the text of a notice.
pub fn put_notice(out: &mut Vec<u8>, notice: &Notice, instance: u64) -> Result<(), AllocError>
    requires { instance < INSTANCES }
    ensures { OnOk result (out.new.items ≡ out.old.items ++ notice_text instance notice.now) }
{
    put_amount(out, b'{', "amount", notice.amount, notice.currency)?;
    put_currency(out, notice.currency)?;
    put_amount(out, b',', "gateway", notice.gateway, notice.currency)?;
    put_method(out, notice.method)?;
    put_number(out, "notice", notice.number)?;
    put_ended(out, notice.call, instance)?;
    put_token(out, "txn", &notice.txn)?;
    put_token(out, "user", &notice.user)?;
    out.extend_from_slice(b"}")
}
