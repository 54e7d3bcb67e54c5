//! The bodies in which a gateway tells what it gives.
ghost use Rattle.std.specs.Prelude.{◌≡◌, ◌++◌, IfOk, OnOk};
ghost use Rattle.uuid.specs.Text.{hyphenated_text, lower};
ghost use Rattle.iss_gateway.specs.declared.message.Given.TheVariants.{Funded};
ghost use Rattle.iss_gateway.specs.Bodies.{body_of, funded_line, refused_line, acked_line, unread_line};

use crate::{Given, Message};
use iss_amount::put_amount_text;
use iss_model::Currency;
use std::alloc::{AllocError, Global};
use uuid::Uuid;

/// The body that tells what is given for a message, with its line feed.
pub fn body(alloc: Global, message: &Message, given: Given) -> Result<Vec<u8>, AllocError>
    ensures { IfOk result (λ body. body.items ≡ body_of message.now given) }
{
    let mut out = Vec::new(alloc);
    put_body(&mut out, message, given)?;
    Ok(out)
}

/// Adds that body. If an allocation fails, a part of it may be there.
pub fn put_body(out: &mut Vec<u8>, message: &Message, given: Given) -> Result<(), AllocError>
    ensures { OnOk result (out.new.items ≡ out.old.items ++ body_of message.now given) }
{
    match given {
        Given::Funded(amount) => put_funds(out, message, amount),
        Given::Refused => put_refused(out),
        Given::Acked => put_acked(out),
    }
}

/// Adds the body that funds an ask. A note is acknowledged, since nothing is funded for it.
fn put_funds(out: &mut Vec<u8>, message: &Message, amount: u64) -> Result<(), AllocError>
    ensures { OnOk result (out.new.items ≡ out.old.items ++ body_of message.now (Funded amount)) }
{
    match message {
        Message::Ask {
            token,
            currency,
            ..
        } => put_funded(out, token, amount, *currency),
        Message::Note { .. } => put_acked(out),
    }
}

fn put_funded(
    out: &mut Vec<u8>,
    token: &Uuid,
    amount: u64,
    currency: Currency,
) -> Result<(), AllocError>
    ensures { OnOk result (out.new.items ≡ out.old.items ++ funded_line token.now amount currency) }
{
    out.extend_from_slice(b"{\"amount\":\"")?;
    put_amount_text(out, amount, currency)?;
    out.extend_from_slice(b"\",\"token\":\"")?;
    put_token(out, token)?;
    out.extend_from_slice(b"\"}\n")
}

fn put_token(out: &mut Vec<u8>, token: &Uuid) -> Result<(), AllocError>
    ensures { OnOk result (out.new.items ≡ out.old.items ++ hyphenated_text lower token.now) }
{
    let mut buffer = Uuid::encode_buffer();
    let text = token.hyphenated().encode_lower(&mut buffer);
    out.extend_from_slice(text.as_bytes())
}

#[tactic(auto, unfolding(crate::specs::Bodies::refused_line))]
fn put_refused(out: &mut Vec<u8>) -> Result<(), AllocError>
    ensures { OnOk result (out.new.items ≡ out.old.items ++ refused_line) }
{
    out.extend_from_slice(b"{\"reply\":\"refused\"}\n")
}

#[tactic(auto, unfolding(crate::specs::Bodies::acked_line))]
fn put_acked(out: &mut Vec<u8>) -> Result<(), AllocError>
    ensures { OnOk result (out.new.items ≡ out.old.items ++ acked_line) }
{
    out.extend_from_slice(b"{\"reply\":\"acked\"}\n")
}

/// The body that tells that a text is no message, with its line feed.
pub fn unread_body(alloc: Global) -> Result<Vec<u8>, AllocError>
    ensures { IfOk result (λ body. body.items ≡ unread_line) }
{
    let mut out = Vec::new(alloc);
    put_unread(&mut out)?;
    Ok(out)
}

#[tactic(auto, unfolding(crate::specs::Bodies::unread_line, iss_model::specs::texts::Wordings::fault_line))]
fn put_unread(out: &mut Vec<u8>) -> Result<(), AllocError>
    ensures { OnOk result (out.new.items ≡ out.old.items ++ unread_line) }
{
    out.extend_from_slice(b"{\"fault\":\"TEXT\",\"reply\":\"form\"}\n")
}
