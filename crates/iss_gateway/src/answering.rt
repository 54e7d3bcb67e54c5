//! What the gateway answers to a body.
ghost use Rattle.std.specs.Prelude.{◌≡◌, ◌≤◌, ◌<◌, ◌+◌, IsTrue, IfOk, OnOk};
ghost use Rattle.iss_gateway.specs.declared.books.TheConstants.{MOST_HEARD};
ghost use Rattle.iss_gateway.specs.Answering.{after_body, status_for, body_for};
ghost use Rattle.iss_gateway.specs.Bodies.{body_of};
ghost use Rattle.iss_gateway.specs.Books.{count_of};
ghost use Rattle.iss_gateway.specs.Messages.{is_within, status_of};
ghost use Rattle.iss_gateway.specs.Rules.{after_hearing, given_for};

use crate::{Gateway, Message, body, read_text, unread_body};
use std::alloc::{AllocError, Global};

/// The HTTP status that tells that a text is no message.
const BAD_REQUEST: u16 = 400;

/// An answer over HTTP: its status, and its body with a line feed.
#[derive(Drop)]
pub struct Reply {
    pub status: u16,
    pub body: Vec<u8>,
}

/// Answers a body with what the gateway gives for the message that it is. A body that is no message gets
/// status 400 and changes nothing.
///
/// If an allocation fails, the message may have been heard.
pub fn answer(gateway: &mut Gateway, alloc: Global, text: &[u8]) -> Result<Reply, AllocError>
    requires room { count_of gateway.old.books < MOST_HEARD }
    ensures after { OnOk result (gateway.new ≡ after_body gateway.old text.now) }
    ensures status { IfOk result (λ reply. reply.status ≡ status_for gateway.old text.now) }
    ensures told { IfOk result (λ reply. reply.body.items ≡ body_for gateway.old text.now) }
    ensures few { OnOk result (count_of gateway.new.books ≤ count_of gateway.old.books + 1) }
{
    match read_text(alloc, text) {
        Ok(Some(message)) => answer_message(gateway, alloc, &message),
        Ok(None) => Ok(Reply {
            status: BAD_REQUEST,
            body: unread_body(alloc)?,
        }),
        Err(_) => Err(AllocError),
    }
}

/// Answers a message with what the gateway gives for it.
fn answer_message(
    gateway: &mut Gateway,
    alloc: Global,
    message: &Message,
) -> Result<Reply, AllocError>
    requires room { count_of gateway.old.books < MOST_HEARD }
    requires within { IsTrue (is_within message.now) }
    ensures after { OnOk result (gateway.new ≡ after_hearing gateway.old message.now) }
    ensures status { IfOk result (λ reply. reply.status ≡ status_of (given_for gateway.old message.now)) }
    ensures told { IfOk result (λ reply. reply.body.items ≡ body_of message.now (given_for gateway.old message.now)) }
    ensures few { OnOk result (count_of gateway.new.books ≤ count_of gateway.old.books + 1) }
{
    let given = gateway.hear(message)?;
    Ok(Reply {
        status: given.status(),
        body: body(alloc, message, given)?,
    })
}
