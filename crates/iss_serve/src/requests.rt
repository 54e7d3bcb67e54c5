//! What a client's bytes come to.
ghost use Rattle.std.specs.Prelude.{◌≡◌, true, IfOk};
ghost use Rattle.iss_event.specs.declared.line.Mode.TheVariants.{Client};
ghost use Rattle.iss_event.specs.Readings.{line_read};
ghost use Rattle.iss_session.specs.Hearings.{is_reading};
ghost use Rattle.iss_session_examples.specs.Program.{line_as};
ghost use Rattle.iss_serve.specs.Requests.{ReadsOn, SaysLine, IsRequestInForm};

use crate::telling::form_response;
use iss_clients::{Clients, fault_response};
use iss_edge::Channel;
use iss_event::{LineFault, Mode, Scratch, read_line_in};
use iss_http::{FeedFault, RequestReader};
use iss_model::Input;
use std::alloc::{AllocError, Global};

/// What a client's bytes come to.
#[derive(Drop)]
pub(crate) enum Request {
    /// They aren't a whole request yet.
    More,
    /// The line of the request says this input.
    Says(Input),
    /// They have a fault, or their line has, which this response tells.
    Bad(Vec<u8>),
}

/// Reads on in a client's request. Unless more of it is to come, nothing more is read on its channel.
pub(crate) fn read_request(
    clients: &mut Clients<RequestReader>,
    alloc: Global,
    scratch: &mut Scratch,
    ch: Channel,
    piece: &[u8],
) -> Result<Request, AllocError>
    requires reading { is_reading ch clients.old ≡ true }
    ensures reads { IfOk result (ReadsOn ch piece.now clients.old clients.new) }
    ensures forms { IfOk result IsRequestInForm }
{
    match clients.feed(alloc, ch, piece) {
        Ok(None) => Ok(Request::More),
        Ok(Some(body)) => {
            clients.remove(ch);
            read_body(alloc, scratch, &body)
        }
        Err(FeedFault::Http(fault)) => {
            clients.remove(ch);
            Ok(Request::Bad(fault_response(alloc, fault)?))
        }
        Err(FeedFault::OutOfMemory) => Err(AllocError),
    }
}

/// What the body of a request says, read over a scratch that is kept from one request to the next.
fn read_body(alloc: Global, scratch: &mut Scratch, body: &[u8]) -> Result<Request, AllocError>
    ensures says { IfOk result (SaysLine (line_as (line_read Client body.now))) }
    ensures forms { IfOk result IsRequestInForm }
{
    match read_line_in(scratch, alloc, body, Mode::Client) {
        Ok(line) => Ok(Request::Says(line.input)),
        Err(LineFault::Form(fault)) => Ok(Request::Bad(form_response(alloc, &fault)?)),
        Err(LineFault::OutOfMemory) => Err(AllocError),
    }
}
