//! What a client's bytes come to.
ghost use Rattle.std.specs.Prelude.{◌≡◌, ◌<◌, ◌≤◌, ◌+◌, true, option_map, IfOk, OnOk};
ghost use Rattle.iss_session.specs.Hearings.{is_reading};
ghost use Rattle.iss_attend.specs.Attendances.{manner_of};
ghost use Rattle.iss_attend.specs.Reading.{ReadsOn};

use crate::AnswersBodies;
use iss_clients::{Clients, fault_response};
use iss_edge::Channel;
use iss_http::{FeedFault, JitReader};
use std::alloc::{AllocError, Global};

/// Reads on in a client's request, and returns the response to it once it is whole or has a fault. `None` if more of it is to come.
pub(crate) fn read<A: AnswersBodies>(
    clients: &mut Clients<JitReader>,
    answers: &mut A,
    alloc: Global,
    ch: Channel,
    piece: &[u8],
) -> Result<Option<Vec<u8>>, AllocError>
    requires reading { is_reading ch clients.old ≡ true }
    requires room { 0 < A.room answers.old }
    ensures reads { IfOk result (λ said.
        ReadsOn (manner_of A.after A.response) ch piece.now clients.old clients.new answers.old answers.new (option_map (λ text. text.items) said)) }
    ensures room { OnOk result (A.room answers.old ≤ A.room answers.new + 1) }
{
    match clients.feed(alloc, ch, piece) {
        Ok(None) => Ok(None),
        Ok(Some(body)) => {
            clients.remove(ch);
            Ok(Some(answers.answer(alloc, &body)?))
        }
        Err(FeedFault::Http(fault)) => {
            clients.remove(ch);
            Ok(Some(fault_response(alloc, fault)?))
        }
        Err(FeedFault::OutOfMemory) => Err(AllocError),
    }
}
