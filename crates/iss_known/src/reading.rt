//! One pass over the events of a state.
ghost use Rattle.std.specs.Prelude.{◌≡◌, true, IfOk, option_map};
ghost use Rattle.std.specs.List.{list_all};
ghost use Rattle.iss_states.specs.Order.{have_tokens_of_their_own, is_event_record};
ghost use Rattle.iss_known.specs.Reading.{known_in, known_in_turn, nothing_known, read_by};

use crate::parts::Parts;
use iss_model::{Carried, Seen};
use std::alloc::{AllocError, Global};

/// What events make known, if each mark is that of a call, and the transactions that they begin are the listed ones.
pub(crate) fn read_again(
    alloc: Global,
    events: &[Seen],
    txns: &[Carried],
) -> Result<Option<Parts>, AllocError>
    requires records { list_all is_event_record events.now ≡ true }
    requires tokens { have_tokens_of_their_own events.now ≡ true }
    ensures { IfOk result (λ parts. option_map known_in parts ≡ read_by events.now txns.now) }
{
    let Some(parts) = read_all(alloc, txns, events)? else {
        return Ok(None);
    };
    if !parts.txns.are_listed(txns) {
        return Ok(None);
    }
    Ok(Some(parts))
}

/// What events make known, if each mark is that of a call. A transaction begins if it is the next listed one.
fn read_all(alloc: Global, txns: &[Carried], events: &[Seen]) -> Result<Option<Parts>, AllocError>
    requires records { list_all is_event_record events.now ≡ true }
    requires tokens { have_tokens_of_their_own events.now ≡ true }
    ensures { IfOk result (λ parts. option_map known_in parts ≡ known_in_turn txns.now nothing_known events.now) }
{
    let mut parts = Parts::new(alloc, txns.len())?;
    for seen in events {
        let place = parts.begun();
        if !parts.take_up(txns, place, seen)? {
            return Ok(None);
        }
    }
    Ok(Some(parts))
}
