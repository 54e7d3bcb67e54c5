//! Events, made again.
ghost use Rattle.std.specs.Prelude.{◌≡◌, true, IfOk, OnOk};
ghost use Rattle.std.specs.List.{list_all};
ghost use Rattle.iss_states.specs.Order.{AreInOrder, have_tokens_of_their_own, is_event_record};
ghost use Rattle.iss_states.specs.Rebuilding.{rebuilt};
ghost use Rattle.iss_restored_lists.specs.Events.{IsNewAmong, events_of_core, events_of_seen, with_event_seen};

use iss_accepted::Events;
use iss_model::{Seen, State};
use std::alloc::{AllocError, Global};

/// The events of a state, each with its input and how it is decided, as a core has them that is made again from the state.
#[tactic(auto, using(crate::proofs::EventsAgain::events_again))]
pub fn events_again(alloc: Global, state: &State) -> Result<Events, AllocError>
    requires order { AreInOrder state.now }
    ensures { IfOk result (λ events. events ≡ events_of_core (rebuilt state.entry.now)) }
{
    take_up_all(alloc, &state.events.0)
}

/// Events in the order of their records, no two of one token.
fn take_up_all(alloc: Global, events: &[Seen]) -> Result<Events, AllocError>
    requires forms { list_all is_event_record events.now ≡ true }
    requires tokens { have_tokens_of_their_own events.now ≡ true }
    ensures { IfOk result (λ accepted. accepted ≡ events_of_seen events.now) }
{
    let mut accepted = Events::with_room(alloc, events.len())?;
    for event in events {
        take_up(event, &mut accepted)?;
    }
    Ok(accepted)
}

/// Takes up an event of a new token, with its verdict if it has one.
fn take_up(event: &Seen, accepted: &mut Events) -> Result<(), AllocError>
    requires form { is_event_record event.now ≡ true }
    requires new { IsNewAmong accepted.old event.now }
    ensures { OnOk result (accepted.new ≡ with_event_seen accepted.old event.now) }
{
    let input = &event.body.input;
    accepted.add(event.number, event.body.at, input)?;
    let Some(verdict) = event.verdict else {
        return Ok(());
    };
    let Some(token) = input.event() else {
        return Ok(());
    };
    accepted.decide(&token, verdict)
}
