//! Whether the events of a state are sound alone.
ghost use Rattle.std.specs.Prelude.{◌≡◌, ◌↔◌, IsTrue, IfOk};
ghost use Rattle.std.specs.List.{list_all};
ghost use Rattle.iss_sound_events.specs.Alone.{AreSoundAlone, are_sound_alone, is_sound_seen};

use crate::order::are_in_order;
use crate::verdicts::{
    do_parts_agree, is_decided_by_kind, is_marked_well, is_of_least, is_pending_if_asked,
};
use iss_model::{Seen, State};
use std::alloc::{AllocError, Global};

/// Whether the events of a state are in order, with verdicts and marks that may stand on them.
#[tactic(auto, using(crate::proofs::SoundAlone::sound_alone))]
pub fn are_events_sound(alloc: Global, state: &State) -> Result<bool, AllocError>
    ensures { IfOk result (λ sound. IsTrue sound ↔ AreSoundAlone state.entry.now) }
{
    are_sound_alone(alloc, state)
}

fn are_sound_alone(alloc: Global, state: &State) -> Result<bool, AllocError>
    ensures { IfOk result (λ sound. sound ≡ are_sound_alone state.entry.now) }
{
    if !are_sound_seen(&state.events.0) {
        return Ok(false);
    }
    are_in_order(alloc, state)
}

fn are_sound_seen(events: &[Seen]) -> bool
    ensures { result ≡ list_all is_sound_seen events.now }
{
    events.iter().all(is_sound_seen)
}

/// Whether the verdict and the mark of an event may stand on it and go together.
fn is_sound_seen(event: &Seen) -> bool
    ensures { result ≡ is_sound_seen event.now }
{
    is_pending_if_asked(event)
        && is_marked_well(event)
        && is_decided_by_kind(event)
        && do_parts_agree(event)
        && is_of_least(event.verdict)
}
