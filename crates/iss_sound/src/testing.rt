//! The test of a state.
ghost use Rattle.std.specs.Prelude.{◌↔◌, IfOk, IfSome, IsSome, IsTrue};
ghost use Rattle.iss_states.specs.Rebuilding.{rebuilt};
ghost use Rattle.iss_known.specs.Known.{IsKnownOf, IsReadAgain};
ghost use Rattle.iss_sound_events.specs.Alone.{AreSoundAlone};
ghost use Rattle.iss_sound_events.specs.Done.{HasSumsDone};
ghost use Rattle.iss_sound_parts.specs.Totals.{IsOpenIn};
ghost use Rattle.iss_sound.specs.Parts.{AreListsSound, IsSoundBeside, IsSoundInParts};
ghost use Rattle.iss_sound.specs.Sound.{IsSoundButSettings};

use iss_known::Known;
use iss_model::State;
use iss_sound_balances::are_balances_sound;
use iss_sound_events::{are_events_sound, are_sums_done};
use iss_sound_parts::{
    Asked, Open, are_counters_sound, are_notices_sound, are_stand_ins_sound, are_txns_sound,
    are_verdicts_sound, open_in,
};
use std::alloc::{AllocError, Global};

/// Whether a state is sound, but for its settings: all rules of a sound state but that each setting and each load is decided as those before
/// it have it. What is done is taken up whatever that rule says, the first thing of a name standing.
pub fn sound(alloc: Global, state: &State) -> Result<bool, AllocError>
    ensures { IfOk result (λ sound. IsTrue sound ↔ IsSoundButSettings state.entry.now) }
{
    let known = known_if_sound(alloc, state)?;
    Ok(known.is_some())
}

/// What the events of a state make known, if the state is sound, but for its settings. `None` exactly if it isn't.
pub fn known_if_sound(alloc: Global, state: &State) -> Result<Option<Known>, AllocError>
    ensures sound { IfOk result (λ known. IsSome known ↔ IsSoundButSettings state.entry.now) }
    ensures known { IfOk result (λ known. IfSome known (λ k. IsKnownOf k (rebuilt state.entry.now))) }
{
    known_in_parts(alloc, state)
}

/// What is known of a state, if its events are sound alone, and all is sound beside them.
fn known_in_parts(alloc: Global, state: &State) -> Result<Option<Known>, AllocError>
    ensures sound { IfOk result (λ known. IsSome known ↔ IsSoundInParts state.entry.now) }
    ensures known { IfOk result (λ known. IfSome known (λ k. IsKnownOf k (rebuilt state.entry.now))) }
{
    if !are_events_sound(alloc, state)? {
        return Ok(None);
    }
    if !are_sums_done(alloc, state)? {
        return Ok(None);
    }
    match Known::of(alloc, state)? {
        None => Ok(None),
        Some(known) => known_beside(alloc, state, known),
    }
}

/// What is known of the events, if all is sound beside it.
fn known_beside(alloc: Global, state: &State, known: Known) -> Result<Option<Known>, AllocError>
    requires alone { AreSoundAlone state.now }
    requires done { HasSumsDone state.now }
    requires again { IsReadAgain state.now }
    requires known { IsKnownOf known (rebuilt state.now) }
    ensures sound { IfOk result (λ k. IsSome k ↔ IsSoundBeside state.entry.now) }
    ensures known { IfOk result (λ k. IfSome k (λ x. IsKnownOf x (rebuilt state.entry.now))) }
{
    if !is_sound_beside(alloc, state, &known)? {
        return Ok(None);
    }
    Ok(Some(known))
}

/// Whether transactions, verdicts and sums are sound beside what is known of the events.
fn is_sound_beside(alloc: Global, state: &State, known: &Known) -> Result<bool, AllocError>
    requires alone { AreSoundAlone state.now }
    requires done { HasSumsDone state.now }
    requires again { IsReadAgain state.now }
    requires known { IsKnownOf known.now (rebuilt state.now) }
    ensures { IfOk result (λ sound. IsTrue sound ↔ IsSoundBeside state.entry.now) }
{
    let asked = Asked::of(alloc, known)?;
    if !are_txns_sound(state, known, &asked) {
        return Ok(false);
    }
    if !are_verdicts_sound(state, known, &asked) {
        return Ok(false);
    }
    match open_in(state, known) {
        None => Ok(false),
        Some(still_open) => are_lists_sound(alloc, state, known, &still_open),
    }
}

/// Whether the counters, stand-ins, notices and balances of a state are sound.
fn are_lists_sound(
    alloc: Global,
    state: &State,
    known: &Known,
    still_open: &Open,
) -> Result<bool, AllocError>
    requires alone { AreSoundAlone state.now }
    requires done { HasSumsDone state.now }
    requires again { IsReadAgain state.now }
    requires known { IsKnownOf known.now (rebuilt state.now) }
    requires counted { IsOpenIn still_open.now state.now }
    ensures { IfOk result (λ sound. IsTrue sound ↔ AreListsSound state.entry.now) }
{
    if !are_counters_sound(state, known, still_open) {
        return Ok(false);
    }
    if !are_stand_ins_sound(state, known, still_open) {
        return Ok(false);
    }
    if !are_notices_sound(state, known, still_open) {
        return Ok(false);
    }
    are_balances_sound(alloc, state, known, still_open.asked, still_open.live)
}
