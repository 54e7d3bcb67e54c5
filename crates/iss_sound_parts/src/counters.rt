//! The counters of a state.
ghost use Rattle.std.specs.Prelude.{◌≡◌, ◌↔◌, IsTrue};
ghost use Rattle.iss_states.specs.Rebuilding.{rebuilt};
ghost use Rattle.iss_known.specs.Known.{IsKnownOf};
ghost use Rattle.iss_sound_parts.specs.Totals.{IsOpenIn};
ghost use Rattle.iss_sound_parts.specs.Passing.{do_counters_pass};
ghost use Rattle.iss_sound_parts.specs.SoundCounters.{AreCountersSound};

use crate::groups::stand_in_groups;
use crate::limits::are_within;
use crate::totals::Open;
use iss_known::Known;
use iss_model::{Counter, State};

/// Whether a state's counters are sound: of known controls and users, in their order and once each,
/// no more than its records can have made, and between their bounds.
///
/// It takes what is known of the state's events, and what is open in it.
#[tactic(auto, using(crate::proofs::Passing::pass_is))]
pub fn are_counters_sound(state: &State, known: &Known, still_open: &Open) -> bool
    requires known { IsKnownOf known.now (rebuilt state.now) }
    requires counted { IsOpenIn still_open.now state.now }
    ensures { IsTrue result ↔ AreCountersSound state.entry.now }
{
    do_pass(&state.counters.0, state.records, known, still_open)
}

/// Whether counters pass, for this many records.
fn do_pass(counters: &[Counter], records: u32, known: &Known, still_open: &Open) -> bool
    ensures { result ≡ do_counters_pass known.now still_open.now records counters.now }
{
    // Each asked call and each live transaction may still make counters of a control.
    let made_later = u64::from(still_open.asked) + u64::from(still_open.live);
    let most = 3 * u64::from(records);
    made_later <= most
        && are_within(counters, records, still_open)
        && stand_in_groups(counters, known, most - made_later)
}
