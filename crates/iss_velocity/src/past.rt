//! What was counted in spans that have passed.
ghost use Rattle.std.specs.Prelude.{◌≡◌, true, OnOk, OnErr};
ghost use Rattle.iss_velocity.specs.Counting.{past_at};
ghost use Rattle.iss_velocity.specs.Keeping.{has_no_zero, IsKeptPast};
ghost use Rattle.iss_velocity.specs.Showing.{IsPut};

use iss_model::{Token, Used};
use std::alloc::AllocError;
use std::collections::BTreeMap;

/// What was counted in each span but the last that was noted, by user, place of the control and number of the span.
pub(crate) type Past = BTreeMap<(Token, (usize, i64)), Used>;

/// What was counted in a span that isn't the last one.
pub(crate) fn past_used(past: &Past, user: &Token, place: usize, number: i64) -> Option<Used>
    ensures { result ≡ past_at past.now user.now place number }
{
    past.get(&(*user, (place, number))).copied()
}

/// Puts what was counted in a span.
#[tactic(auto, using(crate::proofs::KeyOrder::token_plain))]
pub(crate) fn put_past(
    past: &mut Past,
    user: &Token,
    place: usize,
    number: i64,
    used: Used,
) -> Result<(), AllocError>
    ensures put { OnOk result (IsPut user.now place number used past.old past.new) }
    ensures same { OnErr result (IsKeptPast past.old past.new) }
    ensures name { has_no_zero user.now ≡ true }
{
    // A name has no byte 0, so a key tells where it ends.
    let _name = user.text();
    past.insert((*user, (place, number)), used)?;
    Ok(())
}
