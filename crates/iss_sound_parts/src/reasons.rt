//! Why events were declined.
ghost use Rattle.std.specs.Prelude.{◌≡◌};
ghost use Rattle.iss_reasoned.specs.Reasons.{is_move};
ghost use Rattle.iss_sound_parts.specs.Verdicts.{declines_well, may_have_reason};

use iss_known::Known;
use iss_model::{Input, Reason, Seen, Verdict};

/// Whether an event is declined only for a reason that it may have.
pub(crate) fn declines_well(event: &Seen, known: &Known) -> bool
    ensures { result ≡ declines_well known.now event.now.body.input event.now.verdict }
{
    match event.verdict {
        Some(Verdict::Declined(why)) => may_have_reason(&event.body.input, why, known),
        _ => true,
    }
}

/// Whether an input may have this reason: only a move may be refused as one, and a control or set that it names has to be known.
fn may_have_reason(input: &Input, why: Reason, known: &Known) -> bool
    ensures { result ≡ may_have_reason known.now input.now why }
{
    match why {
        Reason::MoveCard(_, _) | Reason::MoveUser(_, _) => is_move(input),
        Reason::Control(name) => known.window_of(&name).is_some(),
        Reason::StandInLimit(name) => known.has_set(&name),
        _ => true,
    }
}

fn is_move(input: &Input) -> bool
    ensures { result ≡ is_move input.now }
{
    matches!(input, Input::Move { .. })
}
