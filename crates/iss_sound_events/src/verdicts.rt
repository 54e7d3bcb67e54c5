//! What the verdict and the mark of an event may be.
ghost use Rattle.std.specs.Prelude.{◌≡◌};
ghost use Rattle.iss_states.specs.Showing.{is_asked_mark};
ghost use Rattle.iss_well_formed.specs.Events.{is_ask, is_marked_well, is_pending_if_asked};
ghost use Rattle.iss_decided.specs.Verdicts.{do_parts_agree, is_decided_by_kind, permits_this_part};
ghost use Rattle.iss_least.specs.Least.{is_of_least};

use iss_model::limits::LEAST_AMOUNT;
use iss_model::{CallState, Currency, Failure, How, Input, Seen, Verdict};

/// Whether an event is pending exactly if its call is asked.
pub(crate) fn is_pending_if_asked(event: &Seen) -> bool
    ensures { result ≡ is_pending_if_asked event.now }
{
    if event.verdict.is_none() {
        is_asked_mark(event.mark)
    } else {
        !is_asked_mark(event.mark)
    }
}

fn is_asked_mark(mark: Option<CallState>) -> bool
    ensures { result ≡ is_asked_mark mark }
{
    matches!(mark, Some(CallState::Asked))
}

/// Whether the mark of an event is one that may stand.
pub(crate) fn is_marked_well(event: &Seen) -> bool
    ensures { result ≡ is_marked_well event.now }
{
    !matches!(
        event.mark,
        Some(CallState::Unknown | CallState::Closed(How::Failed(Failure::Switch)))
    )
}

/// Whether the verdict of an event is one that its kind may have.
pub(crate) fn is_decided_by_kind(event: &Seen) -> bool
    ensures { result ≡ is_decided_by_kind event.now }
{
    match event.verdict {
        Some(Verdict::Approved | Verdict::Partial(..)) => is_ask(&event.body.input),
        Some(Verdict::Done) => !is_ask(&event.body.input),
        Some(Verdict::Declined(_)) | None => true,
    }
}

fn is_ask(input: &Input) -> bool
    ensures { result ≡ is_ask input.now }
{
    matches!(input, Input::Authorization { .. } | Input::Increment { .. })
}

/// Whether the parts in the verdict and in the mark of an event agree.
pub(crate) fn do_parts_agree(event: &Seen) -> bool
    ensures { result ≡ do_parts_agree event.now }
{
    match (event.verdict, event.mark) {
        (Some(Verdict::Partial(currency, amount)), Some(CallState::Closed(How::Partial(part)))) =>
            amount == part && permits_this_part(&event.body.input, currency, amount),
        (Some(Verdict::Partial(..)), _) => false,
        (_, Some(CallState::Closed(How::Partial(_)))) => false,
        _ => true,
    }
}

/// Whether a part that an event is approved for is at least the least amount.
pub(crate) fn is_of_least(verdict: Option<Verdict>) -> bool
    ensures { result ≡ is_of_least verdict }
{
    match verdict {
        Some(Verdict::Partial(_, amount)) => LEAST_AMOUNT <= amount,
        Some(Verdict::Done | Verdict::Approved | Verdict::Declined(_)) | None => true,
    }
}

/// Whether an event permits this part: an authorisation that permits one, in this currency and of a greater amount.
fn permits_this_part(input: &Input, in_currency: Currency, part: u64) -> bool
    ensures { result ≡ permits_this_part input.now in_currency part }
{
    match input {
        Input::Authorization {
            currency,
            amount,
            partial,
            ..
        } => *partial && in_currency == *currency && part < *amount,
        _ => false,
    }
}
