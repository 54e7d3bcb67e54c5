//! Whether increments come in turn.
ghost use Rattle.std.specs.Prelude.{◌≡◌, nat_lt};
ghost use Rattle.iss_model.specs.rules.Activity.{txn_named};
ghost use Rattle.iss_model.specs.rules.Reasons.{is_some_with};
ghost use Rattle.iss_reasoned.specs.Origins.{was_approved};
ghost use Rattle.iss_sound_parts.specs.Asking.{IsAskedOf};
ghost use Rattle.iss_sound_parts.specs.Verdicts.{is_in_turn, is_in_turn_if_taken};

use crate::asked::Asked;
use iss_known::Known;
use iss_model::{Input, Seen, Token, Verdict};

/// Whether an event that is approved or has a mark is in turn.
pub(crate) fn is_in_turn_if_taken(event: &Seen, known: &Known, asked: &Asked) -> bool
    requires { IsAskedOf known.now.calls asked.now }
    ensures { result ≡ is_in_turn_if_taken known.now.txns known.now.calls event.now }
{
    !(was_approved(event.verdict) || event.mark.is_some())
        || is_in_turn(event.number, &event.body.input, known, asked)
}

fn was_approved(verdict: Option<Verdict>) -> bool
    ensures { result ≡ was_approved verdict }
{
    matches!(verdict, Some(Verdict::Approved | Verdict::Partial(_, _)))
}

/// Whether an increment's transaction began before this number, while its authorisation isn't asked.
fn is_in_turn(number: u32, input: &Input, known: &Known, asked: &Asked) -> bool
    requires { IsAskedOf known.now.calls asked.now }
    ensures { result ≡ is_in_turn known.now.txns known.now.calls number input.now }
{
    match input {
        Input::Increment { txn, .. } => {
            began_before(number, txn, known) && !asked.has_authorization(txn)
        }
        _ => true,
    }
}

fn began_before(number: u32, txn: &Token, known: &Known) -> bool
    ensures { result ≡ is_some_with (λ t. nat_lt t.txn.origin number) (txn_named txn.now known.now.txns) }
{
    match known.txn(txn) {
        None => false,
        Some(begun) => begun.txn.origin < number,
    }
}
