//! The transactions that events are of.
ghost use Rattle.std.specs.Prelude.{◌≡◌};
ghost use Rattle.iss_decided.specs.Verdicts.{is_listed_in, is_marked_in_its_txn, is_of_its_txn, is_paid_by_gateway_in, may_be_marked, takes_effect, takes_effect_in_its_txn};

use iss_known::Known;
use iss_model::{Currency, Funding, Input, Seen, Token, Verdict};

/// Whether a card event that takes effect is of a listed transaction and in its currency.
///
/// An authorisation's transaction is likely to stand at this place.
pub(crate) fn takes_effect_in_its_txn(event: &Seen, near: usize, known: &Known) -> bool
    ensures { result ≡ takes_effect_in_its_txn known.now.txns event.now }
{
    !takes_effect(event.verdict) || is_of_its_txn(&event.body.input, near, known)
}

fn takes_effect(verdict: Option<Verdict>) -> bool
    ensures { result ≡ takes_effect verdict }
{
    matches!(
        verdict,
        Some(Verdict::Approved | Verdict::Partial(_, _) | Verdict::Done)
    )
}

fn is_of_its_txn(input: &Input, near: usize, known: &Known) -> bool
    ensures { result ≡ is_of_its_txn known.now.txns input.now }
{
    match input {
        Input::Authorization {
            token,
            currency,
            ..
        } => is_listed_in(token, near, *currency, known),
        Input::Increment { txn, currency, .. }
        | Input::Reversal { txn, currency, .. }
        | Input::Clearing { txn, currency, .. }
        | Input::Refund { txn, currency, .. } => is_listed_in(txn, near, *currency, known),
        _ => true,
    }
}

fn is_listed_in(txn: &Token, near: usize, currency: Currency, known: &Known) -> bool
    ensures { result ≡ is_listed_in known.now.txns txn.now currency }
{
    match known.txn_near(txn, near) {
        None => false,
        Some(begun) => begun.txn.currency == currency,
    }
}

/// Whether an event has no mark, or may have one.
pub(crate) fn is_marked_in_its_txn(event: &Seen, known: &Known) -> bool
    ensures { result ≡ is_marked_in_its_txn known.now.txns event.now }
{
    event.mark.is_none() || may_be_marked(&event.body.input, known)
}

/// Whether an event asks for an amount of a listed transaction that the gateway pays, in its currency.
fn may_be_marked(input: &Input, known: &Known) -> bool
    ensures { result ≡ may_be_marked known.now.txns input.now }
{
    match input {
        Input::Authorization {
            token,
            currency,
            ..
        } => is_paid_by_gateway_in(token, *currency, known),
        Input::Increment { txn, currency, .. } => is_paid_by_gateway_in(txn, *currency, known),
        _ => false,
    }
}

fn is_paid_by_gateway_in(txn: &Token, currency: Currency, known: &Known) -> bool
    ensures { result ≡ is_paid_by_gateway_in known.now.txns txn.now currency }
{
    match known.txn(txn) {
        None => false,
        Some(begun) => begun.txn.funding == Funding::Gateway && begun.txn.currency == currency,
    }
}
