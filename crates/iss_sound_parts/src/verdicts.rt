//! The verdicts of a state's events.
ghost use Rattle.std.specs.Prelude.{◌≡◌, ◌↔◌, IsTrue};
ghost use Rattle.std.specs.List.{list_all};
ghost use Rattle.iss_states.specs.Order.{AreInOrder};
ghost use Rattle.iss_states.specs.Rebuilding.{rebuilt};
ghost use Rattle.iss_known.specs.Known.{IsKnownOf, IsReadAgain};
ghost use Rattle.iss_sound_parts.specs.Asking.{IsAskedOf};
ghost use Rattle.iss_sound_parts.specs.SoundVerdicts.{AreVerdictsSound};
ghost use Rattle.iss_sound_parts.specs.Verdicts.{are_verdicts_well, is_decided_well, is_in_its_currency};

use crate::asked::Asked;
use crate::belonging::{is_marked_in_its_txn, takes_effect_in_its_txn};
use crate::reasons::declines_well;
use crate::turns::is_in_turn_if_taken;
use iss_known::{Known, TxnKnown};
use iss_model::{Input, Seen, State};

/// Whether the verdicts and marks of a state's events go with its transactions: what takes effect or has a mark is of a listed transaction,
/// declines have reasons that they may have, and increments come in turn. Each transaction has to be in the currency of its product. It
/// takes what is known of the events, and which calls are asked.
#[tactic(auto, using(crate::proofs::WellDecided::well_is_sound))]
pub fn are_verdicts_sound(state: &State, known: &Known, asked: &Asked) -> bool
    requires order { AreInOrder state.now }
    requires again { IsReadAgain state.now }
    requires known { IsKnownOf known.now (rebuilt state.now) }
    requires asked { IsAskedOf known.now.calls asked.now }
    ensures { IsTrue result ↔ AreVerdictsSound state.entry.now }
{
    are_verdicts_well(&state.events.0, known, asked)
}

fn are_verdicts_well(events: &[Seen], known: &Known, asked: &Asked) -> bool
    requires { IsAskedOf known.now.calls asked.now }
    ensures { result ≡ are_verdicts_well known.now events.now }
{
    are_decided_well(events, known, asked) && are_in_their_currencies(known.txns(), known)
}

fn are_decided_well(events: &[Seen], known: &Known, asked: &Asked) -> bool
    requires { IsAskedOf known.now.calls asked.now }
    ensures { result ≡ list_all (is_decided_well known.now) events.now }
{
    let mut near = 0_usize;
    for event in events {
        if !is_decided_well(event, near, known, asked) {
            return false;
        }
        near = near_after(near, event);
    }
    true
}

/// Where the transaction of the next authorisation is likely to stand, after this event.
fn near_after(near: usize, event: &Seen) -> usize {
    match &event.body.input {
        Input::Authorization { .. } => near.saturating_add(1),
        _ => near,
    }
}

fn is_decided_well(event: &Seen, near: usize, known: &Known, asked: &Asked) -> bool
    requires { IsAskedOf known.now.calls asked.now }
    ensures { result ≡ is_decided_well known.now event.now }
{
    takes_effect_in_its_txn(event, near, known)
        && is_marked_in_its_txn(event, known)
        && declines_well(event, known)
        && is_in_turn_if_taken(event, known, asked)
}

fn are_in_their_currencies(txns: &[TxnKnown], known: &Known) -> bool
    ensures { result ≡ list_all (is_in_its_currency known.now.products) txns.now }
{
    txns.iter().all(|begun| is_in_its_currency(begun, known))
}

/// Whether a transaction is in the currency of its product.
fn is_in_its_currency(begun: &TxnKnown, known: &Known) -> bool
    ensures { result ≡ is_in_its_currency known.now.products begun.now }
{
    match known.product(&begun.txn.product) {
        None => false,
        Some(product) => product.currency == begun.txn.currency,
    }
}
