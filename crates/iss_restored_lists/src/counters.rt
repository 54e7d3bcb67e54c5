//! What the controls have counted, made again.
ghost use Rattle.std.specs.Prelude.{◌≡◌, true, map, OnOk};
ghost use Rattle.iss_states.specs.Rebuilding.{events_again, rebuilt, span_number, with_counters};
ghost use Rattle.iss_named.specs.Kept.{AreNamesKnown};
ghost use Rattle.iss_known.specs.Known.{IsKnownOf};
ghost use Rattle.iss_velocity.specs.Puts.{kept_named};
ghost use Rattle.iss_restored_lists.specs.Counters.{AreRestorable, kept_after, may_take};

use iss_known::Known;
use iss_model::{Counter, Span, State};
use iss_velocity::Controls;
use std::alloc::AllocError;

/// Takes up what the controls have counted, as a core has it that is made again from the state. The controls are those that
/// the state's events make. It takes what is known of these events.
#[tactic(auto, using(crate::proofs::CountersAgain::restorable, crate::proofs::CountersAgain::restored_again))]
pub fn counters_again(
    state: &State,
    known: &Known,
    controls: &mut Controls,
) -> Result<(), AllocError>
    requires names { AreNamesKnown state.now }
    requires known { IsKnownOf known.now (rebuilt state.now) }
    requires made { controls.old ≡ (events_again state.now).controls }
    ensures { OnOk result (controls.new ≡ (rebuilt state.entry.now).controls) }
{
    restore_all(&state.counters.0, known, controls)
}

/// Takes up counters of controls that have counted nothing.
fn restore_all(
    counters: &[Counter],
    known: &Known,
    controls: &mut Controls,
) -> Result<(), AllocError>
    requires { AreRestorable known.now.txns counters.now controls.old }
    ensures { OnOk result (controls.new ≡ map (with_counters known.now.txns counters.now) controls.old) }
{
    for counter in counters {
        restore(counter, known, controls)?;
    }
    Ok(())
}

/// Takes up a counter of a control that has none of its user and span.
fn restore(counter: &Counter, known: &Known, controls: &mut Controls) -> Result<(), AllocError>
    requires { may_take known.now.txns counter.now (kept_named counter.now.control controls.old) ≡ true }
    ensures { OnOk result (controls.new ≡ map (kept_after known.now.txns counter.now) controls.old) }
{
    let number = span_number(&counter.span, known);
    controls.restore(&counter.control, &counter.user, number, counter.used)
}

/// The number of a span, which of a single transaction is that of its first record.
fn span_number(span: &Span, known: &Known) -> i64
    ensures { result ≡ span_number known.now.txns span.now }
{
    match span {
        Span::Number(number) => *number,
        Span::Txn(token) => match known.txn(token) {
            Some(begun) => i64::from(begun.txn.origin),
            None => 0,
        },
    }
}
