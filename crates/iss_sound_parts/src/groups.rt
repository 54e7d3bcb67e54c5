//! The counters of each control.
ghost use Rattle.std.specs.Prelude.{◌≡◌};
ghost use Rattle.std.specs.List.{list_all};
ghost use Rattle.std.specs.Str.{bytes_eq};
ghost use Rattle.iss_model.specs.rules.Activity.{txn_named};
ghost use Rattle.iss_model.specs.rules.Reasons.{is_some_with};
ghost use Rattle.iss_named.specs.Counters.{is_span_of, is_transaction_window};
ghost use Rattle.iss_sound_parts.specs.Groups.{is_group_sound, is_known_counter, number_first, stand_in_groups};

use crate::places::do_follow;
use iss_known::{ControlKnown, Known};
use iss_model::{Counter, Span, Token, Window};

/// Whether counters stand in groups, one for each control and in the order of the controls, and
/// each group is sound. Then it has no more than this many counters, each of a known user and with
/// a span of the control's window, in their order.
pub(crate) fn stand_in_groups(counters: &[Counter], known: &Known, most: u64) -> bool
    ensures { result ≡ stand_in_groups (is_group_sound known.now most) known.now.controls counters.now }
{
    let mut left = counters;
    for control in known.controls() {
        let (own, others) = left.split_at(number_first(left, &control.name));
        if !is_group_sound(own, control, known, most) {
            return false;
        }
        left = others;
    }
    left.is_empty()
}

/// How many counters at the front are of the control of that name.
fn number_first(counters: &[Counter], name: &Token) -> usize
    ensures { result ≡ number_first name.now counters.now }
{
    counters
        .iter()
        .take_while(|counter| counter.control == *name)
        .count()
}

fn is_group_sound(counters: &[Counter], control: &ControlKnown, known: &Known, most: u64) -> bool
    ensures { result ≡ is_group_sound known.now most control.now counters.now }
{
    counters.len() as u64 <= most
        && are_known(counters, control.window, known)
        && do_follow(counters, known)
}

fn are_known(counters: &[Counter], window: Window, known: &Known) -> bool
    ensures { result ≡ list_all (is_known_counter known.now window) counters.now }
{
    counters
        .iter()
        .all(|counter| is_known_counter(counter, window, known))
}

fn is_known_counter(counter: &Counter, window: Window, known: &Known) -> bool
    ensures { result ≡ is_known_counter known.now window counter.now }
{
    known.has_user(&counter.user) && is_span_of(&counter.span, window, &counter.user, known)
}

/// Whether a span is of a window: a transaction of the user's, if the window is that of single
/// transactions, and else a number.
fn is_span_of(span: &Span, window: Window, user: &Token, known: &Known) -> bool
    ensures { result ≡ is_span_of known.now.txns window user.now span.now }
{
    match span {
        Span::Number(_) => !is_transaction_window(window),
        Span::Txn(txn) => is_transaction_window(window) && is_of_user(txn, user, known),
    }
}

fn is_transaction_window(window: Window) -> bool
    ensures { result ≡ is_transaction_window window }
{
    matches!(window, Window::Transaction)
}

fn is_of_user(txn: &Token, user: &Token, known: &Known) -> bool
    ensures { result ≡ is_some_with (λ t. bytes_eq t.txn.user user.now) (txn_named txn.now known.now.txns) }
{
    match known.txn(txn) {
        None => false,
        Some(begun) => begun.txn.user == *user,
    }
}
