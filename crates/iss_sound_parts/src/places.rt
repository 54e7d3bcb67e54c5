//! Where counters stand.
ghost use Rattle.std.specs.Prelude.{◌≡◌, None, option_map};
ghost use Rattle.iss_named.specs.Counters.{place_of_counter};
ghost use Rattle.iss_named.specs.Known.{is_key_before};
ghost use Rattle.iss_states.specs.Rebuilding.{span_number};
ghost use Rattle.iss_sound_parts.specs.Rising.{do_follow, is_key_after, key_of};

use iss_known::Known;
use iss_model::{Counter, Span, Token};

/// Where a counter stands among those of its control: by its user, then by the number of its span.
#[derive(Clone, Copy)]
pub(crate) struct Place {
    user: Token,
    number: i64,
}

impl Place {
    fn of(counter: &Counter, known: &Known) -> Place
        ensures { key_of result ≡ place_of_counter known.now.txns counter.now }
    {
        Place {
            user: counter.user,
            number: span_number(&counter.span, known),
        }
    }

    #[tactic(auto, using(crate::proofs::KeyOrder::keys_by_parts))]
    fn is_before(&self, other: &Place) -> bool
        ensures { result ≡ is_key_before (key_of self.now) (key_of other.now) }
    {
        // A token has no byte 0, so keys sort by the user and then by the number.
        let (_user, _other) = (self.user.text(), other.user.text());
        self.user
            .cmp(&other.user)
            .then(self.number.cmp(&other.number))
            .is_lt()
    }

    /// Whether it comes after another place, if there is one.
    fn is_after(&self, before: Option<Place>) -> bool
        ensures { result ≡ is_key_after (option_map key_of before) (key_of self.now) }
    {
        match before {
            None => true,
            Some(before) => before.is_before(self),
        }
    }
}

/// The number of a span: its window's, or that of its transaction's first record. For an unknown
/// transaction it is 0.
fn span_number(span: &Span, known: &Known) -> i64
    ensures { result ≡ span_number known.now.txns span.now }
{
    match span {
        Span::Number(number) => *number,
        Span::Txn(txn) => match known.txn(txn) {
            None => 0,
            Some(begun) => i64::from(begun.txn.origin),
        },
    }
}

/// Whether each counter of a control comes after the one before it.
pub(crate) fn do_follow(counters: &[Counter], known: &Known) -> bool
    ensures { result ≡ do_follow (place_of_counter known.now.txns) None counters.now }
{
    let mut before = None;
    for counter in counters {
        let place = Place::of(counter, known);
        if !place.is_after(before) {
            return false;
        }
        before = Some(place);
    }
    true
}
