//! The key of what stood in: a product's user on a day.
ghost use Rattle.std.specs.Prelude.{◌≡◌, pos, refl, true, IsTrue};
ghost use Rattle.std.specs.Ordering.{nat_cmp, as_partial_cmp};
ghost use Rattle.std.specs.Cmp.Lexicographic.{slice_cmp, nat_list_cmp_total, nat_list_eq_equiv, texts_po, texts_ties};
ghost use Rattle.std.specs.Cmp.{partial_equiv_from_equiv};
ghost use Rattle.std.specs.Str.{bytes_eq};
ghost use Rattle.iss_model.specs.declared.setting.Window.TheVariants as window;
ghost use Rattle.iss_model.specs.Calendar.{window_at};
ghost use Rattle.iss_model.specs.Forms.{is_stamp};
ghost use Rattle.iss_model.specs.Sums.{stood_key};
ghost use Rattle.iss_commando.specs.Sums.{stood_entry, is_plain};

use iss_model::{Stood, Token, Window};
use iss_time::window;
use std::cmp::Ordering;
use std::marker::Model;

/// A product's user on a day of UTC, ordered by product, user and day. Contracts see the key of what stood in then.
#[derive(Drop)]
pub(crate) struct DayKey {
    product: Token,
    user: Token,
    /// Counted from 1 January 1970.
    day: u32,
}

impl Model for DayKey {
    ghost use Rattle.std.specs.Prelude.{List, ℕ, pos};
    ghost use Rattle.iss_commando.specs.Days.{day_key};

    ghost Value = { List ℕ };

    ghost view = { λ k. day_key k.product k.user (pos k.day) };
}

impl DayKey {
    /// The key of a stamp's day.
    pub(crate) fn new(product: &Token, user: &Token, at: u64) -> DayKey
        requires { IsTrue (is_stamp at) }
        ensures { result ≡ stood_key product.now user.now at }
    {
        DayKey {
            product: *product,
            user: *user,
            day: day(at),
        }
    }

    /// What stood in for the user on that day, if it was this amount.
    #[tactic(auto, using(crate::proofs::KeyOrder::both_plain))]
    pub(crate) fn stood(&self, amount: u64) -> Stood
        ensures entry { stood_entry result ≡ (self.now, pos amount) }
        ensures plain { is_plain result ≡ true }
    {
        // A name has no byte 0, so a key tells where it ends.
        let _product = self.product.text();
        let _user = self.user.text();
        Stood {
            product: self.product,
            user: self.user,
            day: i64::from(self.day),
            amount,
        }
    }
}

/// The number of a stamp's day.
fn day(at: u64) -> u32
    requires { IsTrue (is_stamp at) }
    ensures { pos result ≡ window_at window.Day at (pos 0) }
{
    window(Window::Day, at, 0) as u32
}

impl PartialEq for DayKey {
    ghost eq = { bytes_eq };

    ghost laws = { partial_equiv_from_equiv nat_list_eq_equiv };

    fn eq(&self, other: &DayKey) -> bool {
        self.cmp(other).is_eq()
    }
}

impl Eq for DayKey {
    ghost laws = { nat_list_eq_equiv };
}

impl PartialOrd for DayKey {
    ghost partial_cmp = { as_partial_cmp (slice_cmp nat_cmp) };

    ghost laws = { texts_po };

    fn partial_cmp(&self, other: &DayKey) -> Option<Ordering> {
        Some(self.cmp(other))
    }
}

impl Ord for DayKey {
    ghost cmp = { slice_cmp nat_cmp };

    ghost total = { nat_list_cmp_total };

    ghost matches_partial_cmp = { λ x y. refl };

    ghost matches_eq = { texts_ties };

    fn cmp(&self, other: &DayKey) -> Ordering {
        let by_product = self.product.text().cmp(other.product.text());
        let by_user = self.user.text().cmp(other.user.text());
        by_product.then(by_user).then(self.day.cmp(&other.day))
    }
}
