//! What the programme stood in with.
ghost use Rattle.std.specs.Prelude.{◌≡◌, ◌↔◌, ◌<◌, ◌^◌, None, IsTrue, is_some, option_map};
ghost use Rattle.std.specs.List.{list_all};
ghost use Rattle.iss_states.specs.Rebuilding.{rebuilt};
ghost use Rattle.iss_named.specs.Known.{is_key_before};
ghost use Rattle.iss_named.specs.Stood.{place_of_stood};
ghost use Rattle.iss_noticed.specs.Commitments.{most_of_records};
ghost use Rattle.iss_bounded.specs.Bounds.{is_stood_within};
ghost use Rattle.iss_known.specs.Known.{IsKnownOf};
ghost use Rattle.iss_sound_parts.specs.Totals.{IsOpenIn};
ghost use Rattle.iss_sound_parts.specs.Rising.{do_follow, is_key_after};
ghost use Rattle.iss_sound_parts.specs.SoundNotices.{AreStandInsSound};
ghost use Rattle.iss_sound_parts.specs.StandIns.{do_stand_ins_pass, is_day, is_paid_by_gateway, is_stand_in_sound};

use crate::totals::Open;
use iss_known::Known;
use iss_model::limits::{GREATEST_AMOUNT, LAST_STAMP};
use iss_model::{Funding, State, Stood, Token};

/// The milliseconds of a day.
const DAY: u64 = 86_400_000;

/// The day of the last stamp, from 1970-01-01 as day 0.
const LAST_DAY: u64 = LAST_STAMP / DAY;

/// Whether the sums of what a state stood in with are sound: of known users, of known products that
/// the gateway pays and of days of stamps, in their order and once each.
///
/// They are no more than the records can have made, and within what these may come to. It takes
/// what is known of the state's events, and what is open in it.
#[tactic(auto, using(crate::proofs::StoodSums::stand_ins_pass))]
pub fn are_stand_ins_sound(state: &State, known: &Known, still_open: &Open) -> bool
    requires known { IsKnownOf known.now (rebuilt state.now) }
    requires counted { IsOpenIn still_open.now state.now }
    ensures { IsTrue result ↔ AreStandInsSound state.entry.now }
{
    do_pass(&state.sums.0, state.records, known, still_open)
}

/// Whether sums pass, for this many records.
fn do_pass(sums: &[Stood], records: u32, known: &Known, still_open: &Open) -> bool
    ensures { result ≡ do_stand_ins_pass known.now still_open.now records sums.now }
{
    let records = u64::from(records);
    sums.len() as u64 + u64::from(still_open.asked) <= records
        && are_each_sound(
            sums,
            records * GREATEST_AMOUNT,
            still_open.asked_amount,
            known,
        )
        && do_follow(sums)
}

fn are_each_sound(sums: &[Stood], most: u64, asked: u64, known: &Known) -> bool
    ensures { result ≡ list_all (is_stand_in_sound known.now asked most) sums.now }
{
    sums.iter().all(|sum| is_sound(sum, most, asked, known))
}

fn is_sound(sum: &Stood, most: u64, asked: u64, known: &Known) -> bool
    ensures { result ≡ is_stand_in_sound known.now asked most sum.now }
{
    known.has_user(&sum.user)
        && is_paid_by_gateway(&sum.product, known)
        && is_day(sum.day)
        && is_within(sum, most, asked)
}

/// Whether a sum is within a bound, with what calls ask.
fn is_within(sum: &Stood, most: u64, asked: u64) -> bool
    ensures { result ≡ is_stood_within asked most sum.now }
{
    u128::from(sum.amount) + u128::from(asked) <= u128::from(most)
}

fn is_paid_by_gateway(product: &Token, known: &Known) -> bool
    ensures { result ≡ is_paid_by_gateway known.now product.now }
{
    match known.product(product) {
        None => false,
        Some(sold) => matches!(sold.funding, Funding::Gateway),
    }
}

/// Whether there is a stamp of that day, from 1970-01-01 as day 0.
fn is_day(day: i64) -> bool
    ensures { result ≡ is_day day }
{
    0 <= day && day <= LAST_DAY as i64
}

/// Whether each sum comes after the one before it.
fn do_follow(sums: &[Stood]) -> bool
    ensures { result ≡ do_follow place_of_stood None sums.now }
{
    let mut before = None;
    for sum in sums {
        if !is_after(sum, before) {
            return false;
        }
        before = Some(*sum);
    }
    true
}

/// Whether a sum comes after another one, if there is one.
fn is_after(sum: &Stood, before: Option<Stood>) -> bool
    ensures { result ≡ is_key_after (option_map place_of_stood before) (place_of_stood sum.now) }
{
    match before {
        None => true,
        Some(before) => is_before(&before, sum),
    }
}

#[tactic(auto, using(crate::proofs::StoodOrder::stood_by_parts))]
fn is_before(sum: &Stood, other: &Stood) -> bool
    ensures { result ≡ is_key_before (place_of_stood sum.now) (place_of_stood other.now) }
{
    // A token has no byte 0, so keys sort by the product, the user and then the day.
    let (_product, _other_product) = (sum.product.text(), other.product.text());
    let (_user, _other_user) = (sum.user.text(), other.user.text());
    sum.product
        .cmp(&other.product)
        .then(sum.user.cmp(&other.user))
        .then(sum.day.cmp(&other.day))
        .is_lt()
}
