//! How far counters reach.
ghost use Rattle.std.specs.Prelude.{◌≡◌};
ghost use Rattle.std.specs.List.{list_all};
ghost use Rattle.iss_noticed.specs.Commitments.{most_of_records};
ghost use Rattle.iss_sound_parts.specs.Limits.{is_between, is_within};

use crate::totals::Open;
use iss_model::Counter;
use iss_model::limits::GREATEST_AMOUNT;

/// Whether each counter's amount and its count are between their bounds, for this many records.
pub(crate) fn are_within(counters: &[Counter], records: u32, still_open: &Open) -> bool
    ensures { result ≡ list_all (is_within still_open.now.amount (most_of_records records) still_open.now.asked records) counters.now }
{
    counters
        .iter()
        .all(|counter| is_within(counter, records, still_open))
}

fn is_within(counter: &Counter, records: u32, still_open: &Open) -> bool
    ensures { result ≡ is_within still_open.now.amount (most_of_records records) still_open.now.asked records counter.now }
{
    let records = u64::from(records);
    is_between(
        still_open.amount,
        records * GREATEST_AMOUNT,
        counter.used.amount,
    ) && is_between(u64::from(still_open.asked), records, counter.used.count)
}

/// Whether a sum is at least a load less a bound, and at most the bound.
fn is_between(load: u64, bound: u64, sum: i64) -> bool
    ensures { result ≡ is_between load bound sum }
{
    let (load, bound, sum) = (i128::from(load), i128::from(bound), i128::from(sum));
    load - bound <= sum && sum <= bound
}
