//! The window that a stamp falls in.
ghost use Rattle.std.specs.Prelude.{◌≡◌, IsTrue, pos, ◌+ℤ◌, ◌*ℤ◌, ◌≤ℤ◌};
ghost use Rattle.iss_model.specs.Forms.{is_stamp};
ghost use Rattle.iss_model.specs.Calendar.{day_at, month_of, window_at};
ghost use Rattle.iss_time.specs.CivilMonths.{HasMonthOfDate};

use iss_model::Window;
use jiff::civil::Date;

const MILLISECONDS_PER_DAY: i64 = 86_400_000;

const MILLISECONDS_PER_MINUTE: i64 = 60_000;

/// A day after that of the greatest stamp, 31 December 9998, at any offset.
const LAST_DAY: i64 = 2_932_560;

/// A day before that of the stamp 0 at any offset.
const FIRST_DAY: i64 = -30;

/// The number of the window of this kind that the stamp falls in, at an offset from UTC in minutes. A window of one transaction, and a lifetime, have the number 0.
///
/// `at` is in milliseconds since 1 January 1970. Days are numbered from that one. Weeks begin on Sundays, and are
/// numbered from the one that it lies in. Months are numbered as 12 times the year, plus the month. Before 1970 the
/// numbers go on downwards.
#[tactic(auto, using(crate::proofs::Months::month_of_stamp))]
pub fn window(kind: Window, at: u64, offset: i16) -> i64
    requires { IsTrue (is_stamp at) }
    ensures number { result ≡ window_at kind at offset }
    ensures month_of_date { HasMonthOfDate at offset }
{
    match kind {
        Window::Transaction | Window::Lifetime => 0,
        Window::Day => day(at, offset),
        Window::Week => (day(at, offset) + 4).div_euclid(7),
        Window::Month => month(day(at, offset)),
    }
}

/// The number of the stamp's day at an offset from UTC, from 1 January 1970.
fn day(at: u64, offset: i16) -> i64
    requires { IsTrue (is_stamp at) }
    ensures number { result ≡ day_at at offset }
    ensures low { FIRST_DAY ≤ℤ result }
    ensures high { result ≤ℤ LAST_DAY }
{
    (at as i64 + MILLISECONDS_PER_MINUTE * i64::from(offset)).div_euclid(MILLISECONDS_PER_DAY)
}

/// The number of the month that the day lies in.
fn month(day: i64) -> i64
    requires low { FIRST_DAY ≤ℤ day }
    requires high { day ≤ℤ LAST_DAY }
    ensures { result ≡ month_of day }
{
    let date = Date::from_plain(jiff_core::civil::Date::from_unix_epoch_day(day).unwrap());
    month_number(date.year(), date.month())
}

/// The number of a month in a row of all months.
fn month_number(year: i16, month: i8) -> i64
    ensures { result ≡ pos 12 *ℤ year +ℤ month }
{
    12 * i64::from(year) + i64::from(month)
}
