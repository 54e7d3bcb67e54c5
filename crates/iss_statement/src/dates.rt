//! Dates, as days counted from 1970-01-01.
ghost use Rattle.std.specs.Prelude.{◌≡◌, ◌<◌, ◌+◌, length, IsTrue};
ghost use Rattle.iss_statement.specs.Dates as spec;

use jiff::civil::Date;

/// The first year that a statement may have.
const FIRST_YEAR: u16 = 1970;

/// The last year that a statement may have.
const LAST_YEAR: u16 = 9998;

/// The day of a date `YYYY-MM-DD` that the calendar has, from 1970-01-01 to 9998-12-31. It is counted from 1970-01-01.
#[tactic(auto, unfolding(crate::specs::Dates::day_of_date))]
pub(crate) fn day_of_date(text: &[u8]) -> Option<i64>
    ensures { result ≡ spec.day_of_date text.now }
{
    if !is_hyphened(text) {
        return None;
    }
    day_of_parts(
        digits_at(text, 0),
        digits_at(text, 2),
        digits_at(text, 5),
        digits_at(text, 8),
    )
}

/// Whether there are ten bytes, with a hyphen after the year and one after the month.
fn is_hyphened(text: &[u8]) -> bool
    ensures value { result ≡ spec.is_hyphened text.now }
    ensures size { IsTrue result → length text.now ≡ 10 }
{
    text.len() == 10 && text[4] == b'-' && text[7] == b'-'
}

/// The number that the two digits at this place and the next spell, if they are digits.
fn digits_at(text: &[u8], place: usize) -> Option<u8>
    requires { place + 1 < length text.now }
    ensures { result ≡ spec.digits_at text.now place }
{
    two_digits(text[place], text[place + 1])
}

/// The number that two digits spell, if they are digits.
fn two_digits(tens: u8, ones: u8) -> Option<u8>
    ensures { result ≡ spec.two_digits tens ones }
{
    if !tens.is_ascii_digit() {
        return None;
    }
    if !ones.is_ascii_digit() {
        return None;
    }
    Some(10 * (tens - b'0') + (ones - b'0'))
}

/// The day of a date, if its parts are there.
#[tactic(auto, unfolding(crate::specs::Dates::day_of_parts))]
fn day_of_parts(
    century: Option<u8>,
    year: Option<u8>,
    month: Option<u8>,
    day: Option<u8>,
) -> Option<i64>
    ensures { result ≡ spec.day_of_parts century year month day }
{
    let century = u16::from(century?);
    let year = u16::from(year?);
    day_of_civil(100 * century + year, month?, day?)
}

/// The day of a date that the calendar has in these years.
fn day_of_civil(year: u16, month: u8, day: u8) -> Option<i64>
    ensures { result ≡ spec.day_of_civil year month day }
{
    if year < FIRST_YEAR {
        return None;
    }
    if year > LAST_YEAR {
        return None;
    }
    if month > 12 {
        return None;
    }
    if day > 31 {
        return None;
    }
    match Date::new(year as i16, month as i8, day as i8) {
        Ok(date) => Some(i64::from(date.to_plain().to_unix_epoch_day())),
        Err(_) => None,
    }
}
