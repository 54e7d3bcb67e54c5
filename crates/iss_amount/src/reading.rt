//! Amounts read from text, and from whole numbers of units.
ghost use Rattle.std.specs.Prelude.{◌≡◌};
ghost use Rattle.iss_model.specs.Forms.{is_amount, is_limit};
ghost use Rattle.iss_model.specs.Amounts.{if_form, amount_read, limit_read, whole_amount_read, whole_limit_read};
ghost use Rattle.iss_amount.specs.Reading.{limit_after, limit_of_units};
ghost use Rattle.iss_amount.specs.Laws.{IsWrittenAgain};

use crate::currency::{decimals, unit};
use crate::digits::{number_after, number_in};
use iss_model::Currency;
use iss_model::limits::{GREATEST_AMOUNT, GREATEST_LIMIT, LEAST_AMOUNT};

/// The minor units of an event's amount such as `10.00`. It is `None` if the text isn't well formed in the currency, or
/// they aren't 1 to 10^9.
#[tactic(auto, using(crate::proofs::RoundTrips::amount_written_again))]
pub fn read(text: &[u8], currency: Currency) -> Option<u64>
    ensures number { result ≡ amount_read text.now currency }
    ensures written_again { IsWrittenAgain (amount_read text.now currency) text.now currency }
{
    let amount = read_limit(text, currency)?;
    checked_amount(amount)
}

/// The minor units of a limit such as `10.00`: `None` if the text isn't well formed in the currency, or they are above 10^12.
#[tactic(auto, using(crate::proofs::RoundTrips::limit_written_again))]
pub fn read_limit(text: &[u8], currency: Currency) -> Option<u64>
    ensures number { result ≡ limit_read text.now currency }
    ensures written_again { IsWrittenAgain (limit_read text.now currency) text.now currency }
{
    let places = usize::from(decimals(currency));
    if places == 0 {
        return read_units(text);
    }
    let point = text.len().saturating_sub(places + 1);
    let units = read_units(&text[..point])?;
    if text[point] != b'.' {
        return None;
    }
    read_after(units, &text[point + 1..])
}

/// The minor units of `units` whole units: `None` if they aren't 1 to 10^9.
pub fn whole(units: u64, currency: Currency) -> Option<u64>
    ensures { result ≡ whole_amount_read units currency }
{
    let amount = units.checked_mul(unit(currency))?;
    checked_amount(amount)
}

/// The minor units of `units` whole units: `None` if they are above 10^12.
pub fn whole_limit(units: u64, currency: Currency) -> Option<u64>
    ensures { result ≡ whole_limit_read units currency }
{
    let limit = units.checked_mul(unit(currency))?;
    checked_limit(limit)
}

/// The number, if it is an amount of an event.
fn checked_amount(n: u64) -> Option<u64>
    ensures { result ≡ if_form is_amount n }
{
    (LEAST_AMOUNT..=GREATEST_AMOUNT).contains(&n).then_some(n)
}

/// The number, if it is a limit.
fn checked_limit(n: u64) -> Option<u64>
    ensures { result ≡ if_form is_limit n }
{
    (n <= GREATEST_LIMIT).then_some(n)
}

/// The limit that a text of digits with no leading zero spells.
fn read_units(text: &[u8]) -> Option<u64>
    ensures { result ≡ limit_of_units text.now }
{
    number_in(0, GREATEST_LIMIT, text)
}

/// The limit that digits spell after those of `start`.
fn read_after(start: u64, digits: &[u8]) -> Option<u64>
    ensures { result ≡ limit_after start digits.now }
{
    number_after(start, 0, GREATEST_LIMIT, digits)
}
