//! Amounts written as text.
ghost use Rattle.std.specs.Prelude.{◌≡◌, ◌<◌, ◌+◌, ◌/◌, ◌%◌, ◌++◌, pos, decimal, IfOk, OnOk};
ghost use Rattle.std.specs.String.{string_bytes};
ghost use Rattle.iss_model.specs.Amounts.{amount_text, decimals_text};
ghost use Rattle.iss_amount.specs.Laws.{IsReadAgain};

use crate::currency::{decimals, unit};
use iss_model::Currency;
use itoa::Buffer;
use std::alloc::{AllocError, Global};

/// The text of an amount in minor units: a minus sign if it is negative, the whole units, and the currency's decimals.
#[tactic(auto, using(crate::proofs::RoundTrips::read_again))]
pub fn write(alloc: Global, amount: i64, currency: Currency) -> Result<String, AllocError>
    ensures text { IfOk result (λ text. string_bytes text ≡ amount_text amount currency) }
    ensures read_again { IsReadAgain amount currency }
{
    let sign = if amount < 0 { "-" } else { "" };
    let size = amount.unsigned_abs();
    let units = size / unit(currency);
    let rest = size % unit(currency);
    match decimals(currency) {
        0 => with_no_decimals(alloc, sign, units),
        2 => with_two_decimals(alloc, sign, units, rest),
        _ => with_three_decimals(alloc, sign, units, rest),
    }
}

fn with_no_decimals(alloc: Global, sign: &str, units: u64) -> Result<String, AllocError>
    ensures { IfOk result (λ text. string_bytes text ≡ sign.now ++ decimal units) }
{
    format!(in alloc; "{sign}{units}")
}

fn with_two_decimals(alloc: Global, sign: &str, units: u64, rest: u64) -> Result<String, AllocError>
    requires { rest < 100 }
    ensures { IfOk result
        (λ text. string_bytes text ≡ sign.now ++ decimal units ++ decimals_text 2 rest) }
{
    format!(in alloc; "{sign}{units}.{rest:02}")
}

fn with_three_decimals(
    alloc: Global,
    sign: &str,
    units: u64,
    rest: u64,
) -> Result<String, AllocError>
    requires { rest < 1000 }
    ensures { IfOk result
        (λ text. string_bytes text ≡ sign.now ++ decimal units ++ decimals_text 3 rest) }
{
    format!(in alloc; "{sign}{units}.{rest:03}")
}

/// Adds an amount in minor units: its whole units, and exactly the currency's decimals.
pub fn put_amount_text(out: &mut Vec<u8>, amount: u64, currency: Currency) -> Result<(), AllocError>
    ensures { OnOk result (out.new.items ≡ out.old.items ++ amount_text (pos amount) currency) }
{
    match decimals(currency) {
        0 => put_decimal(out, amount),
        2 => put_hundredths(out, amount),
        _ => put_thousandths(out, amount),
    }
}

fn put_hundredths(out: &mut Vec<u8>, amount: u64) -> Result<(), AllocError>
    ensures { OnOk result (out.new.items
        ≡ out.old.items ++ (decimal (amount / 100) ++ decimals_text 2 amount)) }
{
    put_decimal(out, amount / 100)?;
    out.extend_from_slice(&[b'.', last_digit(amount / 10), last_digit(amount)])
}

fn put_thousandths(out: &mut Vec<u8>, amount: u64) -> Result<(), AllocError>
    ensures { OnOk result (out.new.items
        ≡ out.old.items ++ (decimal (amount / 1000) ++ decimals_text 3 amount)) }
{
    put_decimal(out, amount / 1000)?;
    out.extend_from_slice(&[
        b'.',
        last_digit(amount / 100),
        last_digit(amount / 10),
        last_digit(amount),
    ])
}

/// Adds a number in decimal digits.
pub fn put_decimal(out: &mut Vec<u8>, number: u64) -> Result<(), AllocError>
    ensures { OnOk result (out.new.items ≡ out.old.items ++ decimal number) }
{
    out.extend_from_slice(Buffer::new().format(number).as_bytes())
}

/// The last digit of a number, in ASCII.
pub fn last_digit(number: u64) -> u8
    ensures { result ≡ 48 + number % 10 }
{
    b'0' + (number % 10) as u8
}
