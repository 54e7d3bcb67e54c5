//! Amounts of money: currencies of ISO 4217, and how an amount is read and written in each.
//!
//! An amount is a whole number of minor units: 1234 is `12.34` in USD and `1.234` in KWD.
//!
//! It may cite `iss_model` and `itoa`.
//! It must not cite accounts, lines or texts other than amounts.
#![tactic(auto)]

mod currency;
mod digits;
mod reading;
mod writing;

pub use currency::{code, decimals, from_code};
pub use digits::number_in;
pub use reading::{read, read_limit, whole, whole_limit};
pub use writing::{last_digit, put_amount_text, put_decimal, write};
