//! Currencies by their alphabetic codes, and their minor units.
ghost use Rattle.std.specs.Prelude.{◌≡◌, Some, IfSome};
ghost use Rattle.iss_model.specs.Currencies.{currency_code, currency_of, decimals_of, unit_of};

use iss_model::Currency;

/// The currency of an alphabetic code such as `USD`, in capitals.
pub fn from_code(text: &[u8]) -> Option<Currency>
    ensures currency { result ≡ currency_of text.now }
    ensures code_again { IfSome result (λ c. currency_code c ≡ text.now) }
{
    match text {
        b"USD" => Some(Currency::Usd),
        b"EUR" => Some(Currency::Eur),
        b"GBP" => Some(Currency::Gbp),
        b"CAD" => Some(Currency::Cad),
        b"AUD" => Some(Currency::Aud),
        b"JPY" => Some(Currency::Jpy),
        b"KWD" => Some(Currency::Kwd),
        _ => None,
    }
}

/// The alphabetic code, in ASCII.
pub fn code(currency: Currency) -> [u8; 3]
    ensures code { result ≡ currency_code currency }
    ensures currency_again { currency_of result ≡ Some currency }
{
    match currency {
        Currency::Usd => *b"USD",
        Currency::Eur => *b"EUR",
        Currency::Gbp => *b"GBP",
        Currency::Cad => *b"CAD",
        Currency::Aud => *b"AUD",
        Currency::Jpy => *b"JPY",
        Currency::Kwd => *b"KWD",
    }
}

/// How many decimals the currency has.
pub fn decimals(currency: Currency) -> u8
    ensures { result ≡ decimals_of currency }
{
    match currency {
        Currency::Jpy => 0,
        Currency::Usd | Currency::Eur | Currency::Gbp | Currency::Cad | Currency::Aud => 2,
        Currency::Kwd => 3,
    }
}

/// How many minor units one whole unit has.
pub(crate) fn unit(currency: Currency) -> u64
    ensures { result ≡ unit_of currency }
{
    match currency {
        Currency::Jpy => 1,
        Currency::Usd | Currency::Eur | Currency::Gbp | Currency::Cad | Currency::Aud => 100,
        Currency::Kwd => 1000,
    }
}
