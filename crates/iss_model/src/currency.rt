//! Currencies.
ghost use Rattle.std.specs.Prelude.{◌≡◌};
ghost use Rattle.iss_model.specs.Currencies.{iso_number};
ghost use Rattle.iss_model.specs.Numbers.{currency_numbered};

/// A currency of ISO 4217, by its alphabetic code.
#[derive(Clone, Copy, Debug, PartialEq, Eq)]
pub enum Currency {
    Usd,
    Eur,
    Gbp,
    Cad,
    Aud,
    Jpy,
    Kwd,
}

impl Currency {
    /// The numeric code of ISO 4217.
    pub fn number(self) -> u16
        ensures { result ≡ iso_number self }
    {
        match self {
            Currency::Usd => 840,
            Currency::Eur => 978,
            Currency::Gbp => 826,
            Currency::Cad => 124,
            Currency::Aud => 36,
            Currency::Jpy => 392,
            Currency::Kwd => 414,
        }
    }

    /// The currency of this numeric code, or `None` if none has it.
    pub fn from_number(number: u16) -> Option<Currency>
        ensures { result ≡ currency_numbered number }
    {
        match number {
            840 => Some(Currency::Usd),
            978 => Some(Currency::Eur),
            826 => Some(Currency::Gbp),
            124 => Some(Currency::Cad),
            36 => Some(Currency::Aud),
            392 => Some(Currency::Jpy),
            414 => Some(Currency::Kwd),
            _ => None,
        }
    }
}
