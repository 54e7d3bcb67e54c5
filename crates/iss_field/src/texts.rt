//! What the plain text of a field holds. For a bad one, the field's name is returned.
ghost use Rattle.std.specs.Prelude.{◌≡◌};
ghost use Rattle.iss_field.specs.Texts.{token_known, currency_known, amount_known, mcc_known};

use crate::Name;
use crate::codes::mcc_of_text;
use iss_amount::{from_code, read};
use iss_model::{Currency, Token};

/// The token of the field of that name.
#[tactic(auto, unfolding(crate::specs::Values::token_of))]
pub fn token_in(name: Name, text: &[u8]) -> Result<Token, Name>
    ensures { result ≡ token_known name text.now }
{
    Token::new(text).ok_or(name)
}

/// The currency of the field `currency`.
#[tactic(auto, unfolding(crate::specs::Values::currency_value))]
pub fn currency_in(text: &[u8]) -> Result<Currency, Name>
    ensures { result ≡ currency_known text.now }
{
    from_code(text).ok_or(Name::Currency)
}

/// The minor units of the field `amount`.
#[tactic(auto, unfolding(crate::specs::Values::amount_of))]
pub fn amount_in(text: &[u8], currency: Currency) -> Result<u64, Name>
    ensures { result ≡ amount_known currency text.now }
{
    read(text, currency).ok_or(Name::Amount)
}

/// The code of the field `mcc`.
#[tactic(auto, unfolding(crate::specs::Values::mcc_of))]
pub fn mcc_in(text: &[u8]) -> Result<u16, Name>
    ensures { result ≡ mcc_known text.now }
{
    mcc_of_text(text).ok_or(Name::Mcc)
}
