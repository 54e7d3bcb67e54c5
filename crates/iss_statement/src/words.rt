//! The words of a statement.
ghost use Rattle.std.specs.Prelude.{◌≡◌, Some, None, if◌then◌else◌};
ghost use Rattle.iss_statement.specs.Words.{asked_by, asked_in, is_user};

use crate::dates::day_of_date;
use iss_amount::from_code;
use iss_model::{Currency, Token};

/// What a statement is asked of.
#[derive(Clone, Copy)]
pub struct StatementWords {
    pub user: Token,
    pub currency: Currency,
    /// The first day, counted from 1970-01-01 in UTC.
    pub from: i64,
    /// The last day.
    pub to: i64,
}

/// What the words USER, CURRENCY, FROM and TO ask for.
///
/// USER is a token that doesn't begin with `-`, and CURRENCY the alphabetic code of a currency, such as `USD`. FROM and TO are dates `YYYY-MM-DD` of the
/// calendar, from 1970-01-01 to 9998-12-31, and FROM isn't after TO. For other words it is `None`.
#[tactic(auto, unfolding(crate::specs::Words::asked_of_words))]
pub fn statement_words(words: &[String]) -> Option<StatementWords>
    ensures { result ≡ asked_in words.now }
{
    match words {
        [user, currency, from, to] => asked_by(
            user.as_bytes(),
            currency.as_bytes(),
            from.as_bytes(),
            to.as_bytes(),
        ),
        _ => None,
    }
}

/// What four words ask for.
fn asked_by(user: &[u8], currency: &[u8], from: &[u8], to: &[u8]) -> Option<StatementWords>
    ensures { result ≡ asked_by user.now currency.now from.now to.now }
{
    let user = user_in(user)?;
    let currency = from_code(currency)?;
    let from = day_of_date(from)?;
    let to = day_of_date(to)?;
    if from > to {
        return None;
    }
    Some(StatementWords {
        user,
        currency,
        from,
        to,
    })
}

/// The user whom a word names.
fn user_in(word: &[u8]) -> Option<Token>
    ensures { result ≡ (if is_user word.now then Some word.now else None) }
{
    let user = Token::new(word)?;
    (word[0] != b'-').then_some(user)
}
