//! The names of a drill.
ghost use Rattle.std.specs.Prelude.{◌≡◌, ◌+◌, ◌<◌, [], ◌∷◌, decimal, length, take, IsTrue};
ghost use Rattle.iss_drill.specs.declared.names.TheConstants.{MOST};
ghost use Rattle.iss_model.specs.Tokens.{is_token, is_token_byte};

use iss_model::Token;
use itoa::Buffer;

/// The most digits of a number in 32 bits, and a letter.
const MOST: usize = 11;

/// A letter and a number in decimal.
#[tactic(auto, using(crate::proofs::Named::token_of_text))]
pub(crate) fn named(letter: u8, number: u32) -> Token
    requires { IsTrue (is_token_byte letter) }
    ensures { result ≡ letter ∷ decimal number }
{
    let mut buffer = Buffer::new();
    let digits = buffer.format(number).as_bytes();
    let text = text_of(letter, digits);
    token_of(&text[..=digits.len()])
}

/// A letter and digits, and what is left of the array.
fn text_of(letter: u8, digits: &[u8]) -> [u8; MOST]
    requires { length digits.now < MOST }
    ensures { take (length digits.now + 1) result ≡ letter ∷ digits.now }
{
    let mut text = [letter; MOST];
    text[1..=digits.len()].copy_from_slice(digits);
    text
}

/// The token that a text spells.
fn token_of(text: &[u8]) -> Token
    requires { IsTrue (is_token text.now) }
    ensures { result ≡ text.now }
{
    match Token::new(text) {
        Some(token) => token,
        None => unreachable!(),
    }
}

/// A letter alone.
pub(crate) fn lettered(letter: u8) -> Token
    requires { IsTrue (is_token_byte letter) }
    ensures { result ≡ letter ∷ [] }
{
    token_of(&[letter])
}
