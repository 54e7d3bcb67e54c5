//! Places of tokens in a table: where each stands, and how its place is written and read.
ghost use Rattle.std.specs.Prelude.{◌≡◌, ◌++◌, List, ℕ, IsTrue, OnOk};
ghost use Rattle.std.specs.List.{position};
ghost use Rattle.std.specs.Str.{bytes_eq};
ghost use Rattle.iss_model.specs.Tokens.{is_token};
ghost use Rattle.iss_index.specs.Places.{place_of};
ghost use Rattle.iss_codec.specs.Places.{place_bytes, take_place};
ghost use Rattle.iss_codec.specs.Readers.{taken_field};

use crate::reader::Reader;
use crate::writing::put_low_u32;
use iss_index::Names;
use iss_model::Token;
use std::alloc::AllocError;

/// A table of tokens that tells where each of them stands. Contracts see the table as `tokens`.
pub trait Places {
    ghost tokens: { Self → List (List ℕ) };

    /// The place of a token, counted from 0, or `None` if the table doesn't have it.
    fn place(&self, token: &Token) -> Option<usize>
        ensures { result ≡ place_of token.now (tokens self.now) };
}

/// Names that are found by hash.
impl Places for Names {
    ghost tokens = { λ names. names };

    fn place(&self, token: &Token) -> Option<usize> {
        let place = self.find(token)?;
        Some(place as usize)
    }
}

/// A list that is searched from its start.
impl Places for &[Token] {
    ghost tokens = { λ list. list.now };

    fn place(&self, token: &Token) -> Option<usize> {
        place_of(self, token)
    }
}

fn place_of(tokens: &[Token], token: &Token) -> Option<usize>
    ensures { result ≡ place_of token.now tokens.now }
{
    first_place(tokens, token)
}

fn first_place(tokens: &[Token], token: &Token) -> Option<usize>
    ensures { result ≡ position (λ other. bytes_eq token.now other) tokens.now }
{
    tokens.iter().position(|other| *token == *other)
}

/// Appends the place of a token in four bytes, the highest first: 0 if the table doesn't have it.
pub fn put_place<P: Places>(out: &mut Vec<u8>, token: &Token, places: &P) -> Result<(), AllocError>
    ensures spelled { OnOk result (out.new.items ≡ out.old.items ++ place_bytes (P.tokens places.now) token.now) }
    // The name is a token, as its type says.
    ensures token { OnOk result (IsTrue (is_token token.now)) }
{
    let _text = token.text();
    let place = places.place(token).unwrap_or(0);
    put_low_u32(out, place as u64)
}

impl Reader<'_> {
    /// The token of a table whose place the next four bytes are.
    #[tactic(auto, unfolding(crate::specs::Places::take_place))]
    pub fn take_place(&mut self, tokens: &[Token]) -> Option<Token>
        ensures { taken_field result self.new.bytes.now ≡ take_place tokens.now self.old.bytes.now }
    {
        let place = self.take_u32()?;
        Some(*tokens.get(place as usize)?)
    }
}
