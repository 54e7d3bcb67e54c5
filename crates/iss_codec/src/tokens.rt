//! How a token stands in what holds tokens: after its length, or as its place in a table.
ghost use Rattle.std.specs.Prelude.{◌≡◌, ◌++◌, List, ℕ, Option, IsTrue, OnOk};
ghost use Rattle.iss_model.specs.Tokens.{is_token};
ghost use Rattle.iss_model.specs.Inputs.{with_length};
ghost use Rattle.iss_codec.specs.Taking.{take_token};
ghost use Rattle.iss_codec.specs.Places.{place_bytes, take_place};
ghost use Rattle.iss_codec.specs.Readers.{taken_field};

use crate::places::{Places, put_place};
use crate::reader::Reader;
use crate::writing::put_token;
use iss_model::Token;
use std::alloc::AllocError;

/// A way to write tokens.
pub(crate) trait PutsTokens {
    ghost token_bytes: { Self → List ℕ → List ℕ };

    fn put(&self, out: &mut Vec<u8>, token: &Token) -> Result<(), AllocError>
        ensures spelled { OnOk result (out.new.items ≡ out.old.items ++ token_bytes self.now token.now) }
        ensures token { OnOk result (IsTrue (is_token token.now)) };
}

/// A way to read tokens.
pub(crate) trait TakesTokens {
    ghost take_name: { Self → List ℕ → Option (List ℕ × List ℕ) };

    fn take(&self, reader: &mut Reader<'_>) -> Option<Token>
        ensures { taken_field result reader.new.bytes.now ≡ take_name self.now reader.old.bytes.now };
}

/// Each token after its length.
#[derive(Drop)]
pub(crate) struct WithLength;

impl PutsTokens for WithLength {
    ghost token_bytes = { λ way. with_length };

    fn put(&self, out: &mut Vec<u8>, token: &Token) -> Result<(), AllocError> {
        put_token(out, token)
    }
}

impl TakesTokens for WithLength {
    ghost take_name = { λ way. take_token };

    fn take(&self, reader: &mut Reader<'_>) -> Option<Token> {
        reader.take_token()
    }
}

/// Each token as its place, where these places are looked up.
#[derive(Drop)]
pub(crate) struct AsPlace<'a, P> {
    pub(crate) places: &'a P,
}

impl<P: Places> PutsTokens for AsPlace<'_, P> {
    ghost token_bytes = { λ way. place_bytes (P.tokens way.places.now) };

    fn put(&self, out: &mut Vec<u8>, token: &Token) -> Result<(), AllocError> {
        put_place(out, token, self.places)
    }
}

/// Each token as its place in this table.
#[derive(Drop)]
pub(crate) struct InTable<'a> {
    pub(crate) tokens: &'a [Token],
}

impl TakesTokens for InTable<'_> {
    ghost take_name = { λ way. take_place way.tokens.now };

    fn take(&self, reader: &mut Reader<'_>) -> Option<Token> {
        reader.take_place(self.tokens)
    }
}
