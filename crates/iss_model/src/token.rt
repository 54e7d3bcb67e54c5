//! Tokens: the names of events, users, cards, products, transactions and merchants.
ghost use Rattle.std.specs.Prelude.{◌≡◌, ◌↔◌, IsTrue, IsSome, IfSome};
ghost use Rattle.std.specs.List.{list_all};
ghost use Rattle.iss_model.specs.Tokens.{is_token, is_token_byte};

use crate::limits::LONGEST_TOKEN;
use crate::words;
use std::cmp::Ordering;
use std::hash::{Hash, Hasher};
use std::marker::Model;

/// 1 to 36 bytes, each an ASCII letter, a digit, `-` or `_`. Contracts see the list of these bytes.
#[derive(Clone, Copy)]
pub struct Token {
    bytes: [u8; LONGEST_TOKEN],
    len: u8,
}

impl Model for Token {
    ghost use Rattle.std.specs.Prelude.{List, ℕ, take, length, replicate, ◌++◌, ◌-◌};
    ghost use Rattle.iss_model.specs.declared.limits.TheConstants.{LONGEST_TOKEN};
    ghost use Rattle.iss_model.specs.Padding.{IsPadded, padded_back, padded_len};
    ghost use Rattle.iss_model.specs.Tokens.{IsKept};

    ghost Value = { List ℕ };

    ghost view = { λ t. take t.len t.bytes };

    ghost invariant = { λ t. IsKept t.bytes t.len };

    ghost inverse = { λ text. record { bytes = text ++ replicate (LONGEST_TOKEN - length text) 0; len = length text } };

    ghost inverse_ok = { λ a h. λ i. record { bytes = padded_back a.bytes a.len h.padded i; len = padded_len a.bytes a.len h.padded i } };
}

impl Token {
    /// The token that a text spells, or `None` exactly if it spells none.
    pub fn new(text: &[u8]) -> Option<Token>
        ensures spelled { IsSome result ↔ IsTrue (is_token text.now) }
        ensures value { IfSome result (λ token. token ≡ text.now) }
    {
        if !is_spelled_as_token(text) {
            return None;
        }
        let mut bytes = [0; LONGEST_TOKEN];
        bytes[..text.len()].copy_from_slice(text);
        Some(Token {
            bytes,
            len: text.len() as u8,
        })
    }

    /// The bytes of the token.
    pub fn text(&self) -> &[u8]
        ensures value { result.now ≡ self.now }
        ensures token { IsTrue (is_token self.now) }
    {
        &self.bytes[..self.len as usize]
    }

    /// The bytes of the token as text.
    #[tactic(auto, using(crate::proofs::TokenTexts::token_is_text))]
    pub fn as_str(&self) -> &str
        ensures value { result.now ≡ self.now }
        ensures token { IsTrue (is_token self.now) }
    {
        match str::from_utf8(self.text()) {
            Ok(text) => text,
            Err(_) => unreachable!(),
        }
    }
}

fn is_spelled_as_token(text: &[u8]) -> bool
    ensures { result ≡ is_token text.now }
{
    !text.is_empty() && text.len() <= LONGEST_TOKEN && all_allowed(text)
}

fn all_allowed(text: &[u8]) -> bool
    ensures { result ≡ list_all is_token_byte text.now }
{
    text.iter().all(|byte| is_allowed(*byte))
}

fn is_allowed(byte: u8) -> bool
    ensures { result ≡ is_token_byte byte }
{
    byte.is_ascii_alphanumeric() || byte == b'-' || byte == b'_'
}

impl PartialEq for Token {
    ghost use Rattle.std.specs.Str.{bytes_eq};
    ghost use Rattle.std.proofs.Common.{rules};
    ghost use Rattle.std.specs.Cmp.Rules.{comparing};

    ghost eq = { bytes_eq };

    ghost laws = { Prim.search (comparing, rules) };

    fn eq(&self, other: &Token) -> bool {
        self.cmp(other).is_eq()
    }
}

impl Eq for Token {
    ghost use Rattle.std.proofs.Common.{rules};
    ghost use Rattle.std.specs.Cmp.Rules.{comparing};

    ghost laws = { Prim.search (comparing, rules) };
}

impl PartialOrd for Token {
    ghost use Rattle.std.specs.Ordering.{nat_cmp, as_partial_cmp};
    ghost use Rattle.std.specs.Cmp.Lexicographic.{slice_cmp, texts_po};

    ghost partial_cmp = { as_partial_cmp (slice_cmp nat_cmp) };

    ghost laws = { texts_po };

    fn partial_cmp(&self, other: &Token) -> Option<Ordering> {
        Some(self.cmp(other))
    }
}

impl Ord for Token {
    ghost use Rattle.std.specs.Ordering.{nat_cmp};
    ghost use Rattle.std.proofs.Common.{rules};
    ghost use Rattle.std.specs.Cmp.Rules.{comparing};
    ghost use Rattle.std.specs.Cmp.Lexicographic.{slice_cmp, nat_list_cmp_total, texts_ties};

    ghost cmp = { slice_cmp nat_cmp };

    ghost total = { nat_list_cmp_total };

    ghost matches_partial_cmp = { Prim.search (comparing, rules) };

    ghost matches_eq = { texts_ties };

    fn cmp(&self, other: &Token) -> Ordering {
        // A text is ordered as its array, since zeros are below each byte of a token.
        words::order(&self.bytes, &other.bytes)
    }
}

impl Hash for Token {
    ghost use Rattle.std.proofs.Common.{rules};
    ghost use Rattle.std.specs.Cmp.Rules.{hashing};
    ghost use Rattle.std.specs.Hash as fed;

    ghost hash_input = { fed.slice fed.u8 };

    ghost respects_eq = { Prim.search (hashing, rules) };

    fn hash<H: Hasher>(&self, state: &mut H) {
        self.text().hash(state);
    }
}
