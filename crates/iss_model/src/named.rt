//! Things that have a name.
ghost use Rattle.std.specs.Prelude.{◌≡◌, List, ℕ};

use crate::{Card, Token, User};

/// A thing with a name. Contracts see the name's bytes as `name_of`.
pub trait Named {
    ghost name_of: { Self → List ℕ };

    /// The name.
    fn name(&self) -> &Token
        ensures { result.now ≡ name_of self.now };
}

impl Named for User {
    ghost name_of = { λ user. user.name };

    fn name(&self) -> &Token {
        &self.name
    }
}

impl Named for Card {
    ghost name_of = { λ card. card.name };

    fn name(&self) -> &Token {
        &self.name
    }
}
