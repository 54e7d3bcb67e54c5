//! The codes of a merchant group.
ghost use Rattle.std.specs.Prelude.{◌≡◌};

use std::alloc::AllocError;
use std::marker::Model;

/// Merchant category codes, rising and none twice. Contracts see their list.
#[derive(Drop)]
pub struct Mccs {
    codes: Vec<u16>,
}

impl Model for Mccs {
    ghost use Rattle.std.specs.Prelude.{List, ℕ};

    ghost Value = { List ℕ };

    ghost view = { λ m. m.codes.items };
}

impl Mccs {
    /// The codes of a list that rises.
    pub fn from_rising(codes: Vec<u16>) -> Mccs
        ensures { result ≡ codes.items }
    {
        Mccs { codes }
    }

    pub fn as_slice(&self) -> &[u16]
        ensures { result.now ≡ self.now }
    {
        &self.codes
    }
}

impl Clone for Mccs {
    ghost is_clone = { λ codes copy. copy ≡ codes };

    fn clone(&self) -> Result<Mccs, AllocError> {
        let codes = self.codes.clone()?;
        Ok(Mccs { codes })
    }
}

impl PartialEq for Mccs {
    ghost use Rattle.std.specs.Str.{bytes_eq};
    ghost use Rattle.std.proofs.Common.{rules};
    ghost use Rattle.std.specs.Cmp.Rules.{comparing};

    ghost eq = { bytes_eq };

    ghost laws = { Prim.search (comparing, rules) };

    fn eq(&self, other: &Mccs) -> bool {
        self.as_slice() == other.as_slice()
    }
}
