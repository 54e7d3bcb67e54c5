//! What a turn writes into the half that it makes the current one.

ghost use Rattle.std.specs.Prelude.{◌≡◌, ◌^◌, ◌<◌, ◌≤◌, length, IfOk};
ghost use Rattle.iss_halves.specs.Turning.{half_bytes};
ghost use Rattle.iss_halves.specs.declared.layout.TheConstants.{BESIDE_IMAGE};

use crate::layout::BESIDE_IMAGE;
use std::alloc::{AllocError, Global};
use std::marker::Model;

/// A gate after which no record stands.
const CLOSED: u8 = 0;

/// An image with its length before it, in four bytes with the highest first, and a closed gate after it.
#[derive(Debug, Drop)]
pub struct Half {
    bytes: Vec<u8>,
}

impl Model for Half {
    ghost use Rattle.std.specs.Prelude.{List, ℕ, ◌≤◌, length};
    ghost use Rattle.iss_halves.specs.declared.layout.TheConstants.{BESIDE_IMAGE};

    ghost Value = { List ℕ };

    ghost view = { λ h. h.bytes.items };

    ghost invariant = { λ h. BESIDE_IMAGE ≤ length h.bytes.items };
}

impl Half {
    /// The half of this image, of less than 2^32 bytes. It copies them.
    pub fn of(alloc: Global, image: &[u8]) -> Result<Half, AllocError>
        requires { length image.now < 2 ^ 32 }
        ensures { IfOk result (λ half. half ≡ half_bytes image.now) }
    {
        let length = image.len() as u32;
        let mut bytes = Vec::with_capacity(alloc, image.len() + BESIDE_IMAGE as usize)?;
        bytes.extend_from_slice(&length.to_be_bytes())?;
        bytes.extend_from_slice(image)?;
        bytes.push(CLOSED)?;
        Ok(Half { bytes })
    }

    /// How many bytes it has.
    pub fn size(&self) -> u64
        ensures { result ≡ length self.now }
    {
        self.bytes.len() as u64
    }

    /// All of the bytes.
    pub fn as_slice(&self) -> &[u8]
        ensures bytes { result.now ≡ self.now }
        ensures some { BESIDE_IMAGE ≤ length result.now }
    {
        self.bytes.as_slice()
    }
}
