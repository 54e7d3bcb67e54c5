//! Bytes that are taken from their start.

ghost use Rattle.std.specs.Prelude.{◌≡◌, ◌≤◌, length, drop};

use crate::Bytes;
use std::marker::Model;

/// Bytes of which the first ones were taken, seen as the others.
#[derive(Drop)]
pub(crate) struct Rest {
    bytes: Vec<u8>,
    /// How many were taken.
    at: usize,
}

impl Model for Rest {
    ghost use Rattle.std.specs.Prelude.{ℕ, ◌≤◌, List, drop, vec_len};

    ghost Value = { List ℕ };

    ghost view = { λ rest. drop rest.at rest.bytes.items };

    ghost invariant = { λ rest. rest.at ≤ vec_len rest.bytes };
}

impl Rest {
    /// Bytes of which none was taken.
    pub(crate) fn new(bytes: Bytes) -> Rest
        ensures { result ≡ bytes }
    {
        Rest {
            bytes: bytes.into_vec(),
            at: 0,
        }
    }

    /// The bytes that weren't taken.
    pub(crate) fn as_slice(&self) -> &[u8]
        ensures { result.now ≡ self.now }
    {
        &self.bytes.as_slice()[self.at..]
    }

    /// Takes `count` bytes.
    pub(crate) fn pass(&mut self, count: usize)
        requires { count ≤ length self.old }
        ensures { self.new ≡ drop count self.old }
    {
        self.at += count;
    }
}
