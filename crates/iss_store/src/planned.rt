//! A record that is new on a store and fits its device.
ghost use Rattle.std.specs.Prelude.{◌≡◌};
ghost use Rattle.iss_store.specs.Values.{is_told_time};

use iss_halves::Half;
use iss_journal::Frame;
use iss_model::{Input, Record};
use std::marker::Model;

/// A record that can be committed: it is spelled and framed already. If it needs a turn, so is the image that the turn writes.
/// Contracts see the record, whether it is a time record that goes before the answer of an input that isn't new, and the bytes of
/// the half for a turn.
#[derive(Drop)]
pub struct Planned {
    pub(crate) accepted: Record,
    pub(crate) is_clock: bool,
    pub(crate) frame: Frame,
    pub(crate) half: Option<Half>,
}

impl Model for Planned {
    ghost use Rattle.iss_store.specs.Values.{Plan};

    ghost Value = { Plan };

    ghost view = { λ p. record { accepted = p.accepted; is_clock = p.is_clock; half = p.half } };

    ghost use Rattle.iss_store.specs.Values.{IsFramed};

    ghost invariant = { λ p. IsFramed p.accepted p.frame };
}

impl Planned {
    /// Whether the record is a time record, after which the input is to be planned again.
    pub fn more(&self) -> bool
        ensures { result ≡ self.now.is_clock }
    {
        self.is_clock
    }

    /// Whether the record is a time that is told so.
    pub(crate) fn is_told_time(&self) -> bool
        ensures { result ≡ is_told_time self.now }
    {
        match self.accepted.input {
            Input::Time => !self.is_clock,
            _ => false,
        }
    }
}
