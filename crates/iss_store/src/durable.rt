//! A record that lasts.
ghost use Rattle.std.specs.Prelude.{◌≡◌};
ghost use Rattle.iss_opening.specs.Numbers.{AreNumbered};

use iss_model::Entry;
use std::marker::Model;

/// What a committed record has to say. A commit alone makes one, and a release takes it. Contracts see the record's number,
/// its entries, and whether it is a time that is told so. Its calls and notices are numbered from 1.
#[derive(Drop)]
pub struct Durable {
    pub(crate) number: u32,
    pub(crate) entries: Vec<Entry>,
    pub(crate) is_time: bool,
}

impl Model for Durable {
    ghost use Rattle.iss_store.specs.Values.{DurableNow};

    ghost Value = { DurableNow };

    ghost view = { λ d. record { number = d.number; entries = d.entries.items; is_time = d.is_time } };

    ghost use Rattle.iss_opening.specs.Numbers.{AreNumbered};

    ghost invariant = { λ d. AreNumbered d.entries.items };
}

impl Durable {
    /// The entries of the record, in their order.
    pub fn entries(&self) -> &[Entry]
        ensures value { result.now ≡ self.now.entries }
        ensures numbered { AreNumbered result.now }
    {
        &self.entries
    }
}
