//! A device that was opened.
ghost use Rattle.std.specs.Prelude.{◌≡◌};
ghost use Rattle.iss_opening.specs.Values.{IsStore};

use iss_core::Core;
use iss_halves::Halves;
use iss_journal::Journal;
use std::marker::Model;

/// What was opened: the core of all that stands on a device, its journal, its layout, and how many of its records are in the image alone.
#[derive(Drop)]
pub struct Opened {
    core: Core,
    journal: Journal,
    halves: Halves,
    point: u32,
}

impl Model for Opened {
    ghost use Rattle.std.specs.Coded.{codes};
    ghost use Rattle.iss_model.specs.state.Kept.{kept_code};
    ghost use Rattle.iss_opening.specs.Values.{StoreNow, IsStore};

    ghost Value = { StoreNow };

    ghost coded = { Prim.hlevel (codes, kept_code) };

    ghost view = { λ o. record { core = o.core; place = o.journal; layout = o.halves; point = o.point } };

    ghost invariant = { λ o. IsStore (record { core = o.core; place = o.journal; layout = o.halves; point = o.point }) };
}

impl Opened {
    /// What these make, as a reading found them.
    pub(crate) fn new(core: Core, journal: Journal, halves: Halves, point: u32) -> Opened
        requires { IsStore (record { core = core; place = journal; layout = halves; point = point }) }
        ensures { result ≡ record { core = core; place = journal; layout = halves; point = point } }
    {
        Opened {
            core,
            journal,
            halves,
            point,
        }
    }

    /// What stands.
    pub fn core(&self) -> &Core
        ensures { result.now ≡ self.now.core }
    {
        &self.core
    }

    /// The core, the journal, the layout and the point.
    pub fn into_parts(self) -> (Core, Journal, Halves, u32)
        ensures core { result.0 ≡ self.core }
        ensures journal { result.1 ≡ self.place }
        ensures halves { result.2 ≡ self.layout }
        ensures point { result.3 ≡ self.point }
        ensures sound { IsStore self }
    {
        (self.core, self.journal, self.halves, self.point)
    }
}
