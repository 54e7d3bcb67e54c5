//! A record that was taken up settles what is due, and then makes its own entries.
ghost use Rattle.std.specs.Prelude.{◌≡◌, [], OnOk, IsTrue};
ghost use Rattle.iss_model.specs.Forms.{is_in_form, is_stamp};
ghost use Rattle.iss_model.specs.rules.Stepping.{after_due, own_entries};
ghost use Rattle.iss_model.specs.state.Cores.{core_keeper};
ghost use Rattle.iss_core.specs.States.{facts_of, kept_state};
ghost use Rattle.iss_core.specs.Sound.{IsTakenUp};
ghost use Rattle.iss_core.specs.Sweeps.{growth_of, settle_one, with_own_entries};
ghost use Rattle.iss_core.specs.Adding.{Adds};

use crate::due::Due;
use crate::state::State;
use iss_model::{Entry, Record};
use std::alloc::{AllocError, Global};

impl State {
    /// Settles all that is due at the record's stamp, and adds the entries to none.
    pub(crate) fn settle_due(
        &mut self,
        alloc: Global,
        out: &mut Vec<Entry>,
        accepted: &Record,
    ) -> Result<(), AllocError>
        requires taken_up { IsTakenUp accepted.now.input (kept_state self.old) }
        requires stamp { IsTrue (is_stamp accepted.now.at) }
        requires empty { out.old.items ≡ [] }
        ensures settled { OnOk result (growth_of self.new out.new ≡ after_due core_keeper (kept_state self.old) accepted.now.at) }
        ensures taken_up { OnOk result (IsTakenUp accepted.now.input (kept_state self.new)) }
    {
        if !self.is_due(accepted.at) {
            return Ok(());
        }
        let due = self.due(alloc, accepted.at)?;
        for thing in &due {
            self.settle(alloc, out, thing, accepted)?;
        }
        Ok(())
    }

    /// Settles a due thing, and adds its entries.
    fn settle(
        &mut self,
        alloc: Global,
        out: &mut Vec<Entry>,
        thing: &Due,
        accepted: &Record,
    ) -> Result<(), AllocError>
        requires taken_up { IsTakenUp accepted.now.input (kept_state self.old) }
        requires stamp { IsTrue (is_stamp accepted.now.at) }
        ensures settled { OnOk result (growth_of self.new out.new ≡ settle_one accepted.now.at (growth_of self.old out.old) thing.now) }
        ensures taken_up { OnOk result (IsTakenUp accepted.now.input (kept_state self.new)) }
    {
        let start = out.len();
        self.put_due(alloc, out, thing, accepted.at)?;
        self.enter_all(alloc, &out[start..])
    }

    /// Makes the record's own entries, enters them, and adds them.
    pub(crate) fn make(
        &mut self,
        alloc: Global,
        out: &mut Vec<Entry>,
        accepted: &Record,
    ) -> Result<(), AllocError>
        requires taken_up { IsTakenUp accepted.now.input (kept_state self.old) }
        requires input_form { IsTrue (is_in_form accepted.now.input) }
        requires stamp { IsTrue (is_stamp accepted.now.at) }
        ensures entries { OnOk result (Adds out.old out.new (own_entries accepted.now (facts_of self.old))) }
        ensures state { OnOk result (kept_state self.new ≡ with_own_entries (kept_state self.old) accepted.now) }
    {
        let start = out.len();
        self.put_own(alloc, out, accepted)?;
        self.enter_all(alloc, &out[start..])
    }
}
