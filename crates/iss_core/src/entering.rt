//! Entries are entered into the parts, one by one.
ghost use Rattle.std.specs.Prelude.{◌≡◌, fold, OnOk};
ghost use Rattle.iss_model.specs.state.Cores.{after_entry, with_closed, with_acked};
ghost use Rattle.iss_core.specs.States.{kept_state};
ghost use Rattle.iss_core.specs.Entering.{MayEnter, MayAllEnter};

use crate::state::State;
use iss_model::{CallId, Entry, How};
use std::alloc::{AllocError, Global};

impl State {
    /// Enters entries one after the other.
    #[inline(always)]
    pub(crate) fn enter_all(&mut self, alloc: Global, entries: &[Entry]) -> Result<(), AllocError>
        requires { MayAllEnter (kept_state self.old) entries.now }
        ensures { OnOk result (kept_state self.new ≡ fold after_entry (kept_state self.old) entries.now) }
    {
        for entry in entries {
            self.enter(alloc, entry)?;
        }
        Ok(())
    }

    /// Enters one entry.
    fn enter(&mut self, alloc: Global, entry: &Entry) -> Result<(), AllocError>
        requires { MayEnter (kept_state self.old) entry.now }
        ensures { OnOk result (kept_state self.new ≡ after_entry (kept_state self.old) entry.now) }
    {
        match entry {
            Entry::Conf(input) => self.configure(alloc, input),
            Entry::Began(_) | Entry::Post { .. } | Entry::Hold { .. } | Entry::Ended(_) => {
                self.chain.enter(entry)
            }
            Entry::Opened(opened) => self.calls.ask(opened),
            Entry::Closed(call, how) => {
                self.close(*call, *how);
                Ok(())
            }
            Entry::Decided(event, verdict) => self.events.decide(event, *verdict),
            Entry::Usage(row) => self.controls.note(alloc, &self.groups, row),
            Entry::Stood {
                set: _,
                product,
                user,
                amount,
                at,
            } => self.sets.note(product, user, *amount, *at),
            Entry::Notice(notice) => self.notices.add(notice),
            Entry::Acked(notice) => {
                self.acknowledge(*notice);
                Ok(())
            }
        }
    }

    fn close(&mut self, call: CallId, how: How)
        ensures { self.new ≡ record self.old { calls = with_closed self.old.calls call how } }
    {
        // A call that isn't asked stays as it is, as the rules have it.
        let _closed = self.calls.close(call, how);
    }

    #[inline(never)]
    fn acknowledge(&mut self, notice: u32)
        ensures { self.new ≡ record self.old { notices = with_acked self.old.notices notice } }
    {
        // A notice that is already acknowledged stays as it is.
        let _acknowledged = self.notices.acknowledge(notice);
    }
}
