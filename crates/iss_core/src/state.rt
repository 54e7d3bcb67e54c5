//! The parts that a core is made of.
ghost use Rattle.std.specs.Prelude.{◌≡◌, ◌+◌, ◌^◌, ◌<◌, IfOk, OnOk, IsTrue};
ghost use Rattle.iss_model.specs.Forms.{is_in_form, is_stamp};
ghost use Rattle.iss_model.specs.state.Cores.{no_core, with_record};
ghost use Rattle.iss_accepted.specs.Values.{IsUnknown};
ghost use Rattle.iss_core.specs.States.{kept_state};

use iss_accepted::Events;
use iss_call::Calls;
use iss_card::Cards;
use iss_chain::Chain;
use iss_commando::Sets;
use iss_model::Record;
use iss_notice::Notices;
use iss_product::Products;
use iss_scope::Groups;
use iss_velocity::Controls;
use std::alloc::{AllocError, Global};

/// All that stands, each thing in the part that keeps it.
#[derive(Drop)]
pub(crate) struct State {
    pub(crate) time: u64,
    pub(crate) count: u32,
    pub(crate) events: Events,
    pub(crate) cards: Cards,
    pub(crate) products: Products,
    pub(crate) groups: Groups,
    pub(crate) controls: Controls,
    pub(crate) chain: Chain,
    pub(crate) calls: Calls,
    pub(crate) sets: Sets,
    pub(crate) notices: Notices,
}

impl State {
    /// The built-in product alone.
    pub(crate) fn new(alloc: Global) -> Result<State, AllocError>
        ensures { IfOk result (λ state. kept_state state ≡ no_core) }
    {
        // What may fail comes first, so that few parts are let go if it does.
        let products = Products::new(alloc)?;
        let chain = Chain::new(alloc)?;
        let calls = Calls::new(alloc)?;
        let sets = Sets::new(alloc)?;
        let notices = Notices::new(alloc)?;
        Ok(State {
            time: 0,
            count: 0,
            events: Events::new(alloc),
            cards: Cards::new(alloc),
            products,
            groups: Groups::new(alloc),
            controls: Controls::new(alloc),
            chain,
            calls,
            sets,
            notices,
        })
    }

    /// Counts a record, and notes its input if it is an event, which is a new one.
    pub(crate) fn take_up(&mut self, accepted: &Record) -> Result<(), AllocError>
        requires room { self.old.count + 1 < 2 ^ 32 }
        requires input_form { IsTrue (is_in_form accepted.now.input) }
        requires stamp_form { IsTrue (is_stamp accepted.now.at) }
        requires new { IsUnknown self.old.events accepted.now.input }
        ensures { OnOk result (kept_state self.new ≡ with_record (kept_state self.old) accepted.now) }
    {
        self.time = self.time.max(accepted.at);
        self.count += 1;
        self.events.add(self.count, accepted.at, &accepted.input)
    }
}
