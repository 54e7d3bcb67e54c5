//! A core that is made again from what a core keeps.
ghost use Rattle.std.specs.Prelude.{◌≡◌, ◌↔◌, ◌<◌, List, fold, IsTrue, IsSome, IfSome, IfOk, OnOk};
ghost use Rattle.iss_model.specs.declared.limits.TheConstants.{INSTANCES};
ghost use Rattle.iss_model.specs.declared.input.Record.{Record};
ghost use Rattle.iss_model.specs.rules.Histories.{IsLegal};
ghost use Rattle.iss_model.specs.state.Cores.{no_core};
ghost use Rattle.iss_states.specs.Rebuilding.{rebuilt};
ghost use Rattle.iss_states.specs.Showing.{shown};
ghost use Rattle.iss_rebuilt.specs.Sums.{AreRecords};
ghost use Rattle.iss_well_formed.specs.Events.{with_seen_setting};
ghost use Rattle.iss_known.specs.Known.{IsKnownOf};
ghost use Rattle.iss_sound.specs.Sound.{IsSoundButSettings, IsSoundState};
ghost use Rattle.iss_core.specs.Restoring.{IsStateOf, StandsIfMade};
ghost use Rattle.iss_core.specs.States.{kept_state};

use crate::Core;
use crate::state::State;
use iss_known::Known;
use iss_restored::chain_again;
use iss_restored_lists::{
    calls_again, counters_again, events_again, notices_again, stand_ins_again,
};
use iss_sound::known_if_sound;
use std::alloc::{AllocError, Global};

impl Core {
    /// The core that shows this state, for the device of this instance. `None` exactly if the state isn't sound.
    ///
    /// Each setting and each load is judged by those before it, and each setting that is done is taken up.
    pub fn restore(
        alloc: Global,
        state: &iss_model::State,
        instance: u64,
    ) -> Result<Option<Core>, AllocError>
        requires { instance < INSTANCES }
        ensures sound { IfOk result (λ made. IsSome made ↔ IsSoundState state.entry.now) }
        ensures made { IfOk result (λ made. IfSome made (λ c. c ≡ record { instance = instance; state = rebuilt state.entry.now })) }
        ensures shows { IfOk result (λ made. IfSome made (λ c. shown c.state ≡ state.entry.now)) }
        ensures stands { (rs : List Record) → IsLegal rs → AreRecords rs → IsStateOf rs state.entry.now
            → IfOk result (StandsIfMade rs) }
    {
        let mut again = Box::new(alloc, State::new(alloc)?)?;
        if !again.restore(alloc, state)? {
            return Ok(None);
        }
        Ok(Some(Core {
            instance,
            state: again,
        }))
    }
}

impl State {
    /// Takes up what a state keeps, if that is sound. Returns whether it is.
    fn restore(&mut self, alloc: Global, state: &iss_model::State) -> Result<bool, AllocError>
        requires { kept_state self.old ≡ no_core }
        ensures sound { IfOk result (λ sound. IsTrue sound ↔ IsSoundState state.entry.now) }
        ensures made { IfOk result (λ sound. IsTrue sound → kept_state self.new ≡ rebuilt state.entry.now) }
    {
        match known_if_sound(alloc, state)? {
            None => Ok(false),
            Some(known) => self.restore_known(alloc, state, known),
        }
    }

    /// Takes up what a state keeps, if its settings and loads are decided as those before them have it. Returns whether
    /// they are.
    fn restore_known(
        &mut self,
        alloc: Global,
        state: &iss_model::State,
        known: Known,
    ) -> Result<bool, AllocError>
        requires new { kept_state self.old ≡ no_core }
        requires sound { IsSoundButSettings state.now }
        requires known { IsKnownOf known (rebuilt state.now) }
        ensures sound { IfOk result (λ sound. IsTrue sound ↔ IsSoundState state.entry.now) }
        ensures made { IfOk result (λ sound. IsTrue sound → kept_state self.new ≡ rebuilt state.entry.now) }
    {
        if !self.take_up_settings(alloc, &state.events.0)? {
            return Ok(false);
        }
        self.take_up_rest(alloc, state, known)?;
        Ok(true)
    }

    /// Takes up all else that a state keeps, when its settings are taken up. What is known is let go as soon as
    /// nothing asks for it, since it is large.
    fn take_up_rest(
        &mut self,
        alloc: Global,
        state: &iss_model::State,
        known: Known,
    ) -> Result<(), AllocError>
        requires set { kept_state self.old ≡ fold with_seen_setting no_core state.now.events }
        requires sound { IsSoundButSettings state.now }
        requires known { IsKnownOf known (rebuilt state.now) }
        ensures { OnOk result (kept_state self.new ≡ rebuilt state.entry.now) }
    {
        counters_again(state, &known, &mut self.controls)?;
        stand_ins_again(state, &mut self.sets)?;
        self.calls = calls_again(alloc, state, &known)?;
        let txns = known.into_txns();
        self.chain = chain_again(alloc, state, &txns)?;
        drop(txns);
        self.events = events_again(alloc, state)?;
        self.notices = notices_again(alloc, state)?;
        self.time = state.now;
        self.count = state.records;
        Ok(())
    }
}
