//! The core: it judges inputs and takes up records.
ghost use Rattle.std.specs.Prelude.{◌≡◌, ◌<◌, List, [], IfOk, IsTrue};
ghost use Rattle.iss_model.specs.declared.limits.TheConstants.{INSTANCES, MOST_RECORDS};
ghost use Rattle.iss_model.specs.declared.input.Record.{Record};
ghost use Rattle.iss_model.specs.Forms.{is_in_form, is_stamp};
ghost use Rattle.iss_model.specs.rules.Judging.{judge};
ghost use Rattle.iss_model.specs.state.Cores.{no_core, core_keeper};
ghost use Rattle.iss_core.specs.Values.{CoreStandsFor, IsNext, GivesNext, GivesInForm, Steps, StepsOnBook, judged_on};

use crate::state::State;
use iss_model::{Entry, Input, Judged, Record};
use std::alloc::{AllocError, Global};
use std::marker::Model;

/// How many entries a purchase makes that the user's own balance pays.
const PURCHASE_ENTRIES: usize = 4;

/// The decision engine of one instance. Contracts see its instance, and the state that the model keeps in place of the
/// book. A core *stands for* records if its state is like the one that they make. Each call then also answers as the book
/// of these records does.
#[derive(Drop)]
pub struct Core {
    pub(crate) instance: u64,
    pub(crate) state: Box<State>,
}

impl Model for Core {
    ghost use Rattle.std.specs.Coded.{codes};
    ghost use Rattle.iss_model.specs.state.Kept.{kept_code};
    ghost use Rattle.iss_core.specs.Values.{CoreNow};

    ghost Value = { CoreNow };

    ghost coded = { Prim.hlevel (codes, kept_code) };

    ghost use Rattle.iss_core.specs.States.{kept_state};
    ghost use Rattle.iss_core.specs.Sound.{IsSound};

    ghost view = { λ c. record { instance = c.instance; state = kept_state c.state.value } };

    ghost invariant = { λ c. IsSound (kept_state c.state.value) };
}

impl Core {
    /// A core without a record, for the device of this instance.
    pub fn new(alloc: Global, instance: u64) -> Result<Core, AllocError>
        requires { instance < INSTANCES }
        ensures value { IfOk result (λ c. c ≡ record { instance = instance; state = no_core }) }
        ensures stands { IfOk result (λ c. CoreStandsFor c []) }
    {
        Ok(Core {
            instance,
            state: Box::new(alloc, State::new(alloc)?)?,
        })
    }

    /// Whether an input is new at a stamp, and its answer if it isn't. The stamp counts as the core's time if
    /// it is earlier.
    ///
    /// A new input is returned as its record. If an input other than an acknowledgement isn't new and something is due,
    /// the record of a time is returned. It goes before the input's answer.
    pub fn judge(&self, alloc: Global, input: &Input, at: u64) -> Result<Judged, AllocError>
        requires input_form { IsTrue (is_in_form input.now) }
        requires stamp { IsTrue (is_stamp at) }
        ensures judged { IfOk result (λ j. j ≡ judge core_keeper self.now.state input.now at) }
        ensures next { IfOk result (GivesNext self.now) }
        ensures in_form { IfOk result GivesInForm }
        ensures on_book { (rs : List Record) → CoreStandsFor self.now rs
            → IfOk result (λ j. j ≡ judged_on rs input.now at) }
    {
        self.state.judge(alloc, input, at.max(self.state.time))
    }

    /// Takes up a record that is next, and returns the core after it with the entries that it makes. First come those of
    /// all that is due at its stamp, and then its own. If an allocation fails, the core is gone.
    pub fn step(
        mut self,
        alloc: Global,
        accepted: &Record,
    ) -> Result<(Core, Vec<Entry>), AllocError>
        requires next { IsNext self accepted.now }
        requires input_form { IsTrue (is_in_form accepted.now.input) }
        requires stamp_form { IsTrue (is_stamp accepted.now.at) }
        requires room { self.state.count < MOST_RECORDS }
        ensures stepped { IfOk result (λ x. Steps self x.0 accepted.now x.1.items) }
        ensures on_book { (rs : List Record) → CoreStandsFor self rs
            → IfOk result (λ x. StepsOnBook x.0 rs accepted.now x.1.items) }
    {
        let mut entries = Vec::with_capacity(alloc, PURCHASE_ENTRIES)?;
        self.state.take_up(accepted)?;
        self.state.settle_due(alloc, &mut entries, accepted)?;
        self.state.make(alloc, &mut entries, accepted)?;
        Ok((self, entries))
    }
}
