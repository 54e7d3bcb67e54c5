//! Velocity controls.
ghost use Rattle.std.specs.Prelude.{◌≡◌, [], true, IsTrue, is_some, map, option_map, IfOk, OnOk, OnErr};
ghost use Rattle.std.specs.List.{flat_map, list_all};
ghost use Rattle.std.specs.Option.{option_copied};
ghost use Rattle.iss_model.specs.Forms.{is_stamp, is_amount};
ghost use Rattle.iss_model.specs.declared.entry.Entry.TheVariants as entry;
ghost use Rattle.iss_model.specs.rules.Reasons.{is_full};
ghost use Rattle.iss_model.specs.state.Cores.{with_control, control_after_use, control_facts};
ghost use Rattle.iss_velocity.specs.Words.{asked_use, breach_of, used_of};
ghost use Rattle.iss_velocity.specs.Puts.{kept_named, put_reason, control_after_limits, control_after_activity, control_result_reason};
ghost use Rattle.iss_velocity.specs.Keeping.{has_no_zero, HaveSmallSums};
ghost use Rattle.iss_velocity.specs.Showing.{counted_entry, entries_of_control, kept_after_restore, may_restore};

use crate::ask::Spending;
use crate::counted::Counted;
use crate::standing::{Change, Limits};
use crate::table::Table;
use iss_model::{Control, Token, UsageRow, Used};
use iss_scope::Groups;
use std::alloc::{AllocError, Global};
use std::collections::BTreeMap;
use std::marker::Model;

/// Why a control wasn't put.
#[derive(Clone, Copy, Debug, PartialEq, Eq)]
pub enum ControlFault {
    /// A control of that name stands with another currency, window, association or scope.
    Fixed,
    /// There are 256 controls.
    Limit,
    OutOfMemory,
}

/// Velocity controls in the order of their first records, with what each has counted of a user in a span.
#[derive(Drop)]
pub struct Controls {
    table: Table,
}

impl Model for Controls {
    ghost use Rattle.std.specs.Prelude.{List};
    ghost use Rattle.iss_model.specs.state.Cores.{ControlKept};
    ghost use Rattle.iss_velocity.specs.Codes.{controls_code};
    ghost use Rattle.iss_velocity.specs.Keeping.{controls_in, IsTable};

    ghost Value = { List ControlKept };

    ghost coded = { controls_code };

    ghost view = { λ c. controls_in c.table };

    ghost invariant = { λ c. IsTable c.table };
}

impl Controls {
    /// No controls. Nothing is allocated.
    pub fn new(alloc: Global) -> Controls
        ensures { result ≡ [] }
    {
        Controls {
            table: Table {
                controls: Vec::new(alloc),
                users: BTreeMap::new(alloc),
                past: BTreeMap::new(alloc),
            },
        }
    }

    /// Puts a control, with the number of its record. One that stands takes the limits and the activity, and is `Fixed`
    /// in all else. A new one stands after the others, and counts use of later transactions. `Limit` is returned if there
    /// are 256.
    pub fn put(&mut self, number: u32, control: &Control) -> Result<(), ControlFault>
        ensures put { OnOk result (self.new ≡ with_control self.old (record { number = number; control = control.now })) }
        ensures refused { OnErr result (self.new ≡ self.old) }
        ensures reason { control_result_reason result ≡ put_reason (kept_named control.now.name self.old) self.old control.now }
    {
        self.table.put(number, control)
    }

    /// Sets other limits of a control, of an amount in minor units and of a count. It returns false exactly if there is no control of that name.
    pub fn set_limit(&mut self, name: &Token, amount: Option<u64>, usage: Option<u32>) -> bool
        ensures known { result ≡ is_some (kept_named name.now self.old) }
        ensures set { self.new ≡ map (control_after_limits name.now amount usage) self.old }
    {
        let known = self.get(name).is_some();
        let limits = Limits { amount, usage };
        self.table.change(
            name,
            &Change {
                limits: Some(limits),
                active: None,
            },
        );
        known
    }

    /// Makes a control active or not. False exactly if there is no control of that name.
    pub fn set_active(&mut self, name: &Token, active: bool) -> bool
        ensures known { result ≡ is_some (kept_named name.now self.old) }
        ensures set { self.new ≡ map (control_after_activity name.now active) self.old }
    {
        let known = self.get(name).is_some();
        self.table.change(
            name,
            &Change {
                limits: None,
                active: Some(active),
            },
        );
        known
    }

    /// The control of that name, or `None` if there is none.
    pub fn get(&self, name: &Token) -> Option<&Control>
        ensures { option_copied result ≡ option_map (λ c. c.control) (kept_named name.now self.now) }
    {
        Some(&self.table.standing(name)?.control)
    }

    /// Whether there are as many controls as there may be.
    pub fn is_full(&self) -> bool
        ensures { result ≡ is_full self.now }
    {
        self.table.is_full()
    }

    /// Counts a row for each control that counts it: an active one or not. If an allocation fails, all that the calls show stays.
    pub fn note(&mut self, alloc: Global, groups: &Groups, row: &UsageRow) -> Result<(), AllocError>
        requires stamp { IsTrue (is_stamp row.now.at) }
        requires small { HaveSmallSums (map (control_after_use groups.now (entry.Usage row.now)) self.old) }
        ensures noted { OnOk result (self.new ≡ map (control_after_use groups.now (entry.Usage row.now)) self.old) }
        ensures refused { OnErr result (self.new ≡ self.old) }
    {
        self.table.note(alloc, groups, row)
    }

    /// The name of the first active control that would count an ask's use at a stamp and have counted more than a limit with it.
    pub fn breach(&self, groups: &Groups, ask: &Spending, at: u64) -> Option<Token>
        requires stamp { IsTrue (is_stamp at) }
        requires amount { IsTrue (is_amount ask.now.amount) }
        ensures { result ≡ breach_of groups.now (map control_facts self.now) (asked_use ask.now at) ask.now.first }
    {
        self.table.breach(groups, &ask.usage(at), ask.first)
    }

    /// What the control of a name has counted of a user in the window of a stamp, or `None` if there is no such control.
    /// A control of single transactions has counted nothing here.
    pub fn used(&self, name: &Token, user: &Token, at: u64) -> Option<Used>
        requires { IsTrue (is_stamp at) }
        ensures { result ≡ used_of (map control_facts self.now) name.now user.now at }
    {
        self.table.used(name, user, at)
    }

    /// What each control has counted, in the order of the controls, then of the bytes of the user's token, then of the
    /// number of the span. A span in which nothing was counted isn't shown.
    pub fn counters(&self, alloc: Global) -> Result<Vec<Counted>, AllocError>
        ensures counters { IfOk result (λ v. map counted_entry v.items ≡ flat_map entries_of_control self.now) }
        ensures named { IfOk result (λ v. list_all (λ c. has_no_zero c.user) v.items ≡ true) }
    {
        self.table.counters(alloc)
    }

    /// Takes up again what the control of a name has counted of a user in the span of a number. If an allocation fails, all
    /// stays as it was.
    pub fn restore(
        &mut self,
        name: &Token,
        user: &Token,
        number: i64,
        used: Used,
    ) -> Result<(), AllocError>
        requires { may_restore user.now number (kept_named name.now self.old) ≡ true }
        ensures restored { OnOk result (self.new ≡ map (kept_after_restore name.now user.now number used) self.old) }
        ensures refused { OnErr result (self.new ≡ self.old) }
    {
        self.table.restore(name, user, number, used)
    }
}

impl From<AllocError> for ControlFault {
    ghost use Rattle.iss_velocity.specs.declared.controls.ControlFault.TheVariants.{OutOfMemory};

    ghost from_gives = { λ _ fault. fault ≡ OutOfMemory };

    fn from(_: AllocError) -> ControlFault {
        ControlFault::OutOfMemory
    }
}
