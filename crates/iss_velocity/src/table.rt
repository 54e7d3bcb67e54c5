//! The controls, with what they have counted.
ghost use Rattle.std.specs.Prelude.{◌≡◌, ◌∷◌, ◌++◌, [], true, None, IsTrue, map, IfOk, OnOk, OnErr, IsSome, List, ℕ};
ghost use Rattle.std.specs.List.{flat_map, list_all, position};
ghost use Rattle.std.specs.Str.{bytes_eq};
ghost use Rattle.std.specs.Option.{option_copied};
ghost use Rattle.std.specs.BTreeMap as tree;
ghost use Rattle.iss_model.specs.Forms.{is_stamp};
ghost use Rattle.iss_model.specs.state.Cores.{control_facts, with_control};
ghost use Rattle.iss_model.specs.rules.Asks.{used_by};
ghost use Rattle.iss_model.specs.rules.Reasons.{is_full};
ghost use Rattle.iss_velocity.specs.Words.{breach_of, used_of};
ghost use Rattle.iss_velocity.specs.Puts.{first_put, kept_named, put_reason, reason_among, control_result_reason, kept_after_change, standing_named, standing_after_change};
ghost use Rattle.iss_velocity.specs.Lists.{rising_from};
ghost use Rattle.iss_velocity.specs.Counting.{counters_at, by_name};
ghost use Rattle.iss_velocity.specs.Keeping.{has_no_zero, used_on, controls_in, IsTable, HaveSmallSums, is_users_plain};
ghost use Rattle.iss_velocity.specs.Showing.{counted_entry, entries_of_control, controls_restored, may_restore};
ghost use Rattle.iss_velocity.specs.Noted.{controls_after_use};

use crate::controls::ControlFault;
use crate::counted::Counted;
use crate::counters::{Counter, Counters, counter_at, find_at, next_after, used_by};
use crate::past::{Past, put_past};
use crate::rows::{rows_of, shown};
use crate::spans::{Spans, is_single};
use crate::standing::{Change, Limits, Standing};
use iss_model::limits::MOST_OF_A_KIND;
use iss_model::{Control, Token, UsageRow, Used};
use iss_scope::Groups;
use std::alloc::{AllocError, Global};
use std::collections::BTreeMap;

/// The controls in the order of their first records, the counters of each user, and the spans that have passed.
#[derive(Drop)]
pub(crate) struct Table {
    pub(crate) controls: Vec<Standing>,
    pub(crate) users: BTreeMap<Token, Counters>,
    pub(crate) past: Past,
}

impl Table {
    /// Adds a row to what each control that counts it has counted.
    pub(crate) fn note(
        &mut self,
        alloc: Global,
        groups: &Groups,
        row: &UsageRow,
    ) -> Result<(), AllocError>
        requires stamp { IsTrue (is_stamp row.now.at) }
        requires keyed { IsTable self.old }
        requires small { HaveSmallSums (controls_after_use groups.now row.now (controls_in self.old)) }
        ensures keyed { IsTable self.new }
        ensures noted { OnOk result (controls_in self.new ≡ controls_after_use groups.now row.now (controls_in self.old)) }
        ensures refused { OnErr result (controls_in self.new ≡ controls_in self.old) }
    {
        if self.controls.is_empty() {
            return Ok(());
        }
        if let Some(counters) = self.users.get_mut(&row.user) {
            return counters.note(&mut self.past, &self.controls, groups, row);
        }
        begin(&mut self.users, alloc, &row.user)?;
        let Some(counters) = self.users.get_mut(&row.user) else {
            unreachable!()
        };
        counters.note(&mut self.past, &self.controls, groups, row)?;
        Ok(())
    }

    /// The name of the first control that declines a row of an authorisation or not.
    pub(crate) fn breach(&self, groups: &Groups, row: &UsageRow, first: bool) -> Option<Token>
        requires stamp { IsTrue (is_stamp row.now.at) }
        requires keyed { IsTable self.now }
        ensures { result ≡ breach_of groups.now (map control_facts (controls_in self.now)) row.now first }
    {
        if self.controls.is_empty() {
            return None;
        }
        let spans = Spans::new(row.at, row.origin);
        let counters = self.counters_of(&row.user);
        let mut next = 0;
        for (place, standing) in self.controls.iter().enumerate() {
            let counter = counter_at(counters, next, place);
            next = next_after(counters, next, place);
            if !standing.may_decline(groups, row) {
                continue;
            }
            let number = spans.number(standing.control.window, standing.control.offset);
            let used = used_by(counter, &self.past, &row.user, place, number);
            if standing.is_over(used, row, first) {
                return Some(standing.control.name);
            }
        }
        None
    }

    /// What the control of a name has counted of a user in the window of a stamp.
    pub(crate) fn used(&self, name: &Token, user: &Token, at: u64) -> Option<Used>
        requires stamp { IsTrue (is_stamp at) }
        requires keyed { IsTable self.now }
        ensures { result ≡ used_of (map control_facts (controls_in self.now)) name.now user.now at }
    {
        for (place, standing) in self.controls.iter().enumerate() {
            if standing.control.name == *name {
                return Some(self.used_at(place, standing, user, at));
            }
        }
        None
    }

    /// What the control at a place has counted of a user in the window of a stamp.
    fn used_at(&self, place: usize, standing: &Standing, user: &Token, at: u64) -> Used
        requires stamp { IsTrue (is_stamp at) }
        requires keyed { IsTable self.now }
        ensures { result ≡ used_on self.now.users self.now.past place standing.now user.now at }
    {
        let unused = Used {
            amount: 0,
            count: 0,
        };
        if is_single(standing.control.window) {
            return unused;
        }
        let number = Spans::new(at, 0).number(standing.control.window, standing.control.offset);
        let counter = find_at(self.counters_of(user), place);
        used_by(counter, &self.past, user, place, number).unwrap_or(unused)
    }

    /// What each control has counted.
    pub(crate) fn counters(&self, alloc: Global) -> Result<Vec<Counted>, AllocError>
        requires keyed { IsTable self.now }
        ensures counters { IfOk result (λ v. map counted_entry v.items ≡ flat_map entries_of_control (controls_in self.now)) }
        ensures named { IfOk result (λ v. list_all (λ c. has_no_zero c.user) v.items ≡ true) }
    {
        let rows = rows_of(&self.users, &self.past, alloc)?;
        shown(&self.controls, &rows, alloc)
    }

    /// Takes up again what the control of a name has counted of a user in the span of a number.
    pub(crate) fn restore(
        &mut self,
        name: &Token,
        user: &Token,
        number: i64,
        used: Used,
    ) -> Result<(), AllocError>
        requires keyed { IsTable self.old }
        requires new { may_restore user.now number (kept_named name.now (controls_in self.old)) ≡ true }
        ensures keyed { IsTable self.new }
        ensures restored { OnOk result (controls_in self.new ≡ controls_restored name.now user.now number used (controls_in self.old)) }
        ensures refused { OnErr result (controls_in self.new ≡ controls_in self.old) }
    {
        let Some(place) = place_of(&self.controls, name) else {
            unreachable!()
        };
        put_past(&mut self.past, user, place, number, used)?;
        Ok(())
    }

    /// The control of a name.
    pub(crate) fn standing(&self, name: &Token) -> Option<&Standing>
        ensures { option_copied result ≡ standing_named name.now self.now.controls.items }
    {
        self.controls
            .iter()
            .find(|standing| standing.control.name == *name)
    }

    /// Puts a control, with the number of its record.
    pub(crate) fn put(&mut self, number: u32, control: &Control) -> Result<(), ControlFault>
        requires keyed { IsTable self.old }
        ensures keyed { IsTable self.new }
        ensures put { OnOk result (controls_in self.new ≡ with_control (controls_in self.old) (first_put number control.now)) }
        ensures refused { OnErr result (controls_in self.new ≡ controls_in self.old) }
        ensures reason { control_result_reason result ≡ reason_among (controls_in self.old) control.now }
    {
        let Some(standing) = self.standing(&control.name) else {
            return self.add(number, control);
        };
        if !standing.is_fixed_as(control) {
            return Err(ControlFault::Fixed);
        }
        let limits = Limits {
            amount: control.amount_limit,
            usage: control.usage_limit,
        };
        self.change(
            &control.name,
            &Change {
                limits: Some(limits),
                active: Some(control.active),
            },
        );
        Ok(())
    }

    /// Whether there are as many controls as there may be.
    #[tactic(auto, using(crate::proofs::Putting::full_is))]
    pub(crate) fn is_full(&self) -> bool
        ensures { result ≡ is_full (controls_in self.now) }
    {
        self.controls.len() >= MOST_OF_A_KIND
    }

    /// Adds a control of a new name.
    fn add(&mut self, number: u32, control: &Control) -> Result<(), ControlFault>
        requires keyed { IsTable self.old }
        requires new { kept_named control.now.name (controls_in self.old) ≡ None }
        ensures keyed { IsTable self.new }
        ensures put { OnOk result (controls_in self.new ≡ with_control (controls_in self.old) (first_put number control.now)) }
        ensures refused { OnErr result (controls_in self.new ≡ controls_in self.old) }
        ensures reason { control_result_reason result ≡ put_reason None (controls_in self.old) control.now }
    {
        if self.controls.len() >= MOST_OF_A_KIND {
            return Err(ControlFault::Limit);
        }
        let standing = Standing {
            first: number,
            control: *control,
        };
        push(&mut self.controls, &standing)?;
        Ok(())
    }

    /// Changes the control of a name.
    pub(crate) fn change(&mut self, name: &Token, change: &Change)
        requires keyed { IsTable self.old }
        ensures keyed { IsTable self.new }
        ensures changed { controls_in self.new ≡ map (kept_after_change name.now change.now) (controls_in self.old) }
    {
        change_all(&mut self.controls, name, change);
    }

    /// The counters of a user.
    #[tactic(auto, using(crate::proofs::KeyOrder::token_plain))]
    pub(crate) fn counters_of(&self, user: &Token) -> &[Counter]
        ensures value { result.now ≡ counters_at self.now.users user.now }
        ensures rising { rising_from 0 result.now ≡ true }
        ensures name { has_no_zero user.now ≡ true }
    {
        // A name has no byte 0, so a key tells where it ends.
        let _name = user.text();
        match self.users.get(user) {
            Some(counters) => counters.as_slice(),
            None => &[],
        }
    }
}

/// Adds a thing after the others.
pub(crate) fn push<T: Copy + Drop>(things: &mut Vec<T>, thing: &T) -> Result<(), AllocError>
    ensures pushed { OnOk result (things.new.items ≡ things.old.items ++ thing.now ∷ []) }
    ensures refused { OnErr result (things.new.items ≡ things.old.items) }
{
    things.push(*thing)?;
    Ok(())
}

/// Changes each control of a name.
fn change_all(controls: &mut Vec<Standing>, name: &Token, change: &Change)
    ensures { controls.new.items ≡ map (standing_after_change name.now change.now) controls.old.items }
{
    for i in 0..controls.len() {
        controls[i] = controls[i].after(name, change);
    }
}

/// Makes room for the counters of a user.
#[tactic(auto, using(crate::proofs::KeyOrder::token_plain))]
fn begin(
    users: &mut BTreeMap<Token, Counters>,
    alloc: Global,
    user: &Token,
) -> Result<(), AllocError>
    requires plain { is_users_plain users.old ≡ true }
    requires ordered { tree.IsOrdered by_name users.old }
    ensures same { (u : List ℕ) → counters_at users.new u ≡ counters_at users.old u }
    ensures plain { is_users_plain users.new ≡ true }
    ensures ordered { tree.IsOrdered by_name users.new }
    ensures name { has_no_zero user.now ≡ true }
    ensures stands { OnOk result (IsSome (tree.get by_name users.new user.now)) }
{
    // A name has no byte 0, so a key tells where it ends.
    let _name = user.text();
    if !users.contains_key(user) {
        users.insert(*user, Counters::new(alloc))?;
    }
    Ok(())
}

/// The place of the control of a name.
fn place_of(controls: &[Standing], name: &Token) -> Option<usize>
    ensures { result ≡ position (λ s. bytes_eq s.control.name name.now) controls.now }
{
    controls
        .iter()
        .position(|standing| standing.control.name == *name)
}
