//! A user's counters.
ghost use Rattle.std.specs.Prelude.{◌≡◌, ◌+◌, ◌+ℤ◌, ◌==◌, ℕ, true, false, IsTrue, [], map, OnOk, OnErr, IfOk};
ghost use Rattle.std.specs.Option.{option_copied};
ghost use Rattle.iss_model.specs.Forms.{is_stamp};
ghost use Rattle.iss_model.specs.state.Kept.{IsSmall};
ghost use Rattle.iss_velocity.specs.Counting.{at_place, in_span, or_else, past_at, used_more, counter_then};
ghost use Rattle.iss_velocity.specs.Lists.{rising_from, IsSplit, AreAllReady};
ghost use Rattle.iss_velocity.specs.Keeping.{has_no_zero, IsSmallUse, StaySmall, FitsMore, FitMore, StaysSame, IsKeptPast, IsTurned, IsReady, IsCounted};

use crate::past::{Past, past_used};
use crate::spans::Spans;
use crate::standing::Standing;
use iss_model::{Token, UsageRow, Used};
use iss_scope::Groups;
use std::alloc::{AllocError, Global};
use std::marker::Model;

/// What a control has counted of a user in the span that it was last noted in.
#[derive(Clone, Copy)]
pub(crate) struct Counter {
    /// The place of the control among the controls.
    pub(crate) place: usize,
    /// The number of the span.
    pub(crate) number: i64,
    /// `None` until a row was counted.
    pub(crate) used: Option<Used>,
}

/// A user's counters, in the order of the controls. Contracts see their list.
#[derive(Drop)]
pub(crate) struct Counters {
    list: Vec<Counter>,
}

impl Model for Counters {
    ghost use Rattle.std.specs.Prelude.{List, IsTrue};
    ghost use Rattle.iss_velocity.specs.declared.counters.Counter.{Counter};
    ghost use Rattle.iss_velocity.specs.Lists.{rising_from};

    ghost Value = { List Counter };

    ghost view = { λ c. c.list.items };

    ghost invariant = { λ c. IsTrue (rising_from 0 c.list.items) };
}

impl Counters {
    pub(crate) fn new(alloc: Global) -> Counters
        ensures { result ≡ [] }
    {
        Counters {
            list: Vec::new(alloc),
        }
    }

    pub(crate) fn as_slice(&self) -> &[Counter]
        ensures value { result.now ≡ self.now }
        ensures rising { rising_from 0 result.now ≡ true }
    {
        &self.list
    }

    /// Adds a row to the counters of the controls that count it. If an allocation fails, nothing is counted in another way.
    pub(crate) fn note(
        &mut self,
        past: &mut Past,
        controls: &[Standing],
        groups: &Groups,
        row: &UsageRow,
    ) -> Result<(), AllocError>
        requires stamp { IsTrue (is_stamp row.now.at) }
        requires plain { has_no_zero row.now.user ≡ true }
        requires small { StaySmall controls.now groups.now row.now self.old past.old }
        ensures counted { OnOk result (IsCounted controls.now groups.now row.now self.old past.old self.new past.new) }
        ensures same { OnErr result (StaysSame row.now.user self.old past.old self.new past.new) }
    {
        prepare(&mut self.list, past, controls, groups, row)?;
        add(&mut self.list, controls, groups, row);
        Ok(())
    }
}

/// What a control has counted of a user in a span, by the user's counter of the control and the spans that have passed.
pub(crate) fn used_by(
    counter: Option<&Counter>,
    past: &Past,
    user: &Token,
    place: usize,
    number: i64,
) -> Option<Used>
    ensures { result ≡ or_else (in_span number (option_copied counter.entry)) (past_at past.now user.now place number) }
{
    let Some(used) = last_used(counter, number) else {
        return past_used(past, user, place, number);
    };
    Some(used)
}

/// What a counter has counted in a span, if that is the last that was noted.
fn last_used(counter: Option<&Counter>, number: i64) -> Option<Used>
    ensures { result ≡ in_span number (option_copied counter.entry) }
{
    let counter = counter?;
    if counter.number == number {
        counter.used
    } else {
        None
    }
}

/// The counter of the control at a place.
pub(crate) fn find_at(counters: &[Counter], place: usize) -> Option<&Counter>
    ensures { option_copied result ≡ at_place place counters.now }
{
    counters.iter().find(|counter| counter.place == place)
}

/// The counter of the control at a place, which stands at an index if it stands.
pub(crate) fn counter_at(counters: &[Counter], next: usize, place: usize) -> Option<&Counter>
    requires { IsSplit counters.now next place }
    ensures { option_copied result ≡ at_place place counters.now }
{
    let counter = counters.get(next)?;
    if counter.place == place {
        Some(counter)
    } else {
        None
    }
}

/// The index for the next place.
pub(crate) fn next_after(counters: &[Counter], next: usize, place: usize) -> usize
    requires { IsSplit counters.now next place }
    ensures { IsSplit counters.now result (place + 1) }
{
    match counter_at(counters, next, place) {
        Some(_) => next + 1,
        None => next,
    }
}

/// A counter of a span that isn't the last one, with what was counted there.
fn past_counter(past: &Past, user: &Token, place: usize, number: i64) -> Counter
    ensures { result ≡ record { place = place; number = number; used = past_at past.now user.now place number } }
{
    Counter {
        place,
        number,
        used: past_used(past, user, place, number),
    }
}

/// A counter turned to the span of a number. What it counted in another span goes to those that have passed.
fn turned(
    counter: &Counter,
    past: &mut Past,
    user: &Token,
    number: i64,
) -> Result<Counter, AllocError>
    requires plain { has_no_zero user.now ≡ true }
    ensures turned { IfOk result (IsTurned user.now number counter.now past.old past.new) }
    ensures same { OnErr result (IsKeptPast past.old past.new) }
{
    let Some(used) = counter.used else {
        return Ok(past_counter(past, user, counter.place, number));
    };
    if counter.number == number {
        return Ok(*counter);
    }
    past.insert((*user, (counter.place, counter.number)), used)?;
    Ok(past_counter(past, user, counter.place, number))
}

/// Makes the counter of a control ready for a row: it is made, or turned to the row's span.
fn ready(
    list: &mut Vec<Counter>,
    past: &mut Past,
    next: usize,
    user: &Token,
    place: usize,
    number: i64,
) -> Result<(), AllocError>
    requires split { IsSplit list.old.items next place }
    requires plain { has_no_zero user.now ≡ true }
    ensures split { IsSplit list.new.items next place }
    ensures ready { OnOk result (IsReady user.now place number list.old.items past.old list.new.items) }
    ensures same { StaysSame user.now list.old.items past.old list.new.items past.new }
    ensures kept { (p : ℕ) → (p == place) ≡ false → at_place p list.new.items ≡ at_place p list.old.items }
{
    let Some(counter) = counter_at(list, next, place).copied() else {
        list.insert(next, past_counter(past, user, place, number))?;
        return Ok(());
    };
    let turned = turned(&counter, past, user, number)?;
    list[next] = turned;
    Ok(())
}

/// Makes the counters of all controls that count a row ready for it.
fn prepare(
    list: &mut Vec<Counter>,
    past: &mut Past,
    controls: &[Standing],
    groups: &Groups,
    row: &UsageRow,
) -> Result<(), AllocError>
    requires stamp { IsTrue (is_stamp row.now.at) }
    requires plain { has_no_zero row.now.user ≡ true }
    requires rising { rising_from 0 list.old.items ≡ true }
    ensures rising { rising_from 0 list.new.items ≡ true }
    ensures ready { OnOk result (AreAllReady controls.now groups.now row.now list.old.items past.old list.new.items) }
    ensures same { StaysSame row.now.user list.old.items past.old list.new.items past.new }
{
    let spans = Spans::new(row.at, row.origin);
    let mut next = 0;
    for (place, standing) in controls.iter().enumerate() {
        if !standing.counts(groups, row) {
            next = next_after(list, next, place);
            continue;
        }
        let number = spans.number(standing.control.window, standing.control.offset);
        ready(list, past, next, &row.user, place, number)?;
        next = next_after(list, next, place);
    }
    Ok(())
}

/// Adds a row to the counters of the controls that count it, which are ready for it.
fn add(list: &mut Vec<Counter>, controls: &[Standing], groups: &Groups, row: &UsageRow)
    requires { FitMore controls.now groups.now row.now list.old.items }
    ensures { list.new.items ≡ map (counter_then controls.now groups.now row.now) list.old.items }
{
    for i in 0..list.len() {
        list[i] = counted(&list[i], controls, groups, row);
    }
}

/// A counter with a row, if its control counts the row.
fn counted(counter: &Counter, controls: &[Standing], groups: &Groups, row: &UsageRow) -> Counter
    requires { FitsMore controls.now groups.now row.now counter.now }
    ensures { result ≡ counter_then controls.now groups.now row.now counter.now }
{
    let Some(standing) = controls.get(counter.place) else {
        return *counter;
    };
    if !standing.counts(groups, row) {
        return *counter;
    }
    let mut counted = *counter;
    counted.used = Some(more(counter.used, row));
    counted
}

/// What was counted, with one more row.
fn more(used: Option<Used>, row: &UsageRow) -> Used
    requires { IsSmallUse (used_more used row.now) }
    ensures { result ≡ used_more used row.now }
{
    let used = used.unwrap_or(Used {
        amount: 0,
        count: 0,
    });
    Used {
        amount: sum(used.amount, row.amount),
        count: sum(used.count, row.count),
    }
}

fn sum(a: i64, b: i64) -> i64
    requires { IsSmall (a +ℤ b) }
    ensures { result ≡ a +ℤ b }
{
    a + b
}
