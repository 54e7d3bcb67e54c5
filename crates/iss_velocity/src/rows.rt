//! All that the controls have counted, in the order in which it is shown.
ghost use Rattle.std.specs.Prelude.{◌≡◌, ◌∷◌, [], true, map, IfOk, OnOk};
ghost use Rattle.std.specs.List.{filter_map, list_all};
ghost use Rattle.std.specs.BTreeMap as tree;
ghost use Rattle.iss_velocity.specs.Lists.{rising_from};
ghost use Rattle.iss_velocity.specs.Counting.{by_name, past_at, in_span, at_place, counters_at};
ghost use Rattle.iss_velocity.specs.Keeping.{has_no_zero, AreKeyed};
ghost use Rattle.iss_velocity.specs.Showing.{by_row, counted_entry, counted_row, row_entry, one_row, rows_of_user, AreAdded, AreRowsOf};

use crate::counted::Counted;
use crate::counters::{Counter, Counters};
use crate::past::Past;
use crate::standing::Standing;
use crate::table::push;
use iss_model::{Token, Used};
use std::alloc::{AllocError, Global};
use std::collections::BTreeMap;

/// What was counted, by the place of the control, the user and the number of the span.
pub(crate) type Rows = BTreeMap<(usize, (Token, i64)), Used>;

/// What the counters of all users have counted, and what was counted in spans that have passed.
pub(crate) fn rows_of(
    users: &BTreeMap<Token, Counters>,
    past: &Past,
    alloc: Global,
) -> Result<Rows, AllocError>
    requires { AreKeyed users.now past.now }
    ensures { IfOk result (AreRowsOf users.now past.now) }
{
    let mut rows = BTreeMap::new(alloc);
    add_users(&mut rows, users)?;
    add_past(&mut rows, past)?;
    Ok(rows)
}

/// The rows of controls that stand, as they are shown.
pub(crate) fn shown(
    controls: &[Standing],
    rows: &Rows,
    alloc: Global,
) -> Result<Vec<Counted>, AllocError>
    ensures counters { IfOk result (λ v. map counted_entry v.items ≡ filter_map (row_entry controls.now) rows.now.entries) }
    ensures named { IfOk result (λ v. list_all (λ c. has_no_zero c.user) v.items ≡ true) }
    ensures ordered { IfOk result (λ _. tree.IsOrdered by_row rows.now) }
{
    let mut counted = Vec::new(alloc);
    for (key, used) in rows.iter() {
        let (place, (user, number)) = key;
        let Some(standing) = controls.get(*place) else {
            continue;
        };
        let one = row_shown(standing, user, *number, used);
        push(&mut counted, &one)?;
    }
    Ok(counted)
}

/// A row as it is shown.
#[tactic(auto, using(crate::proofs::KeyOrder::token_plain))]
fn row_shown(standing: &Standing, user: &Token, number: i64, used: &Used) -> Counted
    ensures value { result ≡ counted_row standing.now user.now number used.now }
    ensures named { has_no_zero result.user ≡ true }
{
    // A name has no byte 0, so a key tells where it ends.
    let _name = user.text();
    Counted {
        control: standing.control.name,
        user: *user,
        window: standing.control.window,
        number,
        used: *used,
    }
}

/// Adds what the counters of all users have counted.
fn add_users(rows: &mut Rows, users: &BTreeMap<Token, Counters>) -> Result<(), AllocError>
    ensures { OnOk result (AreAdded (λ p u n. in_span n (at_place p (counters_at users.now u))) rows.old rows.new) }
{
    for (user, counters) in users.iter() {
        add_counters(rows, user, counters.as_slice())?;
    }
    Ok(())
}

/// Adds what a user's counters have counted.
fn add_counters(rows: &mut Rows, user: &Token, counters: &[Counter]) -> Result<(), AllocError>
    requires { rising_from 0 counters.now ≡ true }
    ensures { OnOk result (AreAdded (rows_of_user user.now counters.now) rows.old rows.new) }
{
    for counter in counters {
        add_counter(rows, user, counter)?;
    }
    Ok(())
}

/// Adds what a user's counter has counted, if it counted a row.
fn add_counter(rows: &mut Rows, user: &Token, counter: &Counter) -> Result<(), AllocError>
    ensures { OnOk result (AreAdded (rows_of_user user.now (counter.now ∷ [])) rows.old rows.new) }
{
    let Some(used) = counter.used else {
        return Ok(());
    };
    add(rows, counter.place, user, counter.number, used)?;
    Ok(())
}

/// Adds what was counted in spans that have passed.
fn add_past(rows: &mut Rows, past: &Past) -> Result<(), AllocError>
    ensures { OnOk result (AreAdded (λ p u n. past_at past.now u p n) rows.old rows.new) }
{
    for (key, used) in past.iter() {
        let (user, (place, number)) = key;
        add(rows, *place, user, *number, *used)?;
    }
    Ok(())
}

/// Adds a row, unless there is one of its span.
#[tactic(auto, using(crate::proofs::KeyOrder::token_plain))]
fn add(
    rows: &mut Rows,
    place: usize,
    user: &Token,
    number: i64,
    used: Used,
) -> Result<(), AllocError>
    ensures { OnOk result (AreAdded (one_row place user.now number used) rows.old rows.new) }
{
    // A name has no byte 0, so a key tells where it ends.
    let _name = user.text();
    let key = (place, (*user, number));
    if !rows.contains_key(&key) {
        rows.insert(key, used)?;
    }
    Ok(())
}
