//! A keeper in memory.

ghost use Rattle.std.specs.Prelude.{◌≡◌, ◌+◌, ◌^◌, ◌-◌, ◌≤◌, ◌↔◌, min, IsTrue, Contains, Some, IfOk};
ghost use Rattle.iss_archive.specs.declared.post.KeepFault.TheVariants.{Failed};
ghost use Rattle.iss_archive.specs.Archived.{Rose, rows_of_user};

use crate::{Head, KeepFault, Keeper, PostRow, is_of_user, is_statable};
use iss_model::{Currency, Token};
use std::alloc::{AllocError, Global};

/// A keeper in memory, which tells everything.
#[derive(Drop)]
pub struct MapKeeper {
    alloc: Global,
    head: Option<Head>,
    rows: Vec<PostRow>,
    fails: Vec<u64>,
    /// How many calls were made.
    calls: u64,
    faults: u64,
}

impl MapKeeper {
    /// A keeper that holds this. Of its calls those fail whose numbers, counted from 1, are among `fails`.
    pub fn new(
        alloc: Global,
        head: Option<Head>,
        rows: Vec<PostRow>,
        fails: Vec<u64>,
    ) -> Result<MapKeeper, AllocError>
        ensures told { IfOk result (λ k. ⟦<MapKeeper as Keeper>⟧.told k ≡ Some (record { head = head; rows = rows.items })) }
        ensures faults { IfOk result (λ k. ⟦<MapKeeper as Keeper>⟧.faults k ≡ 0) }
    {
        Ok(MapKeeper {
            alloc,
            head,
            rows,
            fails,
            calls: 0,
            faults: 0,
        })
    }
}

impl Keeper for MapKeeper {
    ghost use Rattle.std.specs.Prelude.{◌≡◌, Some};

    ghost told = { λ k. Some (record { head = k.head; rows = k.rows.items }) };

    ghost left = { λ k a. a ≡ record { head = k.head; rows = k.rows.items } };

    ghost faults = { λ k. k.faults };

    fn head(&mut self) -> Result<Option<Head>, KeepFault> {
        if fails_now(&mut self.calls, self.fails.as_slice()) {
            return Err(count(&mut self.faults));
        }
        Ok(self.head)
    }

    fn add(&mut self, head: &Head, rows: &[PostRow]) -> Result<(), KeepFault> {
        if fails_now(&mut self.calls, self.fails.as_slice()) {
            return Err(count(&mut self.faults));
        }
        if self.rows.extend_from_slice(rows).is_err() {
            return Err(KeepFault::OutOfMemory);
        }
        self.head = Some(*head);
        Ok(())
    }

    fn of_user(&mut self, user: &Token, currency: Currency) -> Result<Vec<PostRow>, KeepFault> {
        if fails_now(&mut self.calls, self.fails.as_slice()) {
            return Err(count(&mut self.faults));
        }
        let Ok(rows) = rows_of_user(self.alloc, self.rows.as_slice(), user, currency) else {
            return Err(KeepFault::OutOfMemory);
        };
        if !is_statable(rows.as_slice(), user, currency) {
            return Err(count(&mut self.faults));
        }
        Ok(rows)
    }

    ghost stands = { λ k a left. left };
}

/// Counts a call, and says whether it is one of those that are to fail.
fn fails_now(calls: &mut u64, fails: &[u64]) -> bool
    ensures counted { calls.new ≡ min (calls.old + 1) (2 ^ 64 - 1) }
    ensures named { IsTrue result ↔ Contains fails.now calls.new }
{
    *calls = calls.saturating_add(1);
    fails.contains(calls)
}

/// Counts a failure.
fn count(faults: &mut u64) -> KeepFault
    ensures fault { result ≡ Failed }
    ensures rose { Rose faults.old faults.new }
    ensures later { faults.old ≤ faults.new }
{
    *faults = faults.saturating_add(1);
    KeepFault::Failed
}

/// The rows with this user and currency on a side.
fn rows_of_user(
    alloc: Global,
    rows: &[PostRow],
    user: &Token,
    currency: Currency,
) -> Result<Vec<PostRow>, AllocError>
    ensures { IfOk result (λ found. found.items ≡ rows_of_user user.now currency rows.now) }
{
    let mut found = Vec::new(alloc);
    'rows: for row in rows {
        if is_of_user(row, user, currency) {
            found.push(*row)?;
        }
    }
    Ok(found)
}
