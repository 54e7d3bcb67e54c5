//! Adding a record to a database that is an archive.

ghost use Rattle.std.specs.Prelude.{◌≡◌, false, map, IfSome, OnErr};
ghost use Rattle.sqlite.specs.Held.{state};
ghost use Rattle.sqlite.specs.State.{HasCleanDisk};
ghost use Rattle.iss_archive.specs.Archived.{Follows};
ghost use Rattle.iss_sql_keeper.specs.Decoded.{head_of};
ghost use Rattle.iss_sql_keeper.specs.Given.{posting_given};
ghost use Rattle.iss_sql_keeper.specs.Opened.{MayLeaveGiven, TellsGiven};
ghost use Rattle.iss_sql_keeper.specs.Shown.{AddsTo, IsKept, LeavesAdded, MayLeaveAdded, Stays, TellsAdded, TellsSame, told_in};
ghost use Rattle.iss_sql_keeper.specs.Telling.{StaysTold};

use crate::asking::told;
use crate::columns::{all_columns_of, head_columns_of};
use iss_archive::{Head, KeepFault, PostRow};
use iss_tables::{HeadColumns, PostColumns, is_ours, what_is_shown_is_committed};
use sqlite::{Alter, Connection};
use std::alloc::Global;

/// Adds a record's columns, in one transaction. It fails if the tables aren't the archive's any more.
#[tactic(auto, using(crate::proofs::ShownLemmas::stays_self, crate::proofs::AddingLemmas::leaves_itself))]
fn add_columns<S: Alter>(
    conn: &mut Connection<S>,
    rows: &[PostColumns<'_>],
    head: &HeadColumns,
) -> Result<(), KeepFault>
    requires { IsKept (state S.Store conn.old) }
    ensures mode { conn.new.in_transaction ≡ false }
    ensures clean { HasCleanDisk (state S.Store conn.new) → HasCleanDisk (state S.Store conn.old) }
    ensures added { AddsTo rows.now head.now result (state S.Store conn.old) (state S.Store conn.new) }
    ensures telling { StaysTold result (state S.Store conn.new) }
    ensures undone { OnErr result (Stays (state S.Store conn.old) (state S.Store conn.new)) }
    ensures left { LeavesAdded rows.now head.now (state S.Store conn.old) (state S.Store conn.new) }
{
    if !is_ours(conn.schema()) {
        return Err(KeepFault::Failed);
    }
    what_is_shown_is_committed(conn);
    told(iss_tables::add(conn, rows, head))
}

/// Adds a record's columns, as a keeper tells it.
fn add_record<S: Alter>(
    conn: &mut Connection<S>,
    rows: &[PostColumns<'_>],
    head: &HeadColumns,
) -> Result<(), KeepFault>
    requires kept { IsKept (state S.Store conn.old) }
    requires next { IfSome (told_in (state S.Store conn.old)) (λ a. Follows a (head_of head.now) (map posting_given rows.now)) }
    ensures kept { IsKept (state S.Store conn.new) }
    ensures added { TellsGiven head.now rows.now result (state S.Store conn.old) (state S.Store conn.new) }
    ensures telling { StaysTold result (state S.Store conn.new) }
    ensures undone { TellsSame result (state S.Store conn.old) (state S.Store conn.new) }
    ensures stop { MayLeaveGiven head.now rows.now (state S.Store conn.old) (state S.Store conn.new) }
{
    add_columns(conn, rows, head)
}

/// Adds a record's rows and sets the head, both or neither.
#[tactic(auto, using(crate::proofs::ShownLemmas::same_told, crate::proofs::AddingLemmas::left_itself))]
pub(crate) fn add_to<S: Alter>(
    alloc: Global,
    conn: &mut Connection<S>,
    head: &Head,
    rows: &[PostRow],
) -> Result<(), KeepFault>
    requires kept { IsKept (state S.Store conn.old) }
    requires next { IfSome (told_in (state S.Store conn.old)) (λ a. Follows a head.now rows.now) }
    ensures kept { IsKept (state S.Store conn.new) }
    ensures added { TellsAdded head.now rows.now result (state S.Store conn.old) (state S.Store conn.new) }
    ensures telling { StaysTold result (state S.Store conn.new) }
    ensures undone { TellsSame result (state S.Store conn.old) (state S.Store conn.new) }
    ensures stop { MayLeaveAdded head.now rows.now (state S.Store conn.old) (state S.Store conn.new) }
{
    let Some(head_columns) = head_columns_of(head) else {
        return Err(KeepFault::Failed);
    };
    let columns = all_columns_of(alloc, rows)?;
    add_record(conn, columns.as_slice(), &head_columns)
}
