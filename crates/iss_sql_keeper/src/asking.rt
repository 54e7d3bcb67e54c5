//! Asking a database that is an archive.

ghost use Rattle.std.specs.Prelude.{◌≡◌, pos, true, false, [], ◌∷◌, map, option_map, IfErr, IfOk, IsSomeAnd, IsTrue};
ghost use Rattle.std.specs.List.{list_all};
ghost use Rattle.sqlite.specs.declared.types.Value.TheVariants.{Int, Text};
ghost use Rattle.iss_model.specs.Currencies.{iso_number};
ghost use Rattle.sqlite.specs.Held.{state};
ghost use Rattle.iss_archive.specs.Archived.{is_of_user};
ghost use Rattle.iss_archive.specs.Statable as statable;
ghost use Rattle.iss_tables.specs.Calls.{HasNoneAbove, ReadsHead};
ghost use Rattle.iss_tables.specs.Causes.{DoneAsking};
ghost use Rattle.iss_tables.specs.Queries.{ShowsPostsOf};
ghost use Rattle.iss_tables.specs.Rows.{asked_for};
ghost use Rattle.iss_tables.specs.Steps.{IsHeadRow, head_row};
ghost use Rattle.iss_sql_keeper.specs.Decoded.{archived_in, head_of, posting_shown};
ghost use Rattle.iss_sql_keeper.specs.Refused.{AsksUnlessUnasked, HeadUnlessUnasked, IsOddHead, NamesFailure, NoneAboveUnlessUnasked};
ghost use Rattle.iss_sql_keeper.specs.Shown.{GivesHeadBefore, Holds, HoldsPosts, IsKept, LeavesNothingNew, LeavesSame, Stays, Tells, TellsHead, TellsPosts, TellsSame};
ghost use Rattle.iss_sql_keeper.specs.Telling.{StaysTold};

use crate::reading::{self, postings_of};
use iss_archive::{Head, KeepFault, PostRow, is_statable};
use iss_model::{Currency, Token};
use iss_tables::{
    HeadColumns, UserColumns, has_none_above, is_ours, read_head, read_posts,
    what_is_shown_is_committed,
};
use sqlite::{Alter, Connection, Error, ErrorCode, Row};
use std::alloc::Global;

/// What a call on the database came to, with its error as a keeper's: want of memory, or a failure.
pub(crate) fn told<T>(outcome: Result<T, Error>) -> Result<T, KeepFault>
    ensures same { Tells outcome result }
    ensures named { NamesFailure outcome result }
{
    match outcome {
        Ok(value) => Ok(value),
        Err(Error::SqliteFailure(ErrorCode::OutOfMemory)) => Err(KeepFault::OutOfMemory),
        Err(_) => Err(KeepFault::Failed),
    }
}

/// The head's columns. It fails if the tables aren't the archive's any more.
#[tactic(auto, using(crate::proofs::ShownLemmas::stays_self, crate::proofs::ShownLemmas::nothing_new))]
fn ask_head<S: Alter>(conn: &mut Connection<S>) -> Result<Option<HeadColumns>, KeepFault>
    requires { conn.old.in_transaction ≡ false }
    ensures stays { Stays (state S.Store conn.old) (state S.Store conn.new) }
    ensures left { LeavesNothingNew (state S.Store conn.old) (state S.Store conn.new) }
    ensures read { IfOk result (λ head. Holds (state S.Store conn.new) (λ trees. IsHeadRow head (head_row (trees 0)))) }
    ensures telling { StaysTold result (state S.Store conn.new) }
    ensures was { ReadsHead result (state S.Store conn.old) (state S.Store conn.new) }
    ensures done { DoneAsking result (state S.Store conn.old) (state S.Store conn.new) }
    ensures cause { HeadUnlessUnasked result (state S.Store conn.old) (state S.Store conn.new) }
{
    if !is_ours(conn.schema()) {
        return Err(KeepFault::Failed);
    }
    what_is_shown_is_committed(conn);
    told(read_head(conn))
}

/// The head of its columns, if there is one. It fails if a column holds something else.
fn read(columns: &Option<HeadColumns>) -> Result<Option<Head>, KeepFault>
    ensures value { IfOk result (λ head. head ≡ option_map head_of columns.now) }
    ensures odd { IfErr result (λ _. IsSomeAnd columns.now IsOddHead) }
{
    let Some(columns) = columns else {
        return Ok(None);
    };
    match reading::head_of(columns) {
        Some(head) => Ok(Some(head)),
        None => Err(KeepFault::Failed),
    }
}

/// The head, if there is one.
pub(crate) fn head_in<S: Alter>(conn: &mut Connection<S>) -> Result<Option<Head>, KeepFault>
    requires { conn.old.in_transaction ≡ false }
    ensures stays { Stays (state S.Store conn.old) (state S.Store conn.new) }
    ensures left { LeavesNothingNew (state S.Store conn.old) (state S.Store conn.new) }
    ensures read { IfOk result (λ head. Holds (state S.Store conn.new) (λ trees. head ≡ (archived_in trees).head)) }
    ensures telling { StaysTold result (state S.Store conn.new) }
    ensures was { GivesHeadBefore result (state S.Store conn.old) (state S.Store conn.new) }
    ensures done { DoneAsking result (state S.Store conn.old) (state S.Store conn.new) }
    ensures cause { HeadUnlessUnasked result (state S.Store conn.old) (state S.Store conn.new) }
{
    let columns = ask_head(conn)?;
    read(&columns)
}

/// Whether no posting has a number above this. It fails if the tables aren't the archive's any more.
#[tactic(auto, using(crate::proofs::ShownLemmas::stays_self))]
pub(crate) fn is_none_above<S: Alter>(
    conn: &mut Connection<S>,
    most: &i64,
) -> Result<bool, KeepFault>
    requires { conn.old.in_transaction ≡ false }
    ensures stays { Stays (state S.Store conn.old) (state S.Store conn.new) }
    ensures found { IfOk result (λ none. IsTrue none → Holds (state S.Store conn.new) (HasNoneAbove most.now)) }
    ensures telling { StaysTold result (state S.Store conn.new) }
    ensures untaken { NoneAboveUnlessUnasked most.now result (state S.Store conn.old) (state S.Store conn.new) }
    ensures cause { AsksUnlessUnasked result (state S.Store conn.old) (state S.Store conn.new) }
{
    if !is_ours(conn.schema()) {
        return Err(KeepFault::Failed);
    }
    what_is_shown_is_committed(conn);
    told(has_none_above(conn, most))
}

/// The rows of a user's postings. It fails if the tables aren't the archive's any more.
#[tactic(auto, using(crate::proofs::ShownLemmas::stays_self, crate::proofs::ShownLemmas::nothing_new))]
fn ask_posts<S: Alter>(
    conn: &mut Connection<S>,
    account: &UserColumns<'_>,
) -> Result<Vec<Row>, KeepFault>
    requires { conn.old.in_transaction ≡ false }
    ensures stays { Stays (state S.Store conn.old) (state S.Store conn.new) }
    ensures left { LeavesNothingNew (state S.Store conn.old) (state S.Store conn.new) }
    ensures shown { IfOk result (λ rows. Holds (state S.Store conn.new) (λ trees. ShowsPostsOf account.now trees rows.items)) }
    ensures telling { StaysTold result (state S.Store conn.new) }
{
    if !is_ours(conn.schema()) {
        return Err(KeepFault::Failed);
    }
    what_is_shown_is_committed(conn);
    told(read_posts(conn, account))
}

/// What the question for a user's postings is given.
fn account_for(user: &Token, currency: Currency) -> UserColumns<'_>
    ensures { asked_for result ≡ Text user.now ∷ Int (pos (iso_number currency)) ∷ [] }
{
    UserColumns {
        user: user.as_str(),
        currency: i64::from(currency.number()),
    }
}

/// The postings that were shown of a user. It fails if they can't be put into a statement.
fn stated(
    alloc: Global,
    shown: &[Row],
    user: &Token,
    currency: Currency,
) -> Result<Vec<PostRow>, KeepFault>
    ensures read { IfOk result (λ rows. rows.items ≡ map posting_shown shown.now) }
    ensures users { IfOk result (λ rows. list_all (is_of_user user.now currency) rows.items ≡ true) }
    ensures statable { IfOk result (λ rows. IsTrue (statable.is_statable user.now currency rows.items)) }
{
    let rows = postings_of(alloc, shown, user, currency)?;
    if !is_statable(rows.as_slice(), user, currency) {
        return Err(KeepFault::Failed);
    }
    Ok(rows)
}

/// The postings of a user in a currency, by number. It fails if they can't be put into a statement.
fn posts_in<S: Alter>(
    alloc: Global,
    conn: &mut Connection<S>,
    user: &Token,
    currency: Currency,
) -> Result<Vec<PostRow>, KeepFault>
    requires { conn.old.in_transaction ≡ false }
    ensures stays { Stays (state S.Store conn.old) (state S.Store conn.new) }
    ensures left { LeavesNothingNew (state S.Store conn.old) (state S.Store conn.new) }
    ensures read { IfOk result (λ rows. HoldsPosts user.now currency rows.items (state S.Store conn.new)) }
    ensures statable { IfOk result (λ rows. IsTrue (statable.is_statable user.now currency rows.items)) }
    ensures telling { StaysTold result (state S.Store conn.new) }
{
    let shown = ask_posts(conn, &account_for(user, currency))?;
    stated(alloc, shown.as_slice(), user, currency)
}

/// The head, as a keeper tells it.
pub(crate) fn tell_head<S: Alter>(conn: &mut Connection<S>) -> Result<Option<Head>, KeepFault>
    requires { IsKept (state S.Store conn.old) }
    ensures kept { IsKept (state S.Store conn.new) }
    ensures read { TellsHead result (state S.Store conn.old) (state S.Store conn.new) }
    ensures telling { StaysTold result (state S.Store conn.new) }
    ensures unchanged { TellsSame result (state S.Store conn.old) (state S.Store conn.new) }
    ensures stop { LeavesSame (state S.Store conn.old) (state S.Store conn.new) }
{
    head_in(conn)
}

/// The postings of a user in a currency, as a keeper tells them.
pub(crate) fn tell_posts<S: Alter>(
    alloc: Global,
    conn: &mut Connection<S>,
    user: &Token,
    currency: Currency,
) -> Result<Vec<PostRow>, KeepFault>
    requires { IsKept (state S.Store conn.old) }
    ensures kept { IsKept (state S.Store conn.new) }
    ensures read { TellsPosts user.now currency result (state S.Store conn.old) (state S.Store conn.new) }
    ensures statable { IfOk result (λ rows. IsTrue (statable.is_statable user.now currency rows.items)) }
    ensures telling { StaysTold result (state S.Store conn.new) }
    ensures unchanged { TellsSame result (state S.Store conn.old) (state S.Store conn.new) }
    ensures stop { LeavesSame (state S.Store conn.old) (state S.Store conn.new) }
{
    posts_in(alloc, conn, user, currency)
}
