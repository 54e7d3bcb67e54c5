//! Reading the head and a user's postings.

ghost use Rattle.std.specs.Prelude.{◌≡◌, ◌⊎◌, false, [], IfErr, IfOk, IsTrue};
ghost use Rattle.sqlite.specs.declared.error.Error.TheVariants.{SqliteFailure};
ghost use Rattle.sqlite.specs.declared.error.ErrorCode.TheVariants.{OutOfMemory};
ghost use Rattle.sqlite.specs.State.{HasCleanDisk};
ghost use Rattle.sqlite.specs.Held.{state};
ghost use Rattle.sqlite.specs.declared.types.Value.TheVariants.{Int};
ghost use Rattle.sqlite.specs.Order.{column};
ghost use Rattle.iss_tables.specs.Steps.{AreHeadColumns, AreNoHead, HasNoNumber, IsNoHead, IsOneHead};
ghost use Rattle.iss_tables.specs.Causes.{AskCause, DoneAsking, FindsSomeAbove, HeadCause};
ghost use Rattle.iss_tables.specs.Calls.{KeepsOpen, KeepsOurs, SurvivesOurs, ShowsHead, ShowsPosts, ShowsAbove, ReadsHead, FindsNoneAbove};

use crate::HeadColumns;
use sqlite::{Alter, Connection, Error, ErrorCode, Row, params};

/// The rows of the answer for the head.
fn head_rows<S: Alter>(conn: &mut Connection<S>) -> Result<Vec<Row>, Error>
    ensures shown { ShowsHead result (state S.Store conn.old) (state S.Store conn.new) }
    ensures done { DoneAsking result (state S.Store conn.old) (state S.Store conn.new) }
    ensures cause { AskCause result (state S.Store conn.old) (state S.Store conn.new) }
    ensures opened { KeepsOpen (state S.Store conn.old) (state S.Store conn.new) }
    ensures clean { HasCleanDisk (state S.Store conn.new) → HasCleanDisk (state S.Store conn.old) }
    ensures kept { KeepsOurs (state S.Store conn.old) (state S.Store conn.new) }
    ensures mode { conn.old.in_transaction ≡ false → conn.new.in_transaction ≡ false }
    ensures survives { SurvivesOurs (state S.Store conn.old) (state S.Store conn.new) }
{
    conn.query_all(
        "SELECT instance, records, posts FROM head WHERE id = 1",
        &[],
    )
}

/// The number in a column.
fn number_at(row: &Row, at: usize) -> Result<i64, Error>
    ensures read { IfOk result (λ n. column row.now at ≡ Int n) }
    ensures cause { IfErr result (λ e. (e ≡ SqliteFailure OutOfMemory) ⊎ HasNoNumber row.now at) }
{
    row.get(at)
}

/// The columns of a row of that answer.
#[tactic(auto, using(crate::proofs::HeadReading::no_head))]
fn head_columns(row: &Row) -> Result<HeadColumns, Error>
    ensures read { IfOk result (λ head. AreHeadColumns head row.now) }
    ensures cause { IfErr result (λ e. (e ≡ SqliteFailure OutOfMemory) ⊎ IsNoHead row.now) }
{
    Ok(HeadColumns {
        instance: number_at(row, 0)?,
        records: number_at(row, 1)?,
        posts: number_at(row, 2)?,
    })
}

/// The head, or `None` if none was set.
pub fn read_head<S: Alter>(conn: &mut Connection<S>) -> Result<Option<HeadColumns>, Error>
    ensures read { ReadsHead result (state S.Store conn.old) (state S.Store conn.new) }
    ensures done { DoneAsking result (state S.Store conn.old) (state S.Store conn.new) }
    ensures cause { HeadCause result (state S.Store conn.old) (state S.Store conn.new) }
    ensures opened { KeepsOpen (state S.Store conn.old) (state S.Store conn.new) }
    ensures clean { HasCleanDisk (state S.Store conn.new) → HasCleanDisk (state S.Store conn.old) }
    ensures kept { KeepsOurs (state S.Store conn.old) (state S.Store conn.new) }
    ensures mode { conn.old.in_transaction ≡ false → conn.new.in_transaction ≡ false }
    ensures survives { SurvivesOurs (state S.Store conn.old) (state S.Store conn.new) }
{
    let rows = head_rows(conn)?;
    head_of(rows.as_slice())
}

/// The head of an answer, which has one row or none.
fn head_of(rows: &[Row]) -> Result<Option<HeadColumns>, Error>
    ensures read { IfOk result (λ head. IsOneHead head rows.now) }
    ensures cause { IfErr result (λ e. (e ≡ SqliteFailure OutOfMemory) ⊎ AreNoHead rows.now) }
{
    match rows {
        [] => Ok(None),
        [row] => Ok(Some(head_columns(row)?)),
        _ => Err(Error::SqliteFailure(ErrorCode::DatabaseCorrupt)),
    }
}

/// Whose postings are asked for.
#[derive(Clone, Copy)]
pub struct UserColumns<'a> {
    pub user: &'a str,
    /// The number of the currency.
    pub currency: i64,
}

/// The rows of a user's postings in a currency, by number: the number, the record, its stamp, the kind and the user of
/// the account that paid, and of the one that was paid, the currency, the amount and the transaction.
pub fn read_posts<S: Alter>(
    conn: &mut Connection<S>,
    account: &UserColumns<'_>,
) -> Result<Vec<Row>, Error>
    ensures shown { ShowsPosts account.now result (state S.Store conn.old) (state S.Store conn.new) }
    ensures done { DoneAsking result (state S.Store conn.old) (state S.Store conn.new) }
    ensures cause { AskCause result (state S.Store conn.old) (state S.Store conn.new) }
    ensures opened { KeepsOpen (state S.Store conn.old) (state S.Store conn.new) }
    ensures clean { HasCleanDisk (state S.Store conn.new) → HasCleanDisk (state S.Store conn.old) }
    ensures kept { KeepsOurs (state S.Store conn.old) (state S.Store conn.new) }
    ensures mode { conn.old.in_transaction ≡ false → conn.new.in_transaction ≡ false }
    ensures survives { SurvivesOurs (state S.Store conn.old) (state S.Store conn.new) }
{
    conn.query_all(
        "SELECT seq, record, at, from_kind, from_user, to_kind, to_user, currency, amount, txn FROM post \
         WHERE currency = ?2 AND (from_user = ?1 OR to_user = ?1) ORDER BY seq",
        params![account.user, &account.currency],
    )
}

/// The numbers of the postings that are above this.
fn numbers_above<S: Alter>(conn: &mut Connection<S>, most: &i64) -> Result<Vec<Row>, Error>
    ensures shown { ShowsAbove most.now result (state S.Store conn.old) (state S.Store conn.new) }
    ensures done { DoneAsking result (state S.Store conn.old) (state S.Store conn.new) }
    ensures cause { AskCause result (state S.Store conn.old) (state S.Store conn.new) }
    ensures opened { KeepsOpen (state S.Store conn.old) (state S.Store conn.new) }
    ensures clean { HasCleanDisk (state S.Store conn.new) → HasCleanDisk (state S.Store conn.old) }
    ensures kept { KeepsOurs (state S.Store conn.old) (state S.Store conn.new) }
    ensures mode { conn.old.in_transaction ≡ false → conn.new.in_transaction ≡ false }
    ensures survives { SurvivesOurs (state S.Store conn.old) (state S.Store conn.new) }
{
    conn.query_all("SELECT seq FROM post WHERE seq > ?1", params![most])
}

/// Whether no posting has a number above this.
pub fn has_none_above<S: Alter>(conn: &mut Connection<S>, most: &i64) -> Result<bool, Error>
    ensures found { FindsNoneAbove most.now result (state S.Store conn.old) (state S.Store conn.new) }
    ensures missed { FindsSomeAbove most.now result (state S.Store conn.old) (state S.Store conn.new) }
    ensures done { DoneAsking result (state S.Store conn.old) (state S.Store conn.new) }
    ensures cause { AskCause result (state S.Store conn.old) (state S.Store conn.new) }
    ensures opened { KeepsOpen (state S.Store conn.old) (state S.Store conn.new) }
    ensures clean { HasCleanDisk (state S.Store conn.new) → HasCleanDisk (state S.Store conn.old) }
    ensures kept { KeepsOurs (state S.Store conn.old) (state S.Store conn.new) }
    ensures mode { conn.old.in_transaction ≡ false → conn.new.in_transaction ≡ false }
    ensures survives { SurvivesOurs (state S.Store conn.old) (state S.Store conn.new) }
{
    let rows = numbers_above(conn, most)?;
    Ok(is_empty(rows.as_slice()))
}

/// Whether an answer has no row.
fn is_empty(rows: &[Row]) -> bool
    ensures yes { IsTrue result → rows.now ≡ [] }
    ensures no { rows.now ≡ [] → IsTrue result }
{
    rows.is_empty()
}
