//! Adding a record's postings: each row, and then the head.

ghost use Rattle.std.specs.Prelude.{◌≡◌, false, IsTrue, OnOk};
ghost use Rattle.sqlite.specs.State.{HasCleanDisk, Survives};
ghost use Rattle.sqlite.specs.Held.{state};
ghost use Rattle.iss_tables.specs.Causes.{AddCause, PutAllCause, PutCause, SetCause};
ghost use Rattle.iss_tables.specs.Calls.{Keeps, HasPutPost, HasPutPosts, HasSetHead, StaysInside, StaysOpen, HasAdded, HasCommitted, HasFailed, SurvivesAdding};

use sqlite::{Alter, Connection, Error, Transaction, params};

/// A posting's columns, with kinds and currencies as numbers.
#[derive(Clone, Copy)]
pub struct PostColumns<'a> {
    pub seq: i64,
    /// The number of its record.
    pub record_: i64,
    pub at: i64,
    pub from_kind: i64,
    pub from_user: Option<&'a str>,
    pub to_kind: i64,
    pub to_user: Option<&'a str>,
    pub currency: i64,
    pub amount: i64,
    pub txn: Option<&'a str>,
}

/// Adds one posting.
fn put_post<S: Alter>(tx: &mut Transaction<'_, S>, row: &PostColumns<'_>) -> Result<usize, Error>
    ensures same_reference { tx.new.conn.ghost_name ≡ tx.old.conn.ghost_name }
    ensures kept { Keeps (state S.Store tx.old.conn.now) (state S.Store tx.new.conn.now) }
    ensures stays { HasCleanDisk (state S.Store tx.new.conn.now) → OnOk result (IsTrue tx.new.conn.now.in_transaction) }
    ensures puts { HasPutPost row.now result (state S.Store tx.old.conn.now) (state S.Store tx.new.conn.now) }
    ensures cause { PutCause row.now result (state S.Store tx.old.conn.now) (state S.Store tx.new.conn.now) }
    ensures opened { HasCleanDisk (state S.Store tx.new.conn.now) → OnOk result (IsTrue (state S.Store tx.new.conn.now).is_open) }
    ensures survives { Survives (state S.Store tx.old.conn.now) (state S.Store tx.new.conn.now) (λ _. ⊥) }
{
    tx.execute(
        "INSERT INTO post VALUES (?1, ?2, ?3, ?4, ?5, ?6, ?7, ?8, ?9, ?10)",
        params![
            &row.seq,
            &row.record_,
            &row.at,
            &row.from_kind,
            row.from_user,
            &row.to_kind,
            row.to_user,
            &row.currency,
            &row.amount,
            row.txn
        ],
    )
}

/// The head's columns.
#[derive(Clone, Copy)]
pub struct HeadColumns {
    pub instance: i64,
    pub records: i64,
    pub posts: i64,
}

/// Sets the head.
fn set_head<S: Alter>(tx: &mut Transaction<'_, S>, head: &HeadColumns) -> Result<usize, Error>
    ensures same_reference { tx.new.conn.ghost_name ≡ tx.old.conn.ghost_name }
    ensures kept { Keeps (state S.Store tx.old.conn.now) (state S.Store tx.new.conn.now) }
    ensures stays { HasCleanDisk (state S.Store tx.new.conn.now) → OnOk result (IsTrue tx.new.conn.now.in_transaction) }
    ensures opened { HasCleanDisk (state S.Store tx.new.conn.now) → OnOk result (IsTrue (state S.Store tx.new.conn.now).is_open) }
    ensures sets { HasSetHead head.now result (state S.Store tx.old.conn.now) (state S.Store tx.new.conn.now) }
    ensures cause { SetCause head.now result (state S.Store tx.old.conn.now) (state S.Store tx.new.conn.now) }
    ensures survives { Survives (state S.Store tx.old.conn.now) (state S.Store tx.new.conn.now) (λ _. ⊥) }
{
    tx.execute(
        "INSERT OR REPLACE INTO head VALUES (1, ?1, ?2, ?3)",
        params![&head.instance, &head.records, &head.posts],
    )
}

/// Adds the postings in order.
fn put_posts<S: Alter>(tx: &mut Transaction<'_, S>, rows: &[PostColumns<'_>]) -> Result<(), Error>
    ensures same_reference { tx.new.conn.ghost_name ≡ tx.old.conn.ghost_name }
    ensures kept { Keeps (state S.Store tx.old.conn.now) (state S.Store tx.new.conn.now) }
    ensures stays { StaysInside result (state S.Store tx.old.conn.now) (state S.Store tx.new.conn.now) }
    ensures puts { HasPutPosts rows.now result (state S.Store tx.old.conn.now) (state S.Store tx.new.conn.now) }
    ensures shut { StaysOpen result (state S.Store tx.old.conn.now) (state S.Store tx.new.conn.now) }
    ensures cause { PutAllCause rows.now result (state S.Store tx.old.conn.now) (state S.Store tx.new.conn.now) }
    ensures survives { Survives (state S.Store tx.old.conn.now) (state S.Store tx.new.conn.now) (λ _. ⊥) }
{
    'rows: for row in rows {
        put_post(tx, row)?;
    }
    Ok(())
}

/// Adds the postings and sets the head, both or neither. A posting whose number is taken is an error.
pub fn add<S: Alter>(
    conn: &mut Connection<S>,
    rows: &[PostColumns<'_>],
    head: &HeadColumns,
) -> Result<(), Error>
    requires { conn.old.in_transaction ≡ false }
    ensures mode { conn.new.in_transaction ≡ false }
    ensures added { HasAdded rows.now head.now result (state S.Store conn.old) (state S.Store conn.new) }
    ensures cause { AddCause rows.now head.now result (state S.Store conn.old) (state S.Store conn.new) }
    ensures committed { HasCommitted result (state S.Store conn.old) (state S.Store conn.new) }
    ensures undone { HasFailed result (state S.Store conn.old) (state S.Store conn.new) }
    ensures clean { HasCleanDisk (state S.Store conn.new) → HasCleanDisk (state S.Store conn.old) }
    ensures survives { SurvivesAdding rows.now head.now (state S.Store conn.old) (state S.Store conn.new) }
{
    let mut tx = conn.transaction();
    put_posts(&mut tx, rows)?;
    set_head(&mut tx, head)?;
    tx.commit()
}
