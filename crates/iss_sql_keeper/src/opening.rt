//! Making the tables of an archive, and looking whether what is there is one.

ghost use Rattle.std.specs.Prelude.{◌≡◌, ◌≤◌, ◌^◌, pos, false, None, IfErr, IfOk, IfSome, IsTrue, OnOk};
ghost use Rattle.sqlite.specs.Held.{state};
ghost use Rattle.sqlite.specs.State.{HasCleanDisk};
ghost use Rattle.iss_archive.specs.Archived.{posts_in};
ghost use Rattle.iss_tables.specs.Calls.{HasNoneAbove, MakesTables};
ghost use Rattle.iss_sql_keeper.specs.Opened.{HoldsOn};
ghost use Rattle.iss_sql_keeper.specs.Refused.{AsksUnlessUnasked, CountedUnlessUnasked, FailedUnlessUnasked, HasMade, HeadUnlessUnasked, IsSettled, MakesUnlessUnasked, PreparedUnlessUnasked, TakenUnlessUnasked};
ghost use Rattle.iss_sql_keeper.specs.Shown.{Holds, IsKept, Stays};
ghost use Rattle.iss_sql_keeper.specs.Telling.{IsTold};

use crate::asking::{head_in, is_none_above, told};
use crate::columns::signed;
use iss_archive::{Head, KeepFault};
use iss_tables::make_tables;
use sqlite::{Alter, Connection};

/// How many postings the head counts, or `None` if that doesn't fit.
fn posts_of(head: &Option<Head>) -> Option<i64>
    ensures value { IfSome result (λ posts. posts ≡ pos (posts_in head.now)) }
    ensures great { result ≡ None → 2 ^ 63 ≤ posts_in head.now }
{
    match head {
        Some(head) => signed(head.posts),
        None => signed(0),
    }
}

/// Whether no posting has a number above the head's count.
fn is_counted<S: Alter>(conn: &mut Connection<S>, head: &Option<Head>) -> Result<bool, KeepFault>
    requires { conn.old.in_transaction ≡ false }
    ensures stays { Stays (state S.Store conn.old) (state S.Store conn.new) }
    ensures found { IfOk result (λ yes. IsTrue yes → Holds (state S.Store conn.new) (HasNoneAbove (pos (posts_in head.now)))) }
    ensures told { IfOk result (λ yes. IsTrue yes → IsTold (state S.Store conn.new)) }
    ensures untaken { CountedUnlessUnasked (posts_in head.now) result (state S.Store conn.old) (state S.Store conn.new) }
    ensures failed { AsksUnlessUnasked result (state S.Store conn.old) (state S.Store conn.new) }
{
    let Some(posts) = posts_of(head) else {
        return Ok(false);
    };
    is_none_above(conn, &posts)
}

/// Whether a connection with both tables is one to an archive.
fn is_archive<S: Alter>(conn: &mut Connection<S>) -> Result<bool, KeepFault>
    requires { conn.old.in_transaction ≡ false }
    ensures kept { IfOk result (λ yes. IsTrue yes → IsKept (state S.Store conn.new)) }
    ensures told { IfOk result (λ yes. IsTrue yes → IsTold (state S.Store conn.new)) }
    ensures stays { Stays (state S.Store conn.old) (state S.Store conn.new) }
    ensures untaken { TakenUnlessUnasked result (state S.Store conn.old) (state S.Store conn.new) }
    ensures failed { HeadUnlessUnasked result (state S.Store conn.old) (state S.Store conn.new) }
{
    let head = head_in(conn)?;
    is_counted(conn, &head)
}

/// Makes the two tables if they aren't there.
fn make<S: Alter>(conn: &mut Connection<S>) -> Result<(), KeepFault>
    ensures made { MakesTables result (state S.Store conn.old) (state S.Store conn.new) }
    ensures done { HasMade result (state S.Store conn.old) (state S.Store conn.new) }
    ensures clean { HasCleanDisk (state S.Store conn.new) → HasCleanDisk (state S.Store conn.old) }
    ensures cause { MakesUnlessUnasked result (state S.Store conn.old) (state S.Store conn.new) }
{
    told(make_tables(conn))
}

/// Whether no transaction is under way. It fails if one is.
fn outside<S: Alter>(conn: &Connection<S>) -> Result<(), KeepFault>
    ensures mode { OnOk result ((state S.Store conn.now).in_transaction ≡ false) }
    ensures settled { OnOk result (IsSettled (state S.Store conn.now)) }
    ensures inside { IfErr result (λ _. IsTrue (state S.Store conn.now).in_transaction) }
{
    if !conn.is_autocommit() {
        return Err(KeepFault::Failed);
    }
    Ok(())
}

/// Makes the two tables if they aren't there. It fails if a transaction is under way.
fn make_outside<S: Alter>(conn: &mut Connection<S>) -> Result<(), KeepFault>
    ensures made { MakesTables result (state S.Store conn.old) (state S.Store conn.new) }
    ensures done { HasMade result (state S.Store conn.old) (state S.Store conn.new) }
    ensures mode { OnOk result ((state S.Store conn.new).in_transaction ≡ false) }
    ensures settled { OnOk result (IsSettled (state S.Store conn.new)) }
    ensures cause { MakesUnlessUnasked result (state S.Store conn.old) (state S.Store conn.new) }
{
    make(conn)?;
    outside(conn)
}

/// Makes the two tables if they aren't there, and says whether what is there is an archive. It fails if a transaction is under way.
pub(crate) fn prepare<S: Alter>(conn: &mut Connection<S>) -> Result<bool, KeepFault>
    ensures kept { IfOk result (λ yes. IsTrue yes → IsKept (state S.Store conn.new)) }
    ensures told { IfOk result (λ yes. IsTrue yes → IsTold (state S.Store conn.new)) }
    ensures held { IfOk result (λ yes. IsTrue yes → HoldsOn (state S.Store conn.old) (state S.Store conn.new)) }
    ensures untaken { PreparedUnlessUnasked result (state S.Store conn.old) (state S.Store conn.new) }
    ensures failed { FailedUnlessUnasked result (state S.Store conn.old) (state S.Store conn.new) }
{
    make_outside(conn)?;
    is_archive(conn)
}
