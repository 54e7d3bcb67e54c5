//! Making the two tables.

ghost use Rattle.sqlite.specs.State.{HasCleanDisk};
ghost use Rattle.sqlite.specs.Held.{state};
ghost use Rattle.iss_tables.specs.Calls.{MakesHead, MakesPosts, MakesTables, LeavesHead, LeavesOurs, LeavesCommit, IsSettled};
ghost use Rattle.iss_tables.specs.Causes.{DoneMaking, DoneMakingPost, MakeCause, MakePostCause};

use sqlite::{Alter, Connection, Error};

/// Makes the table of the head, if it isn't there.
fn make_head<S: Alter>(conn: &mut Connection<S>) -> Result<usize, Error>
    ensures made { MakesHead result (state S.Store conn.old) (state S.Store conn.new) }
    ensures alone { LeavesHead result (state S.Store conn.old) (state S.Store conn.new) }
    ensures stands { LeavesOurs result (state S.Store conn.old) (state S.Store conn.new) }
    ensures done { DoneMaking result (state S.Store conn.old) (state S.Store conn.new) }
    ensures cause { MakeCause result (state S.Store conn.old) (state S.Store conn.new) }
    ensures clean { HasCleanDisk (state S.Store conn.new) → HasCleanDisk (state S.Store conn.old) }
{
    conn.execute(
        "CREATE TABLE IF NOT EXISTS head (id INTEGER PRIMARY KEY, instance INTEGER NOT NULL, records INTEGER NOT NULL, \
         posts INTEGER NOT NULL) STRICT",
        &[],
    )
}

/// Makes the table of the postings, if it isn't there.
fn make_post<S: Alter>(conn: &mut Connection<S>) -> Result<usize, Error>
    ensures made { MakesPosts result (state S.Store conn.old) (state S.Store conn.new) }
    ensures stands { LeavesOurs result (state S.Store conn.old) (state S.Store conn.new) }
    ensures done { DoneMakingPost result (state S.Store conn.old) (state S.Store conn.new) }
    ensures cause { MakePostCause result (state S.Store conn.old) (state S.Store conn.new) }
    ensures clean { HasCleanDisk (state S.Store conn.new) → HasCleanDisk (state S.Store conn.old) }
{
    conn.execute(
        "CREATE TABLE IF NOT EXISTS post (seq INTEGER PRIMARY KEY, record INTEGER NOT NULL, at INTEGER NOT NULL, \
         from_kind INTEGER NOT NULL, from_user TEXT, to_kind INTEGER NOT NULL, to_user TEXT, currency INTEGER NOT NULL, \
         amount INTEGER NOT NULL, txn TEXT) STRICT",
        &[],
    )
}

/// Makes the two tables of the archive, if they aren't there.
pub fn make_tables<S: Alter>(conn: &mut Connection<S>) -> Result<(), Error>
    ensures made { MakesTables result (state S.Store conn.old) (state S.Store conn.new) }
    ensures done { DoneMaking result (state S.Store conn.old) (state S.Store conn.new) }
    ensures clean { HasCleanDisk (state S.Store conn.new) → HasCleanDisk (state S.Store conn.old) }
    ensures cause { MakeCause result (state S.Store conn.old) (state S.Store conn.new) }
{
    make_head(conn)?;
    make_post(conn)?;
    Ok(())
}

/// While a connection is open, a stop leaves what was last committed.
pub fn a_stop_leaves_the_commit<S: Alter>(conn: &Connection<S>)
    ensures { LeavesCommit (state S.Store conn.now) }
{
    let _ = conn;
}

/// Outside a transaction, what an open connection shows is committed.
pub fn what_is_shown_is_committed<S: Alter>(conn: &Connection<S>)
    ensures { IsSettled (state S.Store conn.now) }
{
    let _ = conn.is_autocommit();
}
