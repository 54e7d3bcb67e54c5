//! A keeper over a database of `sqlite`.

ghost use Rattle.std.specs.Prelude.{◌≡◌, IfErr, IfOk, IfSome, IsTrue, OnErr, OnOk};
ghost use Rattle.std.specs.Option.{option_or};
ghost use Rattle.sqlite.specs.Held.{state};
ghost use Rattle.iss_archive.specs.Archived.{Counts};
ghost use Rattle.iss_sql_keeper.specs.Opened.{IsHeldBy};
ghost use Rattle.iss_sql_keeper.specs.Refused.{IsRefusedFor};
ghost use Rattle.iss_sql_keeper.specs.Telling.{IsToldIfAny};

use crate::database::Database;
use iss_archive::{Head, KeepFault, Keeper, PostRow};
use iss_model::{Currency, Token};
use sqlite::{Alter, Connection};
use std::alloc::{AllocError, Global};

/// A keeper over a database.
///
/// It tells what was last committed, while the disk returns what was written and the connection is open. A call that answers Ok
/// leaves it open.
#[derive(Drop)]
pub struct SqliteKeeper<S: Alter + Drop> {
    /// `None` if it can't be had, or is no archive. Then every call fails.
    database: Option<Database<S>>,
    /// The connection to a database that is no archive.
    refused: Option<Connection<S>>,
    faults: u64,
}

impl<S: Alter + Drop> SqliteKeeper<S> {
    /// A keeper over this connection, or over none if the database can't be opened. The two tables are made if they aren't there.
    ///
    /// What it tells is what the tables held, and that nothing is archived in a table that it made. While the disk returns what
    /// was written, it tells that of each database that it took. One is refused only if its tables are others, or hold no archive,
    /// or it couldn't be asked.
    pub fn new(alloc: Global, conn: Option<Connection<S>>) -> Result<SqliteKeeper<S>, AllocError>
        ensures faults { IfOk result (λ k. ⟦<SqliteKeeper<S> as Keeper>⟧.faults k ≡ 0) }
        ensures telling { IfOk result (λ k. IsToldIfAny (state S.Store) k.database) }
        ensures cause { IfOk result (λ k. IsRefusedFor (state S.Store) conn k.database k.refused) }
        ensures told { IfOk result (λ k. IfSome (⟦<SqliteKeeper<S> as Keeper>⟧.told k) (IsHeldBy (state S.Store) conn)) }
    {
        let Some(conn) = conn else {
            return Ok(SqliteKeeper {
                database: None,
                refused: None,
                faults: 0,
            });
        };
        match Database::open(alloc, conn)? {
            Ok(database) => Ok(SqliteKeeper {
                database: Some(database),
                refused: None,
                faults: 0,
            }),
            Err(conn) => Ok(SqliteKeeper {
                database: None,
                refused: Some(conn),
                faults: 0,
            }),
        }
    }

    /// The connection that the keeper was made over, as it is now.
    pub fn into_connection(self) -> Option<Connection<S>>
        ensures { result ≡ option_or self.database self.refused }
    {
        let SqliteKeeper {
            database,
            refused,
            faults: _,
        } = self;
        match database {
            Some(database) => Some(database.into_connection()),
            None => refused,
        }
    }
}

impl<S: Alter + Drop> Keeper for SqliteKeeper<S> {
    ghost use Rattle.sqlite.specs.Held.{state};
    ghost use Rattle.iss_archive.specs.declared.post.KeepFault.TheVariants.{OutOfMemory};
    ghost use Rattle.iss_archive.specs.Archived.{Adds, Follows, Gives, MayHaveAdded, Same};
    ghost use Rattle.iss_archive.specs.Statable.{is_statable};
    ghost use Rattle.iss_sql_keeper.specs.Shown.{told_of, LeftOf};
    ghost use Rattle.iss_sql_keeper.specs.Standing.{stands_of};
    ghost use Rattle.iss_sql_keeper.specs.Telling.{GivesHead, Goes, LeavesNoMore, LeavesNoMoreThan, StaysTelling};

    ghost told = { λ k. told_of (state S.Store) k.database };

    ghost left = { λ k. LeftOf (state S.Store) k.database };

    ghost faults = { λ k. k.faults };

    fn head(&mut self) -> Result<Option<Head>, KeepFault>
        ensures telling { StaysTelling (state S.Store) result self.new.database }
        ensures read { IfOk result (λ head. Goes (state S.Store) (GivesHead head) self.old.database self.new.database) }
        ensures unchanged { OnErr result (Goes (state S.Store) Same self.old.database self.new.database) }
        ensures stop { LeavesNoMore (state S.Store) self.old.database self.new.database }
        ensures cause { Counts self.old.faults self.new.faults result }
    {
        match &mut self.database {
            Some(database) => counted(&mut self.faults, database.head()),
            None => counted(&mut self.faults, Err(KeepFault::Failed)),
        }
    }

    fn add(&mut self, head: &Head, rows: &[PostRow]) -> Result<(), KeepFault>
        requires next { IfSome (told_of (state S.Store) self.old.database) (λ a. Follows a head.now rows.now) }
        ensures telling { StaysTelling (state S.Store) result self.new.database }
        ensures added { OnOk result (Goes (state S.Store) (Adds head.now rows.now) self.old.database self.new.database) }
        ensures refused { IfErr result (λ e. e ≡ OutOfMemory → Goes (state S.Store) Same self.old.database self.new.database) }
        ensures failed { OnErr result (Goes (state S.Store) (MayHaveAdded head.now rows.now) self.old.database self.new.database) }
        ensures stop { LeavesNoMoreThan (state S.Store) (Adds head.now rows.now) self.old.database self.new.database }
        ensures cause { Counts self.old.faults self.new.faults result }
    {
        match &mut self.database {
            Some(database) => counted(&mut self.faults, database.add(head, rows)),
            None => counted(&mut self.faults, Err(KeepFault::Failed)),
        }
    }

    fn of_user(&mut self, user: &Token, currency: Currency) -> Result<Vec<PostRow>, KeepFault>
        ensures telling { StaysTelling (state S.Store) result self.new.database }
        ensures read { IfOk result (λ all. Goes (state S.Store) (Gives user.now currency all.items) self.old.database self.new.database) }
        ensures statable { IfOk result (λ rows. IsTrue (is_statable user.now currency rows.items)) }
        ensures unchanged { OnErr result (Goes (state S.Store) Same self.old.database self.new.database) }
        ensures stop { LeavesNoMore (state S.Store) self.old.database self.new.database }
        ensures cause { Counts self.old.faults self.new.faults result }
    {
        match &mut self.database {
            Some(database) => counted(&mut self.faults, database.of_user(user, currency)),
            None => counted(&mut self.faults, Err(KeepFault::Failed)),
        }
    }

    ghost stands = { λ k a left. stands_of _ (λ h db is_open may. S.Store.settled h.store db is_open may) k.database a left };
}

/// The same result, with its failure counted.
fn counted<T>(faults: &mut u64, outcome: Result<T, KeepFault>) -> Result<T, KeepFault>
    ensures same { result ≡ outcome }
    ensures cause { Counts faults.old faults.new result }
{
    match outcome {
        Err(KeepFault::Failed) => {
            *faults = faults.saturating_add(1);
            Err(KeepFault::Failed)
        }
        other => other,
    }
}
