//! A database that is an archive.

ghost use Rattle.std.specs.Prelude.{◌≡◌, IfErr, IfOk, IfSome, IsTrue};
ghost use Rattle.sqlite.specs.Held.{state};
ghost use Rattle.iss_archive.specs.Archived.{Follows};
ghost use Rattle.iss_archive.specs.Statable.{is_statable};
ghost use Rattle.iss_sql_keeper.specs.Opened.{HoldsOn};
ghost use Rattle.iss_sql_keeper.specs.Refused.{WhyRefused};
ghost use Rattle.iss_sql_keeper.specs.Shown.{LeavesSame, MayLeaveAdded, TellsAdded, TellsHead, TellsPosts, TellsSame, told_in};
ghost use Rattle.iss_sql_keeper.specs.Telling.{IsTold, StaysTold};

use crate::adding::add_to;
use crate::asking::{tell_head, tell_posts};
use crate::opening::prepare;
use iss_archive::{Head, KeepFault, PostRow};
use iss_model::{Currency, Token};
use sqlite::{Alter, Connection};
use std::alloc::{AllocError, Global};
use std::marker::Model;

/// A connection to an archive, outside a transaction.
#[derive(Drop)]
pub(crate) struct Database<S: Alter + Drop> {
    conn: Connection<S>,
    alloc: Global,
}

impl<S: Alter + Drop> Model for Database<S> {
    ghost use Rattle.sqlite.specs.Held.{Held, held_code, state};
    ghost use Rattle.iss_sql_keeper.specs.Opened.{HoldsOn};
    ghost use Rattle.iss_sql_keeper.specs.Shown.{IsKept};

    ghost Value = { Held S };

    ghost coded = { held_code S.code };

    ghost view = { λ d. d.conn };

    ghost invariant = { λ d. IsKept (state S.Store d.conn) };
}

impl<S: Alter + Drop> Database<S> {
    /// The archive of a database, whose tables are made if they aren't there, or the connection back if it isn't one.
    pub(crate) fn open(
        alloc: Global,
        mut conn: Connection<S>,
    ) -> Result<Result<Database<S>, Connection<S>>, AllocError>
        ensures held { IfOk result (λ opened. IfOk opened (λ d. HoldsOn (state S.Store conn) (state S.Store d))) }
        ensures told { IfOk result (λ opened. IfOk opened (λ d. IsTold (state S.Store d))) }
        ensures cause { IfOk result (λ opened. IfErr opened (λ d. WhyRefused (state S.Store conn) (state S.Store d))) }
    {
        match prepare(&mut conn) {
            Ok(true) => Ok(Ok(Database { conn, alloc })),
            Err(KeepFault::OutOfMemory) => Err(AllocError),
            Ok(false) | Err(KeepFault::Failed) => Ok(Err(conn)),
        }
    }

    /// The connection, as it is.
    pub(crate) fn into_connection(self) -> Connection<S>
        ensures { result ≡ self }
    {
        self.conn
    }

    /// The head, if there is one.
    pub(crate) fn head(&mut self) -> Result<Option<Head>, KeepFault>
        ensures read { TellsHead result (state S.Store self.old) (state S.Store self.new) }
        ensures telling { StaysTold result (state S.Store self.new) }
        ensures unchanged { TellsSame result (state S.Store self.old) (state S.Store self.new) }
        ensures stop { LeavesSame (state S.Store self.old) (state S.Store self.new) }
    {
        tell_head(&mut self.conn)
    }

    /// Adds a record's rows and sets the head, both or neither.
    pub(crate) fn add(&mut self, head: &Head, rows: &[PostRow]) -> Result<(), KeepFault>
        requires { IfSome (told_in (state S.Store self.old)) (λ a. Follows a head.now rows.now) }
        ensures added { TellsAdded head.now rows.now result (state S.Store self.old) (state S.Store self.new) }
        ensures telling { StaysTold result (state S.Store self.new) }
        ensures undone { TellsSame result (state S.Store self.old) (state S.Store self.new) }
        ensures stop { MayLeaveAdded head.now rows.now (state S.Store self.old) (state S.Store self.new) }
    {
        add_to(self.alloc, &mut self.conn, head, rows)
    }

    /// The rows with this user and currency on a side, by number.
    pub(crate) fn of_user(
        &mut self,
        user: &Token,
        currency: Currency,
    ) -> Result<Vec<PostRow>, KeepFault>
        ensures read { TellsPosts user.now currency result (state S.Store self.old) (state S.Store self.new) }
        ensures statable { IfOk result (λ rows. IsTrue (is_statable user.now currency rows.items)) }
        ensures telling { StaysTold result (state S.Store self.new) }
        ensures unchanged { TellsSame result (state S.Store self.old) (state S.Store self.new) }
        ensures stop { LeavesSame (state S.Store self.old) (state S.Store self.new) }
    {
        tell_posts(self.alloc, &mut self.conn, user, currency)
    }
}
