//! Stops at each call on the files of a database, the log's and the database's, while a run archives a sixth record.
use crate::playing::{FIVE, Run, SIX, held_by, play};
use iss_sql_keeper::SqliteKeeper;
use sqlite::{Alter, Connection, FileStore, Files, Options};
use sqlite_disk::{Crash, Disk, Fuse, Memory};
use std::alloc::Global;
use std::test::Fail;

/// Files that can be opened again after a stop.
type Left = Files<Fuse<Memory>>;

/// A database over these files, or the files.
fn opened<D: Disk + Drop>(
    alloc: Global,
    files: Files<D>,
) -> Result<Connection<FileStore<D>>, Files<D>> {
    if !files.log.may_be_used() || !files.db.may_be_used() {
        return Err(files);
    }
    match Connection::open_files(alloc, files, Options::new(1)) {
        Ok(conn) => Ok(conn),
        Err((_, left)) => Err(left.into_files()),
    }
}

/// The files of a database that is closed, and whether that went well.
fn closed<D: Disk + Drop>(conn: Connection<FileStore<D>>) -> (bool, Files<D>) {
    match conn.close_files() {
        Ok(files) => (true, files),
        Err((_, store)) => (false, store.close()),
    }
}

/// The status of a run over a database. It gives the connection back.
fn archived<S: Alter + Drop>(
    alloc: Global,
    conn: Connection<S>,
    run: &Run,
) -> Option<(u8, Connection<S>)> {
    let mut keeper = SqliteKeeper::new(alloc, Some(conn)).ok()?;
    let played = play(alloc, &mut keeper, run)?;
    Some((played.status, keeper.into_connection()?))
}

/// The files of a database with five records.
fn prepared(alloc: Global) -> Option<Files<Memory>> {
    let files = Files {
        log: Memory::new(alloc),
        db: Memory::new(alloc),
    };
    let conn = opened(alloc, files).ok()?;
    let (status, conn) = archived(alloc, conn, &FIVE)?;
    let (whole, files) = closed(conn);
    if status == 0 && whole {
        Some(files)
    } else {
        None
    }
}

/// What a run over files that may stop comes to: its status, whether the files were closed, and the files. It is `None` in the place of a status if
/// they couldn't be opened.
fn run(alloc: Global, files: Left) -> Option<(Option<u8>, bool, Left)> {
    let conn = match opened(alloc, files) {
        Ok(conn) => conn,
        Err(left) => return Some((None, false, left)),
    };
    let (status, conn) = archived(alloc, conn, &SIX)?;
    let (whole, left) = closed(conn);
    Some((Some(status), whole, left))
}

/// What an open after a stop finds.
fn found_after(alloc: Global, mut left: Left) -> Option<(u32, u64)> {
    left.log.crash();
    left.db.crash();
    let conn = opened(alloc, left).ok()?;
    let mut keeper = SqliteKeeper::new(alloc, Some(conn)).ok()?;
    held_by(&mut keeper)
}

/// Archives a sixth record in files of which the log stops after `log` calls, and the database after `db`. It says what the run came to, and
/// what an open after it finds.
fn stopped(alloc: Global, log: u64, db: u64) -> Option<(Option<u8>, bool, (u32, u64))> {
    let files = prepared(alloc)?;
    let fused = Files {
        log: Fuse::new(files.log, log),
        db: Fuse::new(files.db, db),
    };
    let (status, whole, left) = run(alloc, fused)?;
    Some((status, whole, found_after(alloc, left)?))
}

/// Whether a stop left five records or six, and six if the status is 0. Else it is 13, if the run began. A stop at the first call leaves five.
fn is_kept(calls: u64, status: Option<u8>, found: (u32, u64)) -> bool {
    match status {
        Some(0) => found == (6, 2),
        Some(13) | None => found == (5, 1) || (calls > 0 && found == (6, 2)),
        Some(_) => false,
    }
}

/// Which file stops.
#[derive(Clone, Copy)]
enum Which {
    Log,
    Database,
}

/// Stops a file after each number of calls, from `from` on, and says whether a run came to its end before `to` calls. It is
/// `None` if a stop left anything else than five records or six.
fn stops(alloc: Global, file: Which, from: u64, to: u64) -> Option<bool> {
    for calls in from..to {
        let (status, whole, found) = match file {
            Which::Log => stopped(alloc, calls, u64::MAX)?,
            Which::Database => stopped(alloc, u64::MAX, calls)?,
        };
        if !is_kept(calls, status, found) {
            return None;
        }
        if status == Some(0) && whole {
            return Some(true);
        }
    }
    Some(false)
}

#[test]
fn first_stops_of_the_log(rt: HostRuntime) -> Result<(), Fail> {
    assert_eq!(rt; stops(rt.alloc(), Which::Log, 0, 12), Some(false));
    Ok(())
}

#[test]
fn second_stops_of_the_log(rt: HostRuntime) -> Result<(), Fail> {
    assert!(rt; stops(rt.alloc(), Which::Log, 12, 24).is_some());
    Ok(())
}

#[test]
fn third_stops_of_the_log(rt: HostRuntime) -> Result<(), Fail> {
    assert!(rt; stops(rt.alloc(), Which::Log, 24, 36).is_some());
    Ok(())
}

/// In the end a run isn't stopped.
#[test]
fn last_stops_of_the_log(rt: HostRuntime) -> Result<(), Fail> {
    assert_eq!(rt; stops(rt.alloc(), Which::Log, 36, 64), Some(true));
    Ok(())
}

#[test]
fn first_stops_of_the_database(rt: HostRuntime) -> Result<(), Fail> {
    assert_eq!(rt; stops(rt.alloc(), Which::Database, 0, 6), Some(false));
    Ok(())
}

#[test]
fn second_stops_of_the_database(rt: HostRuntime) -> Result<(), Fail> {
    assert!(rt; stops(rt.alloc(), Which::Database, 6, 18).is_some());
    Ok(())
}

/// In the end a run isn't stopped.
#[test]
fn last_stops_of_the_database(rt: HostRuntime) -> Result<(), Fail> {
    assert_eq!(rt; stops(rt.alloc(), Which::Database, 18, 64), Some(true));
    Ok(())
}
