//! Stops at each call on the files of a database: the log's and the database's.
ghost use Rattle.std.specs.Prelude.{◌≡◌};

use crate::records::{Names, archive, found, token_names};
use iss_archive::KeepFault;
use iss_sql_keeper::SqliteKeeper;
use sqlite::{Alter, Connection, FileStore, Files, Options};
use sqlite_disk::{Crash, Disk, Fuse, Memory};
use std::alloc::Global;
use std::test::Fail;

/// Files that can be opened again after a stop.
type Left = Files<Fuse<Memory>>;

/// A database over these files, or the files.
fn opened<D: Disk + Drop>(
    alloc: Global,
    files: Files<D>,
) -> Result<Connection<FileStore<D>>, Files<D>> {
    if !files.may_be_used() {
        return Err(files);
    }
    match Connection::open_files(alloc, files, Options::new(1)) {
        Ok(conn) => Ok(conn),
        Err((_, left)) => Err(left.into_files()),
    }
}

/// The files of a database that is closed, and whether that went well.
fn closed<D: Disk + Drop>(conn: Connection<FileStore<D>>) -> (bool, Files<D>) {
    match conn.close_files() {
        Ok(files) => (true, files),
        Err((_, store)) => (false, store.close()),
    }
}

/// Archives the first records in a database, and says whether that went well. It gives its connection back.
fn archived<S: Alter + Drop>(
    alloc: Global,
    conn: Connection<S>,
    most: u32,
    names: &Names,
) -> Option<(bool, Connection<S>)> {
    let mut keeper = SqliteKeeper::new(alloc, Some(conn)).ok()?;
    let went = archive(&mut keeper, most, names).is_ok();
    Some((went, keeper.into_connection()?))
}

/// The files of a database with five records.
fn prepared(alloc: Global, names: &Names) -> Option<Files<Memory>> {
    let files = Files {
        log: Memory::new(alloc),
        db: Memory::new(alloc),
    };
    let conn = opened(alloc, files).ok()?;
    let (went, conn) = archived(alloc, conn, 5, names)?;
    let (whole, files) = closed(conn);
    if went && whole { Some(files) } else { None }
}

/// Archives six records in the files, which may stop. It says whether that came to its end, and leaves the files.
fn run(alloc: Global, files: Left, names: &Names) -> Option<(bool, Left)> {
    let conn = match opened(alloc, files) {
        Ok(conn) => conn,
        Err(left) => return Some((false, left)),
    };
    let (went, conn) = archived(alloc, conn, 6, names)?;
    let (whole, left) = closed(conn);
    Some((went && whole, left))
}

/// What an open after a stop finds.
fn found_after(alloc: Global, mut left: Left) -> Option<(u32, u64)> {
    left.log.crash();
    left.db.crash();
    let conn = opened(alloc, left).ok()?;
    let mut keeper = SqliteKeeper::new(alloc, Some(conn)).ok()?;
    found(&mut keeper).ok()
}

/// A file with the same bytes, which all stay after a stop.
fn copied(alloc: Global, file: &Memory) -> Option<Memory> {
    let mut copy = Memory::new(alloc);
    copy.write_at(0, file.bytes()).ok()?;
    copy.sync().ok()?;
    Some(copy)
}

/// Archives a sixth record in a copy of the files, of which the log stops after `log` calls, and the database after `db`. It says
/// whether that came to its end, and what an open after it finds.
fn stopped(
    alloc: Global,
    files: &Files<Memory>,
    log: u64,
    db: u64,
    names: &Names,
) -> Option<(bool, (u32, u64))> {
    let fused = Files {
        log: Fuse::new(copied(alloc, &files.log)?, log),
        db: Fuse::new(copied(alloc, &files.db)?, db),
    };
    let (whole, left) = run(alloc, fused, names)?;
    Some((whole, found_after(alloc, left)?))
}

/// Whether a stop left five records or six, and six if the run came to its end. A stop at the first call leaves five.
fn is_kept(calls: u64, whole: bool, found: (u32, u64)) -> bool {
    (calls > 0 && found == (6, 2)) || (!whole && found == (5, 1))
}

/// Which file stops.
#[derive(Clone, Copy)]
enum Which {
    Log,
    Database,
}

/// Stops a file after each number of calls, from `from` on, and says whether a run came to its end before `to` calls. It is
/// `None` if a stop left anything else than five records or six.
fn stops(alloc: Global, file: Which, from: u64, to: u64) -> Option<bool> {
    let names = token_names()?;
    let files = prepared(alloc, &names)?;
    for calls in from..to {
        let (whole, found) = match file {
            Which::Log => stopped(alloc, &files, calls, u64::MAX, &names)?,
            Which::Database => stopped(alloc, &files, u64::MAX, calls, &names)?,
        };
        if !is_kept(calls, whole, found) {
            return None;
        }
        if whole {
            return Some(true);
        }
    }
    Some(false)
}

#[test]
fn first_stops_of_the_log(rt: HostRuntime) -> Result<(), Fail> {
    assert_eq!(rt; stops(rt.alloc(), Which::Log, 0, 12), Some(false));
    Ok(())
}

#[test]
fn second_stops_of_the_log(rt: HostRuntime) -> Result<(), Fail> {
    assert!(rt; stops(rt.alloc(), Which::Log, 12, 24).is_some());
    Ok(())
}

#[test]
fn third_stops_of_the_log(rt: HostRuntime) -> Result<(), Fail> {
    assert!(rt; stops(rt.alloc(), Which::Log, 24, 36).is_some());
    Ok(())
}

/// In the end a run isn't stopped.
#[test]
fn last_stops_of_the_log(rt: HostRuntime) -> Result<(), Fail> {
    assert_eq!(rt; stops(rt.alloc(), Which::Log, 36, 64), Some(true));
    Ok(())
}

#[test]
fn first_stops_of_the_database(rt: HostRuntime) -> Result<(), Fail> {
    assert_eq!(rt; stops(rt.alloc(), Which::Database, 0, 6), Some(false));
    Ok(())
}

#[test]
fn second_stops_of_the_database(rt: HostRuntime) -> Result<(), Fail> {
    assert!(rt; stops(rt.alloc(), Which::Database, 6, 18).is_some());
    Ok(())
}

/// In the end a run isn't stopped.
#[test]
fn last_stops_of_the_database(rt: HostRuntime) -> Result<(), Fail> {
    assert_eq!(rt; stops(rt.alloc(), Which::Database, 18, 64), Some(true));
    Ok(())
}
