//! The program of the archive: opens the database that its words name, hands it and the real outside to `archive`, and ends with the
//! status that this answers.
//!
//! It may cite `iss_archive_run`, `iss_sql_keeper`, `iss_real`, the statuses of `iss_edge`, `sqlite` and std's streams. It must
//! not cite the model: all that it decides is in `iss_archive_run`.
#![tactic(auto)]

use iss_archive_run::{Command, archive, command_of};
use iss_edge::status::{OUT_OF_MEMORY, USAGE};
use iss_real::{Device, RealEdge, Sockets, words_of};
use iss_sql_keeper::SqliteKeeper;
use sqlite::{Connection, Error, ErrorCode, FileFrom, FileStore, Unknown};
use std::alloc::AllocError;
use std::fs::{File, Files};
use std::io;
use std::process::ExitCode;

/// A connection to a database in a file, of which nothing is known at first.
type Database = Connection<FileStore<FileFrom<Unknown>>>;

fn main(rt: HostRuntime) -> ExitCode {
    let status = match words_of(&rt) {
        Ok(words) => status_of(&rt, words.as_slice()),
        Err(e) if e.kind() == io::ErrorKind::OutOfMemory => OUT_OF_MEMORY,
        // A word that is not text belongs to no command.
        Err(_) => USAGE,
    };
    ExitCode::from(status)
}

/// Does what the words ask for, over standard output and the device and the database that they name.
fn status_of(rt: &HostRuntime, words: &[String]) -> u8 {
    match database_of(rt, words) {
        Ok(database) => status_with(rt, words, database),
        Err(AllocError) => OUT_OF_MEMORY,
    }
}

/// The same over this database, or over none.
fn status_with(rt: &HostRuntime, words: &[String], database: Option<Database>) -> u8 {
    let Ok(mut keeper) = SqliteKeeper::new(rt.alloc(), database) else {
        return OUT_OF_MEMORY;
    };
    let sockets = Sockets::none(*rt, rt.alloc());
    let mut edge = RealEdge::new(rt.stdin(), rt.stdout(), device_of(rt, words), sockets);
    let status = archive(rt.alloc(), words, &mut edge, &mut keeper);
    close(keeper);
    status
}

/// The device that the words name.
fn device_of(files: &impl Files<File = File>, words: &[String]) -> Device {
    match (command_of(words), words.get(1)) {
        (Ok(Command::Archive), Some(name)) => Device::opened(files, name.as_str()),
        _ => Device::absent(),
    }
}

/// The database that the words name, which is made if it isn't there. It is `None` if it can't be opened, or no words ask for one.
fn database_of(rt: &HostRuntime, words: &[String]) -> Result<Option<Database>, AllocError> {
    let place = match command_of(words) {
        Ok(Command::Archive) => 2,
        Ok(Command::Statement(_)) => 1,
        Err(_) => return Ok(None),
    };
    let Some(path) = words.get(place) else {
        return Ok(None);
    };
    match Connection::open_from(rt, path.as_str(), false, Unknown) {
        Ok(database) => Ok(Some(database)),
        Err((Error::SqliteFailure(ErrorCode::OutOfMemory), _)) => Err(AllocError),
        Err(_) => Ok(None),
    }
}

/// Closes the database, which brings its log into its file.
fn close(keeper: SqliteKeeper<FileStore<FileFrom<Unknown>>>) {
    if let Some(database) = keeper.into_connection() {
        // If that fails, what was committed stays in the log beside the file, and the next open reads both.
        let _ = database.close();
    }
}
