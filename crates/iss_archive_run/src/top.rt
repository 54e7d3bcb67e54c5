//! The words of a run, and what they do.
ghost use Rattle.iss_archive_run.specs.Words.{command_in};
ghost use Rattle.iss_archive_run.specs.Runs.{RunDone};

use crate::keeping::keep;
use crate::stop::{exit_status, statement_status};
use crate::words::{Command, Usage, command_of};
use iss_archive::Keeper;
use iss_edge::Edge;
use iss_edge::status::USAGE;
use iss_statement_run::write_statement;
use std::alloc::Global;

/// Does what the words after the program's name ask for, and returns the exit status.
///
/// `archive DEVICE DB` opens the device, and adds the postings of each record after those that are archived, one `add` a record. Then it
/// writes `{"posts":P,"records":R}` and a line feed on channel 0. The device and the database are the outside's and the keeper's.
///
/// `statement DB USER CURRENCY FROM TO` writes the statement of a user from the archive on channel 0, and calls nothing on the device.
///
/// The status is 0 if all is archived or the statement is written, and 2 for words that are no command. It is 4 if no store can be opened on the device, 5 if the
/// output failed, 6 if a call on the device failed, and 7 if an allocation failed. It is 11 if the record after those that are archived
/// can't be had any more. It is 12 if the archive is of another device or of more records, or if there would be more postings than can
/// be counted. It is 13 if the keeper failed.
#[tactic(auto)]
pub fn archive<E: Edge, K: Keeper>(
    alloc: Global,
    words: &[String],
    edge: &mut E,
    keeper: &mut K,
) -> u8
    ensures { RunDone (command_in words.now) E.faults E.told K.faults K.told K.left edge.old edge.new keeper.old keeper.new result }
{
    match command_of(words) {
        Ok(Command::Archive) => exit_status(keep(alloc, edge, keeper)),
        Ok(Command::Statement(asked)) => {
            statement_status(write_statement(alloc, edge, keeper, &asked))
        }
        Err(Usage) => USAGE,
    }
}
