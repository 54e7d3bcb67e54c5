//! The statement of a user, from a keeper of the archive to channel 0.
ghost use Rattle.std.specs.Prelude.{◌≡◌, IfOk};
ghost use Rattle.std.specs.List.{concat};
ghost use Rattle.iss_statement_run.specs.Writing.{StatementDoneOn};

use crate::fault::StatementFault;
use iss_archive::Keeper;
use iss_edge::{Bytes, Channel, Edge};
use iss_statement::{StatementWords, statement_lines};
use std::alloc::{AllocError, Global};

/// Writes the statement that is asked for on channel 0, by one emit. The keeper is asked once, and nothing is called on the device.
pub fn write_statement<E: Edge, K: Keeper>(
    alloc: Global,
    edge: &mut E,
    keeper: &mut K,
    asked: &StatementWords,
) -> Result<(), StatementFault>
    ensures { StatementDoneOn asked.now E.faults E.told K.faults K.told K.left edge.old edge.new keeper.old keeper.new result }
{
    let rows = keeper.of_user(&asked.user, asked.currency)?;
    let lines = statement_lines(
        alloc,
        rows.as_slice(),
        &asked.user,
        asked.currency,
        asked.from,
        asked.to,
    )?;
    let text = joined(alloc, lines.as_slice())?;
    match edge.emit(Channel(0), text.as_slice()) {
        Ok(()) => Ok(()),
        Err(_) => Err(StatementFault::Output),
    }
}

/// The lines, one after the other.
fn joined(alloc: Global, lines: &[Bytes]) -> Result<Vec<u8>, AllocError>
    ensures { IfOk result (λ text. text.items ≡ concat lines.now) }
{
    let mut text = Vec::new(alloc);
    'lines: for line in lines {
        text.extend_from_slice(line.as_slice())?;
    }
    Ok(text)
}
