//! What the words of a run ask for.
ghost use Rattle.std.specs.Prelude.{◌≡◌};
ghost use Rattle.std.specs.Result.{result_ok};
ghost use Rattle.iss_statement.specs.Words.{asked_in};
ghost use Rattle.iss_archive_run.specs.Words.{is_name, archive_command, statement_command, command_in};

use iss_statement::{StatementWords, statement_words};

/// The most bytes that the name of a device or a database has.
const LONGEST_NAME: usize = 4096;

/// What a run is to do.
#[derive(Clone, Copy)]
pub enum Command {
    /// `archive DEVICE DB`: the archive in the database is brought up to date with the device.
    Archive,
    /// `statement DB USER CURRENCY FROM TO`: the statement of a user from the archive in the database.
    Statement(StatementWords),
}

/// The words are no command.
#[derive(Debug, Clone, Copy)]
pub struct Usage;

/// What the words after the program's name ask for. DEVICE and DB have 1 to 4096 bytes and don't begin with `-`. USER, CURRENCY, FROM and
/// TO are the words of `iss_statement::statement_words`.
pub fn command_of(words: &[String]) -> Result<Command, Usage>
    ensures { result_ok result ≡ command_in words.now }
{
    match said(words) {
        Some(command) => Ok(command),
        None => Err(Usage),
    }
}

/// The command that the words say, if they say one.
#[tactic(auto, unfolding(crate::specs::Words::command_of_words))]
fn said(words: &[String]) -> Option<Command>
    ensures { result ≡ command_in words.now }
{
    match words {
        [name, device, database] => {
            archive_said(name.as_str(), device.as_bytes(), database.as_bytes())
        }
        [name, database, asked @ ..] => {
            statement_said(name.as_str(), database.as_bytes(), asked)
        }
        _ => None,
    }
}

/// What three words ask for.
fn archive_said(name: &str, device: &[u8], database: &[u8]) -> Option<Command>
    ensures { result ≡ archive_command name.now device.now database.now }
{
    if name != "archive" || !is_name(device) {
        return None;
    }
    is_name(database).then_some(Command::Archive)
}

/// What the words of a statement ask for.
fn statement_said(name: &str, database: &[u8], asked: &[String]) -> Option<Command>
    ensures { result ≡ statement_command name.now database.now (asked_in asked.now) }
{
    if name != "statement" || !is_name(database) {
        return None;
    }
    match statement_words(asked) {
        Some(asked) => Some(Command::Statement(asked)),
        None => None,
    }
}

/// Whether this can be the name of a device or a database.
fn is_name(word: &[u8]) -> bool
    ensures { result ≡ is_name word.now }
{
    match word {
        [] => false,
        [first, ..] => *first != b'-' && word.len() <= LONGEST_NAME,
    }
}
