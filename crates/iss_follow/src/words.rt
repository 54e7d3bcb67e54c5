//! What the words of a run ask for.
ghost use Rattle.std.specs.Prelude.{◌≡◌, IfOk, IfSome};
ghost use Rattle.std.specs.Result.{result_ok};
ghost use Rattle.iss_follow.specs.Words.{is_device, are_devices, two_word_command, copy_command, command_in, IsInRange};

use iss_amount::number_in;
use iss_halves::layout::LEAST_HALVES_SIZE;
use iss_journal::layout::GREATEST_SIZE;

/// The most bytes that the name of a device has.
const LONGEST_NAME: usize = 4096;

/// What a run is to do.
#[derive(Debug, Clone, Copy)]
pub enum Command {
    /// `copy FROM TO SIZE`: TO, of SIZE bytes, gets the image of all that stands on FROM.
    Copy { size: u64 },
    /// `catch FROM TO`: TO gets the records of FROM that it doesn't hold.
    Catch,
    /// `same FROM TO`: it is written whether both stand for the same.
    Same,
}

/// The words are no command.
#[derive(Debug, Clone, Copy)]
pub struct Usage;

/// What the words after the program's name ask for.
///
/// FROM and TO are different texts. Each has 1 to 4096 bytes and doesn't begin with `-`. SIZE is decimal digits without a sign and
/// without a leading zero, from 27 to 4294967296.
pub fn command_of(words: &[String]) -> Result<Command, Usage>
    ensures said { result_ok result ≡ command_in words.now }
    ensures ranges { IfOk result IsInRange }
{
    match said(words) {
        Some(command) => Ok(command),
        None => Err(Usage),
    }
}

/// The command that the words say, if they say one.
#[tactic(auto, using(crate::proofs::Numbers::few, crate::proofs::Numbers::many), unfolding(crate::specs::Words::command_of_words))]
fn said(words: &[String]) -> Option<Command>
    ensures said { result ≡ command_in words.now }
    ensures ranges { IfSome result IsInRange }
{
    match words {
        [name, from, to] => two_devices_said(name.as_str(), from.as_bytes(), to.as_bytes()),
        [name, from, to, size] => copy_said(
            name.as_str(),
            from.as_bytes(),
            to.as_bytes(),
            size.as_bytes(),
        ),
        _ => None,
    }
}

/// What a word and two devices ask for.
fn two_devices_said(name: &str, from: &[u8], to: &[u8]) -> Option<Command>
    ensures said { result ≡ two_word_command name.now from.now to.now }
    ensures ranges { IfSome result IsInRange }
{
    match name {
        "catch" => are_devices(from, to).then_some(Command::Catch),
        "same" => are_devices(from, to).then_some(Command::Same),
        _ => None,
    }
}

/// What a word, two devices and a size ask for.
fn copy_said(name: &str, from: &[u8], to: &[u8], size: &[u8]) -> Option<Command>
    ensures said { result ≡ copy_command name.now from.now to.now size.now }
    ensures ranges { IfSome result IsInRange }
{
    if name != "copy" || !are_devices(from, to) {
        return None;
    }
    let size = number_in(LEAST_HALVES_SIZE, GREATEST_SIZE, size)?;
    Some(Command::Copy { size })
}

/// Whether these can be the names of two devices.
fn are_devices(from: &[u8], to: &[u8]) -> bool
    ensures { result ≡ are_devices from.now to.now }
{
    is_device(from) && is_device(to) && from != to
}

/// Whether this can be the name of a device.
fn is_device(word: &[u8]) -> bool
    ensures { result ≡ is_device word.now }
{
    match word {
        [] => false,
        [first, ..] => *first != b'-' && word.len() <= LONGEST_NAME,
    }
}
