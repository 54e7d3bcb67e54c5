//! What the words of a run ask for.
ghost use Rattle.std.specs.Prelude.{◌≡◌, IfOk, IfSome};
ghost use Rattle.std.specs.Result.{result_ok};
ghost use Rattle.iss_amount.specs.Digits.{number_in};
ghost use Rattle.iss_top.specs.Words.{is_device, dry_command, two_word_command, drill_of, format_command, serve_command, command_in, IsInRange};

use iss_amount::number_in;
use iss_drill::limits::MOST_EVENTS;
use iss_halves::layout::LEAST_HALVES_SIZE;
use iss_journal::layout::{GREATEST_SIZE, HEADER_INSTANCES};

/// The most bytes that the name of a device has.
const LONGEST_NAME: usize = 4096;

/// The greatest instance.
const GREATEST_INSTANCE: u64 = HEADER_INSTANCES - 1;

/// The greatest port.
const GREATEST_PORT: u64 = 65_535;

/// The most times that a server waits.
const MOST_TURNS: u64 = 4_294_967_295;

/// What a run is to do.
#[derive(Debug, Clone, Copy)]
pub enum Command {
    /// `dry`: lines get their replies, with no device.
    Dry,
    /// `format DEVICE SIZE INSTANCE`: the device of SIZE bytes is made one in halves of this instance that stands for no
    /// records.
    Format { size: u64, instance: u64 },
    /// `replay DEVICE`: lines get their replies, and what they make lasts on the device.
    Replay,
    /// `balances DEVICE`: what the accounts on the device have is written.
    Balances,
    /// `serve DEVICE PORT GATEWAYPORT TURNS`: clients on a port are served, the gateway is dialled on another, and at most TURNS waits
    /// are made.
    Serve { port: u16, gateway: u16, turns: u32 },
    /// `drill N`: N events are made and taken on a device in memory.
    Drill { n: u32 },
}

/// The words are no command.
#[derive(Debug, Clone, Copy)]
pub struct Usage;

/// What the words after the program's name ask for.
///
/// A number is decimal digits without a sign, and without a leading zero but in `0` itself. DEVICE has 1 to 4096 bytes
/// and doesn't begin with `-`, SIZE is 27 to 4294967296, INSTANCE is 0 to 281474976710655, PORT and GATEWAYPORT are 1 to
/// 65535, TURNS is 1 to 4294967295, and N is 1 to 100000.
pub fn command_of(words: &[String]) -> Result<Command, Usage>
    ensures said { result_ok result ≡ command_in words.now }
    ensures ranges { IfOk result IsInRange }
{
    match said(words) {
        Some(command) => Ok(command),
        None => Err(Usage),
    }
}

/// The command that the words say, if they say one.
#[tactic(auto, using(crate::proofs::Numbers::three, crate::proofs::Numbers::six_or_more), unfolding(crate::specs::Words::command_of_words))]
fn said(words: &[String]) -> Option<Command>
    ensures said { result ≡ command_in words.now }
    ensures ranges { IfSome result IsInRange }
{
    match words {
        [name] => dry_said(name.as_str()),
        [name, word] => two_words_said(name.as_str(), word.as_bytes()),
        [name, device, size, instance] => format_said(
            name.as_str(),
            device.as_bytes(),
            size.as_bytes(),
            instance.as_bytes(),
        ),
        [name, device, port, gateway, turns] => serve_said(
            name.as_str(),
            device.as_bytes(),
            port.as_bytes(),
            gateway.as_bytes(),
            turns.as_bytes(),
        ),
        _ => None,
    }
}

/// What a word by itself asks for.
fn dry_said(name: &str) -> Option<Command>
    ensures said { result ≡ dry_command name.now }
    ensures ranges { IfSome result IsInRange }
{
    (name == "dry").then_some(Command::Dry)
}

/// What two words ask for.
fn two_words_said(name: &str, word: &[u8]) -> Option<Command>
    ensures said { result ≡ two_word_command name.now word.now }
    ensures ranges { IfSome result IsInRange }
{
    match name {
        "replay" => is_device(word).then_some(Command::Replay),
        "balances" => is_device(word).then_some(Command::Balances),
        "drill" => drill_said(word),
        _ => None,
    }
}

/// What the word after `drill` asks for.
fn drill_said(number: &[u8]) -> Option<Command>
    ensures said { result ≡ drill_of (number_in 1 MOST_EVENTS number.now) }
    ensures ranges { IfSome result IsInRange }
{
    let n = number_in(1, u64::from(MOST_EVENTS), number)? as u32;
    Some(Command::Drill { n })
}

/// What four words ask for.
fn format_said(name: &str, device: &[u8], size: &[u8], instance: &[u8]) -> Option<Command>
    ensures said { result ≡ format_command name.now device.now size.now instance.now }
    ensures ranges { IfSome result IsInRange }
{
    if name != "format" || !is_device(device) {
        return None;
    }
    let size = number_in(LEAST_HALVES_SIZE, GREATEST_SIZE, size)?;
    let instance = number_in(0, GREATEST_INSTANCE, instance)?;
    Some(Command::Format { size, instance })
}

/// What five words ask for.
fn serve_said(
    name: &str,
    device: &[u8],
    port: &[u8],
    gateway: &[u8],
    turns: &[u8],
) -> Option<Command>
    ensures said { result ≡ serve_command name.now device.now port.now gateway.now turns.now }
    ensures ranges { IfSome result IsInRange }
{
    if name != "serve" || !is_device(device) {
        return None;
    }
    let port = number_in(1, GREATEST_PORT, port)? as u16;
    let gateway = number_in(1, GREATEST_PORT, gateway)? as u16;
    let turns = number_in(1, MOST_TURNS, turns)? as u32;
    Some(Command::Serve {
        port,
        gateway,
        turns,
    })
}

/// Whether this can be the name of a device.
fn is_device(word: &[u8]) -> bool
    ensures { result ≡ is_device word.now }
{
    match word {
        [] => false,
        [first, ..] => *first != b'-' && word.len() <= LONGEST_NAME,
    }
}
