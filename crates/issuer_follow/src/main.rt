//! The program of a second device: hands its words and two real outsides to `follow`, and ends with the status that this answers.
//!
//! It may cite `iss_follow`, `iss_real`, the statuses of `iss_edge` and std's files.
//! It must not cite what stands on a device: all of that is in `iss_follow`.
#![tactic(auto)]

use iss_edge::status::{OUT_OF_MEMORY, USAGE};
use iss_follow::{Command, command_of, follow};
use iss_real::{Device, RealEdge, Sockets, words_of};
use std::fs::{File, Files};
use std::io;
use std::process::ExitCode;

fn main(rt: HostRuntime) -> ExitCode {
    let status = match words_of(&rt) {
        Ok(words) => status_of(&rt, words.as_slice()),
        Err(e) if e.kind() == io::ErrorKind::OutOfMemory => OUT_OF_MEMORY,
        // A word that is not text belongs to no command.
        Err(_) => USAGE,
    };
    ExitCode::from(status)
}

/// Does what the words ask for, over the devices that they name. Nobody comes there, and nobody is dialled. Standard output is that of
/// the first one's outside.
fn status_of(rt: &HostRuntime, words: &[String]) -> u8 {
    let mut from = RealEdge::new(
        rt.stdin(),
        rt.stdout(),
        from_of(rt, words),
        Sockets::none(*rt, rt.alloc()),
    );
    let mut to = RealEdge::new(
        rt.stdin(),
        rt.stdout(),
        to_of(rt, words),
        Sockets::none(*rt, rt.alloc()),
    );
    follow(rt.alloc(), words, &mut from, &mut to)
}

/// The device FROM.
fn from_of(files: &impl Files<File = File>, words: &[String]) -> Device {
    match (command_of(words), words.get(1)) {
        (Ok(_), Some(name)) => Device::opened(files, name.as_str()),
        _ => Device::absent(),
    }
}

/// The device TO. If there is no file, copying makes one.
fn to_of(files: &impl Files<File = File>, words: &[String]) -> Device {
    match (command_of(words), words.get(2)) {
        (Ok(Command::Copy { size }), Some(name)) => {
            Device::opened_or_made(files, name.as_str(), size)
        }
        (Ok(_), Some(name)) => Device::opened(files, name.as_str()),
        _ => Device::absent(),
    }
}
