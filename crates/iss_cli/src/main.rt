//! The program: hands its words and the real outside to `run`, and ends with the status that this answers.
//!
//! It may cite `iss_top`, `iss_real`, the statuses of `iss_edge`, `thiserror` and std's streams and files. It must not cite the
//! model: all that it decides is in `iss_top`.
#![tactic(auto)]

mod failure;

use failure::failure_of;
use iss_edge::status::{OUT_OF_MEMORY, USAGE};
use iss_real::{Device, RealEdge, Sockets, words_of};
use iss_top::{Command, command_of, run};
use std::fs::{File, Files};
use std::io;
use std::process::ExitCode;

fn main(rt: HostRuntime) -> ExitCode {
    let status = match words_of(&rt) {
        Ok(words) => status_of(&rt, words.as_slice()),
        Err(e) if e.kind() == io::ErrorKind::OutOfMemory => OUT_OF_MEMORY,
        // A word that is not text belongs to no command.
        Err(_) => USAGE,
    };
    if let Some(failure) = failure_of(status) {
        // If standard error fails too, only the status tells.
        let _ = eprintln!(rt; "{failure}");
    }
    ExitCode::from(status)
}

/// Does what the words ask for, over the standard streams and the device and ports that they name.
fn status_of(rt: &HostRuntime, words: &[String]) -> u8 {
    let device = device_of(rt, words);
    let sockets = sockets_of(rt, words);
    let mut edge = RealEdge::new(rt.stdin(), rt.stdout(), device, sockets);
    run(rt.alloc(), words, &mut edge)
}

/// The sockets that the words ask for: clients on the one port, the gateway on the other. If the program can't listen on the first,
/// each wait fails.
fn sockets_of(rt: &HostRuntime, words: &[String]) -> Sockets<HostRuntime> {
    let mut sockets = Sockets::none(*rt, rt.alloc());
    if let Ok(Command::Serve { port, gateway, .. }) = command_of(words) {
        let _ = sockets.listen(rt.alloc(), port);
        sockets.set_gateway(gateway);
    }
    sockets
}

/// The device that the words name. If there is no file, formatting makes one.
fn device_of(files: &impl Files<File = File>, words: &[String]) -> Device {
    match (command_of(words), words.get(1)) {
        (Ok(Command::Format { size, .. }), Some(name)) => {
            Device::opened_or_made(files, name.as_str(), size)
        }
        (Ok(Command::Replay | Command::Balances | Command::Serve { .. }), Some(name)) => {
            Device::opened(files, name.as_str())
        }
        _ => Device::absent(),
    }
}
