//! The program of the reference gateway: hands its words and the real outside to `serve_gateway`, and ends with the status that this
//! answers.
//!
//! It may cite `iss_gateway_serve`, `iss_real`, the statuses of `iss_edge` and std's streams. It must not cite what a gateway
//! decides: all of that is in `iss_gateway`.
#![tactic(auto)]

use iss_edge::status::{OUT_OF_MEMORY, USAGE};
use iss_gateway_serve::{serve_gateway, service_of};
use iss_real::{Device, RealEdge, Sockets, words_of};
use std::io;
use std::process::ExitCode;

fn main(rt: HostRuntime) -> ExitCode {
    let status = match words_of(&rt) {
        Ok(words) => status_of(&rt, words.as_slice()),
        Err(e) if e.kind() == io::ErrorKind::OutOfMemory => OUT_OF_MEMORY,
        // A word that is not text is no number.
        Err(_) => USAGE,
    };
    ExitCode::from(status)
}

/// Serves as the words ask for, on the port that they name. There is no device, and nobody is dialled.
fn status_of(rt: &HostRuntime, words: &[String]) -> u8 {
    let sockets = sockets_of(rt, words);
    let mut edge = RealEdge::new(rt.stdin(), rt.stdout(), Device::absent(), sockets);
    serve_gateway(rt.alloc(), words, &mut edge)
}

/// The sockets that the words ask for. If the program can't listen on the port, each wait fails.
fn sockets_of(rt: &HostRuntime, words: &[String]) -> Sockets<HostRuntime> {
    let mut sockets = Sockets::none(*rt, rt.alloc());
    if let Ok(service) = service_of(words) {
        let _ = sockets.listen(rt.alloc(), service.port);
    }
    sockets
}
