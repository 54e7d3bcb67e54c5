//! The gateway, served over an edge.
ghost use Rattle.std.specs.Prelude.{◌≡◌, is_ok, true};
ghost use Rattle.iss_attend.specs.Causes.{IsAttendCaused};
ghost use Rattle.iss_attend.specs.Runs.{RunsOn};
ghost use Rattle.iss_gateway_serve.specs.Answers.{gateway_manner};
ghost use Rattle.iss_gateway_serve.specs.Serving.{exit_status, unheard, ServedOn, StatusOn};
ghost use Rattle.iss_gateway_serve.specs.Words.{service_in, IsInRange};

use crate::answering::Attendant;
use crate::words::{Service, Usage, service_of};
use iss_attend::{AttendFault, attend};
use iss_edge::Edge;
use iss_edge::status::{DONE, INPUT_FAULT, OUT_OF_MEMORY, USAGE};
use iss_gateway::Gateway;
use std::alloc::Global;

/// Does all that the program does, by the words after the program's name, `PORT TURNS MAX TOTAL`, and returns the exit status.
///
/// It serves `POST /jit` to the clients that come, in at most TURNS waits, as a gateway that funds at most MAX minor units for a call
/// and TOTAL for a user in a currency. Each body is answered at once. The port is the outside's.
///
/// The status is 0 for a run that came to its end, and 2 for words that ask for nothing. It is 3 if a wait failed, and 7 if an
/// allocation failed.
pub fn serve_gateway<E: Edge>(alloc: Global, words: &[String], edge: &mut E) -> u8
    // The status is 2 exactly if the words ask for nothing, and then nothing is done. It is 3 only if a wait failed.
    ensures status { StatusOn E.faults edge.old edge.new (service_in words.now) result }

    // What was heard fits, at most TURNS waits were made, and what was done follows from it, or is a first part of that: each whole
    // request is answered at once with what the gateway gives after the bodies before it, and a body that is no message with the
    // fault. At 0 what was heard is complete, each channel has exactly these bytes, and all channels are closed.
    ensures served { ServedOn E.told E.heard edge.old edge.new result (service_in words.now) }
{
    match service_of(words) {
        Ok(service) => exit_status(serve(alloc, service, edge)),
        Err(Usage) => USAGE,
    }
}

/// Serves as a gateway that has heard nothing.
fn serve<E: Edge>(alloc: Global, service: Service, edge: &mut E) -> Result<(), AttendFault>
    requires { IsInRange service }
    ensures served { RunsOn E.told E.heard gateway_manner (unheard service) service.turns (is_ok result ≡ true) edge.old edge.new }
    ensures caused { IsAttendCaused (E.faults edge.old) (E.faults edge.new) result }
{
    let gateway = Gateway::new(alloc, service.most, service.limit)?;
    attend(alloc, Attendant { gateway }, service.turns, edge)
}

/// The exit status of a run that ended so.
fn exit_status(done: Result<(), AttendFault>) -> u8
    ensures { result ≡ exit_status done }
{
    match done {
        Ok(()) => DONE,
        Err(AttendFault::Wait) => INPUT_FAULT,
        Err(AttendFault::OutOfMemory) => OUT_OF_MEMORY,
    }
}
