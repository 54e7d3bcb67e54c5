//! What the program's reading of texts owes to sessions.
ghost use Rattle.iss_session.specs.Openings.{ReadsEvents};
ghost use Rattle.iss_session_examples.specs.Program.{program_readers};

/// Each line of a client that the program reads as an input is an event. No client tells what time it is, what a gateway
/// answered, or that a notice is acknowledged.
#[tactic(auto, using(crate::proofs::ClientLines::program_reads_events))]
pub fn clients_send_events()
    ensures { ReadsEvents program_readers }
{}
