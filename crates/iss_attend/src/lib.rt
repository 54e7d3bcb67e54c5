//! Attends to the clients of a gateway: each whole request is answered at once, and then its channel is closed.
//!
//! What answers a body is a parameter: a value that, by what stands in it, has a response to each body and stands otherwise after it.
//!
//! It may cite `iss_edge`, `iss_http`, `iss_link`, `iss_clients` and the definitions of serving. It must not cite words, what a
//! body says, nor the real outside: it works over any `Edge`.
#![tactic(auto)]

mod answering;
mod fault;
mod held;
mod reading;
mod replying;
mod running;

pub use answering::AnswersBodies;
pub use fault::AttendFault;
pub use running::attend;
