//! Serving: clients and the gateway on channels, one thing after the other.
//!
//! The definitions of serving say what is sent to whom after what was heard. What a stop leaves at any moment is said over
//! the same steps.
//!
//! It may cite `iss_edge`, `iss_clients`, `iss_journal`, `iss_halves`, `iss_event`, `iss_http`, `iss_jit`, `iss_link`,
//! `iss_core`, `iss_standing`, `iss_opening`, `iss_store`, `iss_device`, `iss_model` and its laws, and the definitions of
//! serving. It must not cite words, nor the real outside: it works over any `Edge`.
#![tactic(auto)]

mod closing;
mod fault;
mod hearing;
mod held;
mod judging;
mod requests;
mod running;
mod telling;

pub use fault::ServeFault;
pub use running::serve;
