//! What serves clients: their requests, which come in any pieces, the faults that they are told, and the closes at the end.
//!
//! It is the same for whoever serves: what a whole request comes to is another crate's.
//!
//! It may cite `iss_edge`, `iss_channels`, `iss_model`, `iss_http`, `iss_session`, and the definitions of `iss_link` on takes.
//! It must not cite what answers a request.
#![tactic(auto)]

mod clients;
mod closing;
mod pieces;
mod reading;
mod telling;

pub use clients::Clients;
pub use closing::close_each;
pub use pieces::{take_piece, zeros};
pub use reading::ReadsRequest;
pub use telling::fault_response;
