//! The reference gateway as a program: its words, and how it serves over an edge.
//!
//! It may cite `iss_edge`, `iss_amount`, `iss_http`, `iss_gateway` and `iss_attend`.
//! It must not cite the real outside.
#![tactic(auto)]

mod answering;
mod serving;
mod words;

pub use serving::serve_gateway;
pub use words::{Service, Usage, service_of};
