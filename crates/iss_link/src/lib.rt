//! The link to the customer's gateway: which channels its answers are awaited on, and what an answer comes to.
//!
//! What is heard is said by the definitions of serving. An answer may come in any pieces, and many are awaited at once.
//!
//! It may cite `iss_edge`, `iss_channels`, `iss_model`, `iss_http`, `iss_jit` and `iss_session`.
//! It must not cite the store: it knows channels, and not what stands.
#![tactic(auto)]

mod answers;
mod gone;
mod heard;
mod laws;
mod links;
mod watched;

pub use gone::Gone;
pub use heard::{Heard, LinkState};
pub use laws::{answers_are_caused, answers_are_good_stretches};
pub use links::Links;
