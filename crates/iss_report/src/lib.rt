//! The report of what stands: a line for each account that money was moved to or from, and a line of counts.
//!
//! It may cite `iss_model`, `iss_event`, `iss_core` and `iss_texts`.
//! It must not cite the outside or the store: it makes texts of what a core answers, and sends none.
#![tactic(auto)]

mod lines;

pub use lines::report;
