//! Writing a statement: what a keeper of the archive holds of a user goes out as lines, by one emit.
//!
//! It may cite `iss_edge`, the model, `iss_archive` and `iss_statement`. It must not cite a device's calls, the core, the store
//! or a database.
#![tactic(auto)]

mod fault;
mod writing;

pub use fault::StatementFault;
pub use writing::write_statement;
