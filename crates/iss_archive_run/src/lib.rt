//! The top call `archive`, over any outside and any keeper: it brings an archive of postings up to date with a device, or writes a
//! statement from the archive.
//!
//! It may cite `iss_edge`, `iss_journal`, `iss_halves`, the model and its laws, `iss_archive`, `iss_statement`,
//! `iss_statement_run`, `iss_core`, `iss_standing`, `iss_opening`, `iss_device`, `iss_follow_runs` and `itoa`. It must not cite a
//! store's calls or a database.
#![tactic(auto)]

mod keeping;
mod line;
mod reading;
mod status;
mod stop;
mod top;
mod words;

pub use keeping::keep;
pub use status::{GAP, KEEPER_FAULT, STRANGE};
pub use stop::{Stop, exit_status, statement_status};
pub use top::archive;
pub use words::{Command, Usage, command_of};
