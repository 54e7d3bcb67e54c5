//! Statements over the archive of postings: what moved on a user's account in a currency over some days, as lines.
//!
//! It may cite `iss_edge` for bytes, the model, the rows of `iss_archive`, `iss_amount`, `jiff` and `jiff_core`. It must not cite
//! a keeper's calls, the core or the store.
#![tactic(auto)]

mod dates;
mod law;
mod lines;
mod opening;
mod words;

pub use law::{closing_is_the_balance, last_row_covers_all};
pub use lines::statement_lines;
pub use words::{StatementWords, statement_words};
