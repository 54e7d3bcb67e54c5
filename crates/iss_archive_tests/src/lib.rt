//! Tests of keepers of the archive: the same records over one in memory and one over a database, and stops at each call on
//! its files.
//!
//! It may cite `iss_model`, `iss_archive`, `iss_sql_keeper`, `sqlite` and `sqlite_disk`.
//! Nothing may cite it.
#![tactic(auto)]

#[cfg(test)]
mod archives;
mod records;
#[cfg(test)]
mod refusals;
#[cfg(test)]
mod stops;
