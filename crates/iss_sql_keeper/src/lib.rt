//! The archive of postings in SQL: a keeper over a database of `sqlite`.
//!
//! A database is an archive if both tables are there, and no posting has a number above the head's count.
//!
//! It may cite `sqlite`, `sqlite_sql`, `sqlite_value`, `sqlite_trees`, `sqlite_disk`, the two tables of `iss_tables`, `iss_model`
//! and `iss_archive`. It must not cite the core or the store.
#![tactic(auto)]

mod adding;
mod asking;
mod columns;
mod database;
mod opening;
mod reading;
mod sqlite_keeper;

pub use sqlite_keeper::SqliteKeeper;
