//! The two tables of the archive of postings, in SQL: the statements, and what each does to the tables.
//!
//! It may cite `sqlite`, and for its files and statements `sqlite_tied`, `sqlite_schema`, `sqlite_catalog`, `sqlite_rules`,
//! `sqlite_resolve`, `sqlite_sql`, `sqlite_value`, `sqlite_trees`, `sqlite_disk`, `sqlite_items` and `sqlite_typing`. It must not
//! cite the model: a posting is columns here, numbers and texts.
#![tactic(auto)]

mod adding;
mod asking;
mod making;
mod shape;

pub use adding::{HeadColumns, PostColumns, add};
pub use asking::{UserColumns, has_none_above, read_head, read_posts};
pub use making::{a_stop_leaves_the_commit, make_tables, what_is_shown_is_committed};
pub use shape::{is_blank, is_ours};
