//! The worked scripts: the checker computes each of them from the rules of the book.
//!
//! It may cite `iss_model`, and `iss_codec` for spellings.
//! It must not cite any body of the program.
#![tactic(auto)]

mod worked;
mod worked_bytes;
mod worked_devices;
mod worked_rules;

pub use worked::{
    worked_amounts, worked_limit, worked_parts, worked_scripts, worked_texts, worked_use,
    worked_windows,
};
pub use worked_bytes::worked_spellings;
pub use worked_devices::{worked_lines, worked_reports, worked_rooms, worked_runs};
pub use worked_rules::{
    worked_counting, worked_full_lists, worked_order, worked_reason_texts, worked_reasons,
    worked_sets,
};
