//! Laws of every run: a core's state and the book of its records agree, and no rule tells apart cores that are alike.
//! Each law is the contract of a function with an empty body.
//!
//! It may cite `iss_model` and `iss_acts`. It must not cite any body: its laws are of definitions.
#![tactic(auto)]

mod agreement;
mod rooms;
mod runs;

pub use agreement::{
    a_core_is_told_its_transcript, alike_cores_stay_alike, controls_count_since_their_first_record,
    core_answers_as_its_book, core_keeps_the_book, judging_is_stable, records_add_to_sums,
};
pub use rooms::a_record_fits_now_or_after_a_turn;
pub use runs::runs_are_told_their_transcript;
