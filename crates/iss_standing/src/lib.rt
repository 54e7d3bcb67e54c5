//! What a device stands for, in one journal or in halves, and how a run on it goes on: by the records of a history.
//!
//! It may cite `iss_edge`, `iss_journal`, `iss_halves`, the model, `iss_codec`, and of `iss_states` and `iss_image` what the
//! image of a state is. It must not cite a core or a store: what stands on a device is said by its bytes and by the book.
#![tactic(auto)]

mod laws;

pub use laws::{
    devices_stand_for_few_records, devices_turn_when_full, parts_of_a_run_make_one,
    puts_are_counted, texts_wait_for_syncs, the_journal_has_the_sizes_of_the_model,
};
