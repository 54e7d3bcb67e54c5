//! The state of a core, as lists: what a core shows, and what is made again from it.
//!
//! It may cite `iss_model`, `iss_acts`, `iss_agreement` and `iss_state`.
//! It must not cite any body: its laws are of definitions.
#![tactic(auto)]

mod books;
mod calls;
mod counted;
mod fairness;
mod order;
mod settings;
mod showing;

pub use books::states_are_of_their_books;
pub use calls::{calls_are_made_again, transactions_are_made_again};
pub use counted::counters_are_of_transactions;
pub use fairness::sums_stay_fair;
pub use order::states_stay_in_order;
pub use settings::settings_are_made_again;
pub use showing::{a_state_without_a_record, keys_are_read_again, states_show_their_cores};
