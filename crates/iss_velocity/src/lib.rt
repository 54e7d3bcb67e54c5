//! Velocity controls: what each has counted of a user in a span, and which one an ask breaches.
//!
//! It may cite `iss_model`, `iss_scope` and `iss_time`.
//! It must not cite the other parts of the core.
#![tactic(auto)]

mod ask;
mod controls;
mod counted;
mod counters;
mod laws;
mod past;
mod rows;
mod spans;
mod standing;
mod table;

pub use ask::Spending;
pub use controls::{ControlFault, Controls};
pub use counted::Counted;
pub use laws::{
    breach_looks_at_use, control_that_is_put_counts_no_earlier_use,
    controls_that_stay_count_the_same, counters_are_sums_of_noted_use,
    counters_sort_by_user_and_span, nothing_is_noted_at_first,
};
pub use standing::is_same_control;
