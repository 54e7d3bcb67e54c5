//! How small a part an event of a sound state is approved for, and that a core that is made again is in form.
//!
//! It may cite `iss_model` and the crates of laws over it: `iss_acts`, `iss_agreement`, `iss_state`, `iss_states`,
//! `iss_rebuilt`, `iss_well_formed` and `iss_decided`. It must not cite any body: its laws are of definitions.
#![tactic(auto)]

mod parts;

pub use parts::parts_stay_of_least;
