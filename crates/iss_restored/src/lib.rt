//! A core that is made again from a sound state: what holds of every core holds of it, and its chain, which has its balances,
//! what its transactions hold, and their sums.
//!
//! It may cite `iss_model`, `iss_chain`, `iss_hold`, `iss_known`, `iss_sound`, and the crates of laws over the model. It must not
//! cite the core or its other parts.
#![tactic(auto)]

mod chain;
mod cores;

pub use chain::chain_again;
pub use cores::sound_states_make_cores;
