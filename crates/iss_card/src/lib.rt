//! Users and their cards: who stands, in which state, and which moves are allowed.
//!
//! It may cite `iss_model` and `iss_index`.
//! It must not cite the other parts of the core.
#![tactic(auto)]

mod cards;
mod moves;
mod standing;

pub use cards::{CardFault, Cards};
pub use moves::{card_may_move, user_may_move};
pub use standing::Standing;
