//! The laws of the book on which the gateway's books and the processor's agree.
//!
//! It may cite `iss_model`, the crates of laws over it, and `iss_laws`. It must not cite any body of the program.
#![tactic(auto)]

mod laws;

pub use laws::{account_is_even, notices_are_in_order, words_of_the_gateway_are_told};
