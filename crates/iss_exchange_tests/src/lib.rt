//! Tests of the processor and a gateway together: worked lists of moves, and drawn ones.
//!
//! It may cite `iss_model`, `iss_gateway`, `iss_exchange_laws` and `iss_exchange`.
//! Nothing may cite it.
#![tactic(auto)]

#[cfg(test)]
mod drawn;
#[cfg(test)]
mod moves;
