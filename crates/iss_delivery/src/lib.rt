//! What the processor and the gateway send each other, as the other side takes it.
//!
//! It may cite `iss_model`, `iss_jit`, `iss_gateway`, `uuid`, the definitions of `iss_exchange_laws`, and laws of the book in
//! proofs. It must not cite the core: it doesn't know what stands.
#![tactic(auto)]

mod answers;
mod delivering;
mod laws;
mod sending;

pub use answers::{input_given, is_gateways};
pub use delivering::deliver;
pub use laws::what_is_sent_is_read;
pub use sending::put_sent;
