//! The processor and a gateway together, as code: messages are lost, repeated and overtaken, and the processor crashes. After
//! all of that the books of both sides differ by what is on its way, and by nothing else.
//!
//! It may cite `iss_model`, `iss_core`, `iss_jit`, `iss_gateway`, `iss_delivery`, `uuid`, the definitions of `iss_exchange_laws`,
//! and laws of the book in proofs. It must not cite the outside: no message goes over a channel here.
#![tactic(auto)]

mod amounts;
mod cores;
mod exchange;
mod forms;
mod gaps;
mod moving;
mod sides;

pub use amounts::{Amount, Amounts};
pub use exchange::Exchange;
pub use gaps::Gap;
pub use sides::Answer;
