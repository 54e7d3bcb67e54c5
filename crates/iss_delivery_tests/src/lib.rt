//! Tests of what the processor and the gateway send each other: a call and a notice as they are heard, and what is given for them.
//!
//! It may cite `iss_model`, `iss_gateway`, `iss_exchange_laws`, `iss_delivery` and `uuid`.
//! Nothing may cite it.
#![tactic(auto)]

#[cfg(test)]
mod delivering;
