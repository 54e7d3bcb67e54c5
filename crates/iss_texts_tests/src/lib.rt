//! Tests of texts and forms: lines, records, gateway texts and HTTP, by values from outside that no script can show.
//!
//! It may cite `iss_model`, `iss_amount`, `iss_codec`, `iss_event`, `iss_http`, `iss_jit`, `hex` and `uuid`.
//! Nothing may cite it.
#![tactic(auto)]

#[cfg(test)]
mod filled;
#[cfg(test)]
mod gateway;
#[cfg(test)]
mod lines;
#[cfg(test)]
mod records;
#[cfg(test)]
mod requests;
#[cfg(test)]
mod responses;
