//! A reference gateway: it reads what the issuer sends, answers by fixed rules, and keeps what it has funded.
//!
//! It may cite `iss_model`, `iss_amount`, `serde_json` and `uuid`, the definitions of `iss_field` and `iss_jit`, and `json` in
//! proofs alone.
//! It must not cite HTTP, channels, the core or its parts: what a gateway knows is what was sent to it.
#![tactic(auto)]

mod answering;
mod bodies;
mod books;
mod gateway;
mod hearing;
mod laws;
mod members;
mod message;
mod reading;
mod sums;
mod table;
mod tokens;
mod totals;

pub use answering::{Reply, answer};
pub use bodies::{body, put_body, unread_body};
pub use books::{MOST_HEARD, Note, Promise};
pub use gateway::Gateway;
pub use laws::{
    answers_are_read, gateways_are_honest, messages_are_read, reference_gateway_is_honest,
};
pub use message::{Given, Message};
pub use reading::read_text;
