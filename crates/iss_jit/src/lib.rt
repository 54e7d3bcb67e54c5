//! Messages between the issuer and the customer's gateway: requests and notices as texts, and what an answer comes to.
//!
//! A text is one JSON object, exact to the byte: its members in rising order, without blanks and escapes. What a gateway
//! answers is read as JSON, whatever its bytes.
//!
//! It may cite `iss_model`, `iss_amount`, `iss_field`, `json`, `serde_json` and `uuid`.
//! It must not cite HTTP, channels or the core: it knows no heads of messages and decides nothing.
#![tactic(auto)]

mod answers;
mod members;
mod plain;
mod texts;

pub use answers::answer;
pub use members::{put_name, put_quoted};
pub use texts::{notice_text, put_notice, put_request, request_text};
