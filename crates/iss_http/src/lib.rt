//! HTTP/1.1 messages (RFC 9110, RFC 9112): clients' requests and gateways' answers, read in any pieces, and the texts of
//! responses and requests.
//!
//! It may cite `httparse`, `http` and `itoa`.
//! It must not cite channels, JSON or the model: it knows no events and sends nothing.
#![tactic(auto)]

mod answers;
mod faults;
mod heads;
mod laws;
mod lengths;
mod limits;
mod messages;
mod pieces;
mod requests;
pub mod statuses;
mod worked;

pub use answers::{Answer, AnswerReader};
pub use faults::{FeedFault, HttpFault};
pub use laws::{a_bad_head_begins_nothing, what_is_whole_stays};
pub use messages::{ask, respond, write_ask, write_response};
pub use requests::{JitReader, RequestReader};
pub use worked::{
    worked_answers, worked_faults, worked_hopeless, worked_jit_requests, worked_requests,
    worked_texts,
};
