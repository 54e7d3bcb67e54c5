//! Worked sessions: the checker computes each of them from the definitions of serving.
//!
//! It may cite `iss_edge`, `iss_model`, `iss_http`, `iss_session`, `iss_book_examples`, and how `iss_event`, `iss_jit`,
//! `iss_field`, `httparse`, `json`, `serde_json` and `uuid` read texts. It must not cite any body of the program.
#![tactic(auto)]

mod reading;
mod worked;

pub use reading::clients_send_events;
pub use worked::{sessions_with_clients, sessions_with_the_gateway};
