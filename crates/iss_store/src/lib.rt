//! The store: the one place where a decision lasts before anybody hears of it.
//!
//! An input is planned, its record is committed, and then what it says is released. A `Planned` is a record that is new and
//! fits, and can't be sent. A `Durable` is a record that lasts, and only a commit makes one. Between a plan and its open gate
//! nothing but the device can refuse.
//!
//! It may cite `iss_edge`, `iss_channels`, `iss_journal`, `iss_halves`, `iss_standing`, `iss_opening`, `iss_snapshot`,
//! `iss_image`, `iss_codec`, `iss_core`, `iss_http`, `iss_jit`, `iss_session`, `iss_link`, `iss_event`, `iss_texts`, `iss_model`
//! and its laws. It must not cite lines that come in, nor what a run is for.
#![tactic(auto)]

mod durable;
mod entries;
mod fault;
mod message;
mod planned;
mod putting;
mod releasing;
mod routes;
mod saying;
mod sending;
mod serving;
mod store;
mod waiting;

pub use durable::Durable;
pub use fault::{PlanFault, StoreFault};
pub use iss_opening::OpenFault;
pub use planned::Planned;
pub use routes::Routes;
pub use sending::reply;
pub use store::Store;
