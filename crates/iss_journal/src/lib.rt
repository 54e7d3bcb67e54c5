//! A journal on a region of a device: records after gates, of which a stop loses none that was acknowledged.
//!
//! A record stands after a gate byte of 1, its body's length before it; a gate byte other than 1 ends the records. A record
//! is written after the end gate, and made to last before that gate is opened.
//!
//! It may cite `iss_edge`.
//! It must not cite the model: a record is bytes here.
#![tactic(auto)]

mod fault;
mod frame;
mod header;
mod journal;
mod laws;
pub mod layout;
mod reads;
mod scan;

pub use fault::JournalFault;
pub use frame::Frame;
pub use journal::Journal;
pub use laws::{reads_what_is_shown, shows_once};
pub use scan::Scan;
