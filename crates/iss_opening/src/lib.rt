//! Opening a device, in one journal or in halves: the image that stands on it, and the records after the image.
//!
//! A `Reading` hands out one record after the other, with the entries that it makes. `open` is the loop over it with nothing done.
//!
//! It may cite `iss_edge`, `iss_journal`, `iss_halves`, `iss_codec`, `iss_core`, `iss_snapshot` with the crates of images
//! `iss_image_lists`, `iss_image` and `iss_image_forms`, `iss_standing`, `iss_sound`, the model and its laws. It must not cite
//! what a store plans, commits or says.
#![tactic(auto)]

mod fault;
mod laws;
mod opened;
mod opening;
mod reading;
mod taking;

pub use fault::OpenFault;
pub use laws::{
    calls_and_notices_are_numbered, good_devices_open, one_journal_has_a_history,
    opened_stores_stand, readings_go_on,
};
pub use opened::Opened;
pub use opening::open;
pub use reading::Reading;
pub use taking::Taken;
