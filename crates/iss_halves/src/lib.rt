//! A device in two halves, of which one is current: an image of what stood, and a journal after it.
//!
//! A turn writes a new image into the other half and makes it last. Only then the selector names that half. So a stop at any
//! moment leaves the one or the other.
//!
//! It may cite `iss_edge` and `iss_journal`.
//! It must not cite the model: an image and a record are bytes here.
#![tactic(auto)]

mod half;
mod halves;
mod header;
mod laws;
pub mod layout;
mod making;
mod reads;
mod turned;

pub use half::Half;
pub use halves::Halves;
pub use laws::{turns_and_appends_keep, what_is_found_is_held};
pub use making::{format, make};
pub use turned::append_turned;
