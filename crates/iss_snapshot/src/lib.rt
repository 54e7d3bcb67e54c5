//! The image of a core: the bytes of what it keeps, and the core that they make again.
//!
//! It may cite `iss_model`, the crates of images `iss_image_lists`, `iss_image` and `iss_image_forms`, `iss_core`, `iss_sound`,
//! and the crates of laws over states. `Halves`, which knows where an image stands on a device, is handed on from `iss_halves`.
//! Nothing else here speaks of a device.
#![tactic(auto)]

mod image;
mod laws;

pub use image::{image_of, load};
pub use iss_halves::Halves;
pub use laws::histories_have_images;
