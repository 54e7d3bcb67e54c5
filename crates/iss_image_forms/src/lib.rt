//! Each sound state whose spans have numbers of 64 bits is in image form, so its image is read again.
//!
//! It may cite `iss_model`, the crates of laws over it, `iss_known`, `iss_sound`, `iss_restored`, `iss_index`, `iss_codec`, and
//! the crates of images `iss_image_lists` and `iss_image`. It must not cite any body: its laws are of definitions.
#![tactic(auto)]

mod histories;
mod states;

pub use histories::histories_are_in_image_form;
pub use states::sound_states_are_in_image_form;
