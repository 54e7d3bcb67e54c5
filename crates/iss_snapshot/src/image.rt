//! The image of a core, and a core from an image.
ghost use Rattle.std.specs.Prelude.{◌≡◌, ◌<◌, List, [], None, IfOk, IfSome};
ghost use Rattle.iss_model.specs.declared.input.Record.{Record};
ghost use Rattle.iss_model.specs.declared.limits.TheConstants.{INSTANCES};
ghost use Rattle.iss_states.specs.Showing.{shown};
ghost use Rattle.iss_image.specs.States.{image_of_state};
ghost use Rattle.iss_core.specs.Values.{CoreStandsFor};
ghost use Rattle.iss_snapshot.specs.Loaded.{IsImageOfBook, IsLoaded, IsMadeFor, IsOfNoState, MakesHistory};

use iss_core::Core;
use iss_image::{read, spell};
use std::alloc::{AllocError, Global};

/// The image of a core: the bytes that spell what it keeps. A core without a record has no bytes.
pub fn image_of(alloc: Global, core: &Core) -> Result<Vec<u8>, AllocError>
    ensures image { IfOk result (λ image. image.items ≡ image_of_state (shown core.now.state)) }
    ensures on_book { (rs : List Record) → CoreStandsFor core.now rs
        → IfOk result (λ image. IsImageOfBook rs image.items) }
{
    let state = core.state(alloc)?;
    spell(alloc, &state)
}

/// The core that an image makes again, for the device of this instance. `None` exactly if the bytes are the image of no
/// sound state. An empty image makes a core that stands for no records.
pub fn load(alloc: Global, image: &[u8], instance: u64) -> Result<Option<Core>, AllocError>
    requires { instance < INSTANCES }
    ensures none { IfOk result (λ core. core ≡ None → IsOfNoState image.now) }
    ensures loaded { IfOk result (λ core. IfSome core (IsLoaded image.now instance)) }
    ensures of_history { IfOk result (MakesHistory image.now) }
    ensures of_no_record { image.now ≡ [] → IfOk result (IsMadeFor []) }
{
    match read(alloc, image)? {
        Some(state) => Core::restore(alloc, &state, instance),
        None => Ok(None),
    }
}
