//! What is kept from line to line.
use iss_event::Scratch;
use iss_texts::Texts;
use std::alloc::Global;

/// Room for the reading of a line and for its texts, kept so that a line allocates none of its own.
#[derive(Drop)]
pub(crate) struct Workspace {
    pub(crate) scratch: Scratch,
    pub(crate) texts: Texts,
}

impl Workspace {
    pub(crate) fn new(alloc: Global) -> Workspace {
        Workspace {
            scratch: Scratch::new(alloc),
            texts: Texts::new(alloc),
        }
    }
}
