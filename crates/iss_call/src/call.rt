//! One call, and why it can't be closed.
ghost use Rattle.std.specs.Prelude.{◌≡◌};
ghost use Rattle.iss_call.specs.States.{state_by};

use iss_model::{CallState, How, Opened};

/// A call as it was opened, and how it was closed.
#[derive(Clone, Copy)]
pub struct Call {
    pub opened: Opened,
    /// `None` while it is asked.
    pub how: Option<How>,
}

/// The state of a call that can't be closed: it was never asked, or is closed.
#[derive(Clone, Copy, Debug, PartialEq, Eq)]
pub struct NotOpen(pub CallState);

/// The state of a call that was closed in this way, or is still asked.
pub(crate) fn state_of(how: Option<How>) -> CallState
    ensures { result ≡ state_by how }
{
    match how {
        None => CallState::Asked,
        Some(how) => CallState::Closed(how),
    }
}
