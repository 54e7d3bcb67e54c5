//! What went out to the gateway.

use iss_edge::Channel;
use iss_model::{CallId, Opened};

/// What became of a message to the gateway.
#[derive(Clone, Copy)]
pub enum Gone {
    /// The request of this call went out on a channel, on which the answer comes.
    Asked(Opened, Channel),
    /// The notice of this number went out on a channel, on which the acknowledgement comes.
    Noted(u32, Channel),
    /// The request of this call did not go out.
    Unreached(CallId),
}
