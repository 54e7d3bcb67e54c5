//! What an answer of the gateway is heard as.

use iss_model::{CallId, Outcome};

/// How far the answer on a watched channel has come.
#[derive(Debug, Clone, Copy, PartialEq, Eq)]
pub enum LinkState {
    /// No byte came yet.
    Waiting,
    /// Bytes came, and the answer isn't whole.
    Reading,
}

/// What a take on a watched channel came to.
#[derive(Debug, Clone, Copy, PartialEq, Eq)]
pub enum Heard {
    /// Bytes came, and the answer isn't whole yet.
    Nothing,
    /// This call has its answer.
    Outcome(CallId, Outcome),
    /// The notice of this number was acknowledged.
    Acked(u32),
    /// The notice of this number wasn't acknowledged on this channel, and won't be.
    Dropped(u32),
}
