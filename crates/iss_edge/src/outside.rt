//! What passes between the processor and the outside.

use crate::Bytes;

/// A way for bytes in and out, by its number. 0 is standard input and output.
#[derive(Debug, Clone, Copy)]
pub struct Channel(pub u32);

/// A call on the outside did not succeed.
#[derive(Debug, Clone, Copy)]
pub struct Failed;

/// What a wait for the outside brought.
#[derive(Debug, Clone, Copy)]
pub enum Arrival {
    /// A client came, on a channel that was not open before.
    Client(Channel),
    /// This channel has bytes to take, or its end.
    Ready(Channel),
    /// The time, in milliseconds since 1970.
    Time(u64),
    /// Nothing came.
    Idle,
    /// Nothing will come any more.
    End,
}

/// What was done to the outside, in the order in which it was done.
#[derive(Debug, Drop)]
pub enum Action {
    /// These bytes were written to the device from this place on. If it failed, what stands there is open.
    Write { at: u64, bytes: Bytes, ok: bool },
    /// All that was written was to be made to last.
    Sync { ok: bool },
    /// These bytes went out on the channel. If it failed, they are a prefix of what was to go out.
    Emit { ch: Channel, bytes: Bytes, ok: bool },
    /// This channel was opened from our side.
    Dial { ch: Channel },
    /// This channel was closed.
    Close { ch: Channel },
}

/// What the outside answered to a call, in the order of the calls.
#[derive(Debug, Drop)]
pub enum Answered {
    /// A wait brought this, or failed.
    Waited(Option<Arrival>),
    /// These bytes were taken from the channel, none at its end, or the call failed.
    Took { ch: Channel, bytes: Option<Bytes> },
    /// A dial opened this channel, or failed.
    Dialled(Option<Channel>),
    /// Bytes were to go out on the channel, and did or did not.
    Emitted { ch: Channel, ok: bool },
}

/// What is to come to an outside in memory, one item for each wait.
#[derive(Debug, Drop)]
pub enum Script {
    /// A client comes on this channel.
    Client(Channel),
    /// These bytes more can be taken from the channel.
    More(Channel, Bytes),
    /// The channel's bytes end.
    Ended(Channel),
    /// The time, in milliseconds since 1970.
    Time(u64),
    /// Nothing comes.
    Idle,
}
