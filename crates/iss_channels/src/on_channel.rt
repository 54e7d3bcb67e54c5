//! What a thing that is kept by channel has to tell and to do.
ghost use Rattle.std.specs.Prelude.{◌≡◌, List, ℕ};
ghost use Rattle.iss_edge.specs.declared.outside.Channel.{Channel as Way};

use iss_edge::Channel;
use std::alloc::Global;

/// A thing on a channel. Contracts see the channel as `channel_of`.
pub trait OnChannel {
    ghost channel_of: { Self → Way };

    /// The channel.
    fn channel(&self) -> Channel
        ensures { result ≡ channel_of self.now };
}

/// A thing that receives what comes on its channel. Contracts see what it makes of some bytes as `receives`.
pub trait Receives: OnChannel {
    /// What it tells of them.
    type Told;

    ghost receives: { Self → List ℕ → Self.Told → Self → Type 0 };

    /// Receives the next bytes, and stays on its channel.
    fn receive(&mut self, alloc: Global, piece: &[u8]) -> Self::Told
        ensures receives { receives self.old piece.now result self.new }
        ensures channel { Self.channel_of self.new ≡ Self.channel_of self.old };
}
