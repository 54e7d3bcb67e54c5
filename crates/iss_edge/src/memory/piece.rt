//! Bytes that came on a channel.

ghost use Rattle.std.specs.Prelude.{◌≡◌, ◌≤◌, length, drop};
ghost use Rattle.iss_edge.specs.Memory.{has_more_on};

use super::rest::Rest;
use crate::{Bytes, Channel};

/// Bytes that came at once on a channel, without those that were taken.
#[derive(Drop)]
pub(crate) struct Piece {
    ch: Channel,
    rest: Rest,
}

impl Piece {
    /// A piece of which nothing was taken.
    pub(crate) fn new(ch: Channel, bytes: Bytes) -> Piece
        ensures { result ≡ record { ch = ch; rest = bytes } }
    {
        Piece {
            ch,
            rest: Rest::new(bytes),
        }
    }

    /// Whether bytes of this channel can be taken from it.
    pub(crate) fn has_more_on(&self, ch: Channel) -> bool
        ensures { result ≡ has_more_on ch.0 self.now }
    {
        self.ch.0 == ch.0 && !self.rest.as_slice().is_empty()
    }

    /// The bytes that weren't taken.
    pub(crate) fn rest(&self) -> &[u8]
        ensures { result.now ≡ self.now.rest }
    {
        self.rest.as_slice()
    }

    /// Takes `count` bytes.
    pub(crate) fn pass(&mut self, count: usize)
        requires { count ≤ length self.old.rest }
        ensures { self.new ≡ record self.old { rest = drop count self.old.rest } }
    {
        self.rest.pass(count);
    }
}
