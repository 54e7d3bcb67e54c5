//! What an append writes.

ghost use Rattle.std.specs.Prelude.{◌≡◌, ◌+◌, ◌<◌, ◌≤◌, ◌++◌, length, drop, IfOk};
ghost use Rattle.std.specs.Int.{w32, to_be_bytes};
ghost use Rattle.iss_journal.specs.Region.{append_bytes, no_length};
ghost use Rattle.iss_journal.specs.declared.layout.TheConstants.{LENGTH, LONGEST_BODY};

use crate::layout::LENGTH;
use std::alloc::{AllocError, Global};
use std::marker::Model;

/// A gate after which no record stands.
pub(crate) const CLOSED: u8 = 0;

/// A gate after which a record stands.
pub(crate) const OPEN: u8 = 1;

/// How long the room for a length is.
const LENGTH_LEN: usize = LENGTH as usize;

/// How many bytes a frame has room for before it grows: more than a purchase whose names have 36 bytes takes.
const USUAL: usize = 256;

/// A record's body with its length before it, in four bytes with the highest first, and a closed gate after it.
#[derive(Debug, Drop)]
pub struct Frame {
    bytes: Vec<u8>,
}

impl Model for Frame {
    ghost use Rattle.std.specs.Prelude.{List, ℕ};

    ghost Value = { List ℕ };

    ghost view = { λ f. f.bytes.items };
}

impl Frame {
    /// Begins a frame: bytes with room for a length, after which the body is to be written.
    pub fn begin(alloc: Global) -> Result<Vec<u8>, AllocError>
        ensures { IfOk result (λ bytes. bytes.items ≡ no_length) }
    {
        let mut bytes = Vec::with_capacity(alloc, USUAL)?;
        bytes.extend_from_slice(&[0; LENGTH_LEN])?;
        Ok(bytes)
    }

    /// The frame of the body of 1 to 8192 bytes that was written after the room for its length.
    pub fn close(mut bytes: Vec<u8>) -> Result<Frame, AllocError>
        requires some { LENGTH < length bytes.items }
        requires most { length bytes.items ≤ LENGTH + LONGEST_BODY }
        ensures { IfOk result (λ frame. frame ≡ append_bytes (drop LENGTH bytes.items)) }
    {
        let body_len = (bytes.len() - LENGTH_LEN) as u32;
        write_length(&mut bytes, body_len);
        bytes.push(CLOSED)?;
        Ok(Frame { bytes })
    }

    /// How many bytes it has.
    pub fn size(&self) -> u64
        ensures { result ≡ length self.now }
    {
        self.bytes.len() as u64
    }

    /// All of the bytes.
    pub(crate) fn as_slice(&self) -> &[u8]
        ensures { result.now ≡ self.now }
    {
        self.bytes.as_slice()
    }
}

/// Writes a length into its room.
fn write_length(bytes: &mut [u8], body_len: u32)
    requires { LENGTH ≤ length bytes.old }
    ensures { bytes.new ≡ to_be_bytes w32 body_len ++ drop LENGTH bytes.old }
{
    bytes[..LENGTH_LEN].copy_from_slice(&body_len.to_be_bytes());
}
