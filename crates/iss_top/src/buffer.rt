//! The line that is being read.
ghost use Rattle.std.specs.Prelude.{◌≡◌, [], fold, OnOk};
ghost use Rattle.iss_top.specs.Lines.{is_blank_byte, is_blank, kept_with};

use iss_model::limits::LONGEST_LINE;
use std::alloc::{AllocError, Global};
use std::marker::Model;

/// One byte more than a line may have, so that a longer line differs from all that fit.
const KEPT: usize = LONGEST_LINE + 1;

/// The bytes of a line so far. Of a longer line it keeps enough to know that it is long, and whether it is blank.
#[derive(Drop)]
pub(crate) struct LineBuffer {
    bytes: Vec<u8>,
}

impl Model for LineBuffer {
    ghost use Rattle.std.specs.Prelude.{List, ℕ};

    ghost Value = { List ℕ };

    ghost view = { λ b. b.bytes.items };
}

impl LineBuffer {
    pub(crate) fn new(alloc: Global) -> LineBuffer
        ensures { result ≡ [] }
    {
        LineBuffer {
            bytes: Vec::new(alloc),
        }
    }

    /// Takes more bytes of the line.
    pub(crate) fn extend(&mut self, bytes: &[u8]) -> Result<(), AllocError>
        ensures { OnOk result (self.new ≡ fold kept_with self.old bytes.now) }
    {
        let room = KEPT.saturating_sub(self.bytes.len());
        let (short, long) = bytes.split_at(room.min(bytes.len()));
        self.bytes.extend_from_slice(short)?;
        push_long(&mut self.bytes, long)
    }

    /// Begins the next line.
    pub(crate) fn clear(&mut self)
        ensures { self.new ≡ [] }
    {
        self.bytes.clear();
    }

    pub(crate) fn as_slice(&self) -> &[u8]
        ensures { result.now ≡ self.now }
    {
        &self.bytes
    }
}

/// Takes the bytes of a line that may be longer than what is kept.
fn push_long(line: &mut Vec<u8>, bytes: &[u8]) -> Result<(), AllocError>
    ensures { OnOk result (line.new.items ≡ fold kept_with line.old.items bytes.now) }
{
    for byte in bytes {
        push_kept(line, *byte)?;
    }
    Ok(())
}

fn push_kept(line: &mut Vec<u8>, byte: u8) -> Result<(), AllocError>
    ensures { OnOk result (line.new.items ≡ kept_with line.old.items byte) }
{
    if line.len() < KEPT {
        line.push(byte)?;
        return Ok(());
    }
    if is_blank_byte(byte) {
        return Ok(());
    }
    line.pop();
    line.push(byte)?;
    Ok(())
}

/// Whether the line has only spaces, tabs and carriage returns.
pub(crate) fn is_blank(line: &[u8]) -> bool
    ensures { result ≡ is_blank line.now }
{
    line.iter().all(|byte| is_blank_byte(*byte))
}

fn is_blank_byte(byte: u8) -> bool
    ensures { result ≡ is_blank_byte byte }
{
    byte == b' ' || byte == b'\t' || byte == b'\r'
}
