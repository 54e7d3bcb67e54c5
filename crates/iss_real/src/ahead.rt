//! What is read ahead of a file.

ghost use Rattle.std.specs.Prelude.{◌≡◌, length};

use std::alloc::Global;
use std::fs::File;
use std::io;
use std::os::unix::fs::FileExt;

/// How many bytes are read ahead.
pub const AHEAD: usize = 65536;

/// Bytes of a file, from a place on.
#[derive(Drop)]
pub struct Window {
    bytes: Vec<u8>,
    start: u64,
}

impl Window {
    /// The file's bytes from this place on, at most `most` of them, and fewer at its end.
    pub fn at(alloc: Global, file: &File, start: u64, most: usize) -> io::Result<Window> {
        let mut bytes = vec![in alloc; 0; most]?;
        let count = file.read_at(bytes.as_mut_slice(), start)?;
        bytes.truncate(count);
        Ok(Window { bytes, start })
    }

    /// Copies the bytes from this place on into `buf`, or answers no if not all of them stand here.
    pub fn copies(&self, at: u64, buf: &mut [u8]) -> bool
        ensures { length buf.new ≡ length buf.old }
    {
        let skipped = at.saturating_sub(self.start) as usize;
        if at < self.start || skipped > self.bytes.len() || self.bytes.len() - skipped < buf.len() {
            return false;
        }
        buf.copy_from_slice(&self.bytes[skipped..skipped + buf.len()]);
        true
    }
}
