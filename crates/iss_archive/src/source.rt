//! Where records come from, one after the other, with what each made.

ghost use Rattle.std.specs.Prelude.{◌≡◌, length, IfOk};
ghost use Rattle.iss_archive.specs.Archiving.{Run, HandsOut};

use iss_model::Entry;
use std::alloc::AllocError;

/// A record, with the entries that it made.
#[derive(Drop)]
pub struct Stepped {
    /// The record's number, from 1.
    pub number: u32,
    /// The record's stamp.
    pub at: u64,
    pub entries: Vec<Entry>,
}

/// Where records come from.
pub trait Source {
    /// The records of a device, and how many were passed.
    ghost run: { Self → Run };

    fn instance(&self) -> u64
        ensures { result ≡ (run self.now).instance };

    /// How many records there are.
    fn count(&self) -> u32
        ensures { result ≡ length (run self.now).records };

    /// How many of them can't be had one by one any more.
    fn point(&self) -> u32
        ensures { result ≡ (run self.now).passed };

    /// The next record, with what it made.
    fn next(&mut self) -> Result<Option<Stepped>, AllocError>
        ensures next { IfOk result (HandsOut (run self.old) (run self.new).passed) }
        ensures records { (run self.new).records ≡ (run self.old).records }
        ensures device { (run self.new).instance ≡ (run self.old).instance };
}
