//! The input, piece by piece.
ghost use Rattle.std.specs.Prelude.{◌≡◌, ◌+◌, ◌<◌, ◌≤◌, true, length, IfOk, IfErr, OnOk, OnErr};
ghost use Rattle.iss_edge.specs.World.{Told, HasCause, Stays};
ghost use Rattle.iss_edge.specs.Calls.{Takes, Same};
ghost use Rattle.iss_edge.specs.Outer.{ToldBoth};
ghost use Rattle.iss_top.specs.Pieces.{ArePieces, AreFresh, TakesMore, TakesNoMore, unread_of};
ghost use Rattle.iss_top.specs.Reader.{IsReading};
ghost use Rattle.iss_top.specs.Hearing.{TakesPiece};

use crate::stop::Stop;
use iss_edge::{Channel, Edge};
use iss_model::limits::MOST_INPUT;
use std::alloc::{AllocError, Global};

/// The most bytes that are taken at once.
pub(crate) const PIECE: usize = 65536;

/// The piece at hand, and how much of the input was taken in all.
#[derive(Drop)]
pub(crate) struct Pieces {
    /// What was taken of it, up to `filled`, is read up to `next`.
    pub(crate) bytes: Vec<u8>,
    pub(crate) next: usize,
    pub(crate) filled: usize,
    pub(crate) taken: u64,
}

impl Pieces {
    /// Nothing was taken.
    pub(crate) fn new(alloc: Global) -> Result<Pieces, AllocError>
        ensures { IfOk result AreFresh }
    {
        let bytes = zeros(alloc, PIECE)?;
        Ok(Pieces {
            bytes,
            next: 0,
            filled: 0,
            taken: 0,
        })
    }

    /// The bytes that weren't read yet.
    pub(crate) fn unread(&self) -> &[u8]
        requires fit { ArePieces self.now }
        ensures { result.now ≡ unread_of self.now }
    {
        &self.bytes[self.next..self.filled]
    }

    /// Takes the next piece, and tells whether there was one.
    pub(crate) fn take_more<E: Edge>(&mut self, edge: &mut E) -> Result<bool, Stop>
        requires fit { ArePieces self.old }
        ensures fit { ArePieces self.new }
        ensures count { OnOk result (self.new.taken ≡ self.old.taken + length (unread_of self.new)) }
        ensures further { IfOk result (λ more. more ≡ true → self.old.taken < self.new.taken) }
        ensures takes { IfOk result (λ more.
            Told (TakesMore more self.old self.new) (E.told edge.old) (E.told edge.new)) }
        ensures stops { IfErr result (λ stop.
            Told (TakesNoMore self.old.taken stop) (E.told edge.old) (E.told edge.new)) }
        ensures heard { ToldBoth E.told E.heard TakesPiece edge.old edge.new }
        ensures reading { IsReading (E.faults edge.old) (E.faults edge.new) result }
        ensures kept { Stays E.extent edge.old edge.new }
    {
        let count = take_piece(edge, &mut self.bytes, room_after(self.taken))?;
        let taken = self.taken + count as u64;
        if taken > MOST_INPUT {
            return Err(Stop::InputLong);
        }
        self.taken = taken;
        self.next = 0;
        self.filled = count;
        Ok(count > 0)
    }
}

/// `len` zeros.
fn zeros(alloc: Global, len: usize) -> Result<Vec<u8>, AllocError>
    ensures { IfOk result (λ bytes. length bytes.items ≡ len) }
{
    let bytes = vec![in alloc; 0; len]?;
    Ok(bytes)
}

/// How many bytes to ask for once `taken` bytes were taken. After the most there may be, one byte more is asked for, to see whether there
/// is one.
fn room_after(taken: u64) -> usize
    requires { taken ≤ MOST_INPUT }
    ensures some { 0 < result }
    ensures piece { result ≤ PIECE }
    ensures within { taken < MOST_INPUT → taken + result ≤ MOST_INPUT }
    ensures one_more { taken ≡ MOST_INPUT → result ≡ 1 }
{
    if taken == MOST_INPUT {
        return 1;
    }
    (MOST_INPUT - taken).min(PIECE as u64) as usize
}

/// Takes at most `room` bytes into the start of the buffer.
fn take_piece<E: Edge>(edge: &mut E, buffer: &mut [u8], room: usize) -> Result<usize, Stop>
    requires some { 0 < room }
    requires within { room ≤ length buffer.old }
    ensures bound { IfOk result (λ count. count ≤ room) }
    ensures taken { IfOk result (λ count.
        Told (Takes (record { 0 = 0 }) count buffer.new) (E.told edge.old) (E.told edge.new)) }
    ensures unchanged { OnErr result (Told Same (E.told edge.old) (E.told edge.new)) }
    ensures stop { IfErr result (λ stop. stop ≡ Stop.Input) }
    ensures heard { ToldBoth E.told E.heard TakesPiece edge.old edge.new }
    ensures cause { HasCause (λ f. f.input) (E.faults edge.old) (E.faults edge.new) result }
    ensures kept { Stays E.extent edge.old edge.new }
{
    match edge.take(Channel(0), &mut buffer[..room]) {
        Ok(count) => Ok(count),
        Err(_) => Err(Stop::Input),
    }
}
