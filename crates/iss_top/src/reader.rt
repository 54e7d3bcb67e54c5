//! The lines of the input, one after the other.
ghost use Rattle.std.specs.Prelude.{◌≡◌, ◌+◌, ◌<◌, true, IfOk, IfErr, OnOk};
ghost use Rattle.iss_edge.specs.World.{Told, Stays};
ghost use Rattle.iss_edge.specs.Outer.{ToldBoth};
ghost use Rattle.iss_top.specs.Reader.{ReadsOn, ReadsNoPart, IsReading, Advances, fresh_reader};
ghost use Rattle.iss_top.specs.AtHand.{IsAtHand, EndsLine, seen_reader, line_of};
ghost use Rattle.iss_top.specs.Hearing.{ReadsAsHeard};
ghost use Rattle.iss_top.specs.Pieces.{unread_of};

use crate::buffer::LineBuffer;
use crate::piece::Pieces;
use crate::stop::Stop;
use iss_edge::Edge;
use memchr::memchr;
use std::alloc::{AllocError, Global};
use std::marker::Model;

/// Reads the lines of channel 0. Contracts see how many bytes it took, those that it hasn't read yet, the line at hand, and
/// whether that is the last one.
#[derive(Drop)]
pub(crate) struct LineReader {
    hand: AtHand,
}

impl Model for LineReader {
    ghost use Rattle.iss_top.specs.Reader.{ReaderNow};
    ghost use Rattle.iss_top.specs.AtHand.{IsAtHand, seen_reader};

    ghost Value = { ReaderNow };

    ghost view = { λ r. seen_reader r.hand };

    ghost invariant = { λ r. IsAtHand r.hand };
}

impl LineReader {
    pub(crate) fn new(alloc: Global) -> Result<LineReader, AllocError>
        ensures { IfOk result (λ reader. reader ≡ fresh_reader) }
    {
        let pieces = Pieces::new(alloc)?;
        Ok(LineReader {
            hand: AtHand {
                pieces,
                start: 0,
                end: 0,
                kept: LineBuffer::new(alloc),
                ended: false,
            },
        })
    }

    /// The line at hand, without its line feed.
    pub(crate) fn line(&self) -> &[u8]
        ensures { result.now ≡ self.now.line }
    {
        self.hand.line()
    }

    /// Reads on to the next line, and tells whether there is one. After the last line feed one more begins, which may be empty.
    pub(crate) fn read_line<E: Edge>(&mut self, edge: &mut E) -> Result<bool, Stop>
        ensures reads { IfOk result (λ more.
            Told (ReadsOn more self.old self.new) (E.told edge.old) (E.told edge.new)) }
        ensures stops { IfErr result (λ stop.
            Told (ReadsNoPart self.old stop) (E.told edge.old) (E.told edge.new)) }
        ensures heard { ToldBoth E.told E.heard (ReadsAsHeard self.old.ended self.old.unread) edge.old edge.new }
        ensures advances { IfOk result (λ more. more ≡ true → Advances self.old self.new) }
        ensures reading { IsReading (E.faults edge.old) (E.faults edge.new) result }
        ensures kept { Stays E.extent edge.old edge.new }
    {
        self.hand.read_line(edge)
    }
}

/// What a reader has at hand.
#[derive(Drop)]
pub(crate) struct AtHand {
    pub(crate) pieces: Pieces,
    /// Where the line at hand lies in the piece, if none of it was kept.
    pub(crate) start: usize,
    pub(crate) end: usize,
    /// What came of the line at hand in earlier pieces, and then all of it.
    pub(crate) kept: LineBuffer,
    pub(crate) ended: bool,
}

impl AtHand {
    fn line(&self) -> &[u8]
        requires fit { IsAtHand self.now }
        ensures { result.now ≡ line_of self.now }
    {
        if self.kept.as_slice().is_empty() {
            &self.pieces.bytes[self.start..self.end]
        } else {
            self.kept.as_slice()
        }
    }

    fn read_line<E: Edge>(&mut self, edge: &mut E) -> Result<bool, Stop>
        requires fit { IsAtHand self.old }
        ensures fit { IsAtHand self.new }
        ensures reads { IfOk result (λ more.
            Told (ReadsOn more (seen_reader self.old) (seen_reader self.new)) (E.told edge.old) (E.told edge.new)) }
        ensures stops { IfErr result (λ stop.
            Told (ReadsNoPart (seen_reader self.old) stop) (E.told edge.old) (E.told edge.new)) }
        ensures heard { ToldBoth E.told E.heard (ReadsAsHeard self.old.ended (unread_of self.old.pieces)) edge.old edge.new }
        ensures advances { IfOk result (λ more. more ≡ true → Advances (seen_reader self.old) (seen_reader self.new)) }
        ensures reading { IsReading (E.faults edge.old) (E.faults edge.new) result }
        ensures kept { Stays E.extent edge.old edge.new }
    {
        if self.ended {
            return Ok(false);
        }
        self.start = 0;
        self.end = 0;
        self.kept.clear();
        'pieces: loop {
            if let Some(at) = memchr(b'\n', self.pieces.unread()) {
                self.end_line(at)?;
                return Ok(true);
            }
            self.kept.extend(self.pieces.unread())?;
            if !self.pieces.take_more(edge)? {
                self.ended = true;
                return Ok(true);
            }
        }
    }

    /// The line at hand ends after `at` further bytes. If it lies whole in the piece, it isn't copied.
    fn end_line(&mut self, at: usize) -> Result<(), AllocError>
        requires fit { IsAtHand self.old }
        requires start { self.old.start ≡ 0 }
        requires end { self.old.end ≡ 0 }
        requires within { self.old.pieces.next + at < self.old.pieces.filled }
        ensures fit { IsAtHand self.new }
        ensures ends { OnOk result (EndsLine at self.old self.new) }
    {
        let start = self.pieces.next;
        let end = start + at;
        self.pieces.next = end + 1;
        if self.kept.as_slice().is_empty() {
            self.start = start;
            self.end = end;
            return Ok(());
        }
        self.kept.extend(&self.pieces.bytes[start..end])
    }
}
