//! A device that is opened, in one journal or in halves.

ghost use Rattle.std.specs.Prelude.{◌≡◌, ◌+◌, ◌≤◌, ◌<◌, false, [], length, IsTrue, OnOk, IfOk};
ghost use Rattle.iss_edge.specs.World.{Told, Stays};
ghost use Rattle.iss_edge.specs.Calls.{Same, HearsNothing};
ghost use Rattle.iss_journal.specs.Answers.{DiskCause, DiskAlone, DiskOrMemory};
ghost use Rattle.iss_journal.specs.Header.{DiskOrUnformatted};
ghost use Rattle.iss_halves.specs.declared.layout.TheConstants.{BESIDE_IMAGE, HALVES_START};
ghost use Rattle.iss_halves.specs.Halves.{half_size, half_start};
ghost use Rattle.iss_halves.specs.Forms.{version_of, turned};
ghost use Rattle.iss_halves.specs.Standing.{gate_after, end_of};
ghost use Rattle.iss_halves.specs.Finding.{FindsLayout, FindsHalves, FindsImage, FailsAsImage};
ghost use Rattle.iss_halves.specs.Turning.{turned_place, TurnsGood, TurnsGoing};

use crate::header::{instance_of, selector_of};
use crate::layout::{BESIDE_IMAGE, HALVES_START, LEAST_HALVES_SIZE, SECOND, SELECTOR};
use crate::reads::{read_byte, read_image, read_length};
use iss_edge::{Bytes, Edge, put};
use iss_journal::layout::{FIRST_GATE, GATE, GREATEST_SIZE, HEADER, LENGTH};
use iss_journal::{Journal, JournalFault};
use std::alloc::Global;
use std::marker::Model;

/// How a device is laid out: contracts see its instance and size, whether it is in halves, and whether its second half is current.
#[derive(Debug, Drop)]
pub struct Halves {
    halved: bool,
    instance: u64,
    size: u64,
    second: bool,
}

impl Model for Halves {
    ghost use Rattle.iss_halves.specs.Forms.{Layout, IsLayout};

    ghost Value = { Layout };

    ghost view = { λ h. record { halved = h.halved; instance = h.instance; size = h.size; second = h.second } };

    ghost invariant = { λ h. IsLayout (record {
      halved = h.halved;
      instance = h.instance;
      size = h.size;
      second = h.second;
    }) };
}

impl Halves {
    /// How the device is laid out, by its header and its selector. `NotFormatted` exactly if it has neither kind of header, or
    /// another size than the kind has; else a failure is `Disk`. It takes no memory and does no sync.
    #[tactic(auto, using(crate::proofs::Findings::found_whole, crate::proofs::Findings::found_behind, crate::proofs::Findings::found_no_disk))]
    pub fn open<E: Edge>(edge: &mut E) -> Result<Halves, JournalFault>
        ensures finds { Told (FindsLayout result) (E.told edge.old) (E.told edge.new) }
        ensures same { Told Same (E.told edge.old) (E.told edge.new) }
        ensures size { IfOk result (λ layout. layout.size ≡ E.extent edge.old) }
        ensures faults { DiskOrUnformatted result }
        ensures cause { DiskCause (E.faults edge.old) (E.faults edge.new) result }
        ensures heard { Told HearsNothing (E.heard edge.old) (E.heard edge.new) }
        ensures kept { Stays E.extent edge.old edge.new }
        ensures channels { Stays E.channels edge.old edge.new }
    {
        let size = edge.size();
        match Journal::instance(edge) {
            Ok(instance) => Ok(Halves {
                halved: false,
                instance,
                size,
                second: false,
            }),
            Err(JournalFault::NotFormatted) => open_halves(edge),
            Err(_) => Err(JournalFault::Disk),
        }
    }

    /// The version that the device's header has: 2 in halves, else 1.
    pub fn version(&self) -> u8
        ensures { result ≡ version_of self.now.halved }
    {
        if self.halved { 2 } else { 1 }
    }

    /// The device's instance, of 0 to 2^48 - 1.
    pub fn instance(&self) -> u64
        ensures { result ≡ self.now.instance }
    {
        self.instance
    }

    /// Whether the device is in halves.
    pub fn is_halved(&self) -> bool
        ensures { result ≡ self.now.halved }
    {
        self.halved
    }

    /// The device's size in bytes.
    pub fn size(&self) -> u64
        ensures { result ≡ self.now.size }
    {
        self.size
    }

    /// How many bytes each half of a device in halves has.
    pub fn half_size(&self) -> u64
        requires { IsTrue self.now.halved }
        ensures { result ≡ half_size self.now.size }
    {
        size_of_half(self.size)
    }

    /// The current half's image, of no bytes if there are no halves. `BadRecord` names the half's first place, exactly if the length
    /// there leaves no room for a gate. Else a failure is `Disk` or `OutOfMemory`.
    #[tactic(auto, using(crate::proofs::Findings::image_none, crate::proofs::Findings::image_long, crate::proofs::Findings::image_there, crate::proofs::Findings::image_no_disk, crate::proofs::Findings::image_unread))]
    pub fn image<E: Edge>(&self, alloc: Global, edge: &mut E) -> Result<Bytes, JournalFault>
        requires room { self.now.size ≤ E.extent edge.old }
        ensures finds { Told (FindsImage self.now result) (E.told edge.old) (E.told edge.new) }
        ensures fits { IfOk result (λ image. IsTrue self.now.halved → BESIDE_IMAGE + length image ≤ half_size self.now.size) }
        ensures none { IfOk result (λ image. self.now.halved ≡ false → image ≡ []) }
        ensures faults { FailsAsImage result }
        ensures same { Told Same (E.told edge.old) (E.told edge.new) }
        ensures cause { DiskCause (E.faults edge.old) (E.faults edge.new) result }
        ensures heard { Told HearsNothing (E.heard edge.old) (E.heard edge.new) }
        ensures kept { Stays E.extent edge.old edge.new }
        ensures channels { Stays E.channels edge.old edge.new }
    {
        if !self.halved {
            return Ok(Bytes::from(Vec::new(alloc)));
        }
        let start = start_of(self.size, self.second);
        let length = read_length(edge, start)?;
        if size_of_half(self.size) < BESIDE_IMAGE + u64::from(length) {
            return Err(JournalFault::BadRecord(start));
        }
        let image = read_image(alloc, edge, start + LENGTH, length as usize)?;
        Ok(image)
    }

    /// The places where the journal after an image of this many bytes begins, and where it ends.
    #[tactic(auto, unfolding(crate::specs::Standing::gate_after, crate::specs::Standing::end_of))]
    pub fn region(&self, image: u64) -> (u64, u64)
        requires halves { IsTrue self.now.halved → BESIDE_IMAGE + image ≤ half_size self.now.size }
        ensures from { result.0 ≡ gate_after self.now.halved self.now.size self.now.second image }
        ensures to { result.1 ≡ end_of self.now.halved self.now.size self.now.second }
        ensures within { result.0 < result.1 }
        ensures size { result.1 ≤ self.now.size }
    {
        if !self.halved {
            return (FIRST_GATE, self.size);
        }
        let start = start_of(self.size, self.second);
        (start + LENGTH + image, start + size_of_half(self.size))
    }

    /// Writes the half that isn't current, and then has the selector name it; `half` has the bytes of a `Half`. At each moment a stop
    /// leaves the half that was current with what it holds, or the other one with the new image and no records. It returns the journal
    /// of the new half. Its one fault is `Disk`, after which this isn't to be used again.
    #[tactic(auto, using(crate::proofs::Turns::turn_unwritten, crate::proofs::Turns::turn_unnamed, crate::proofs::Turns::turn_done, crate::proofs::Turns::turn_done_good, iss_edge::proofs::ToldPuts::hears_nothing))]
    pub fn turn<E: Edge>(&mut self, edge: &mut E, half: &[u8]) -> Result<Journal, JournalFault>
        requires halved { IsTrue self.old.halved }
        requires some { BESIDE_IMAGE ≤ length half.now }
        requires fits { length half.now ≤ half_size self.old.size }
        requires room { self.old.size ≤ E.extent edge.old }
        ensures moments { Told (TurnsGood self.old.size self.old.second half.now) (E.told edge.old) (E.told edge.new) }
        ensures turned { OnOk result
            (Told (TurnsGoing self.old.size self.old.second half.now) (E.told edge.old) (E.told edge.new)) }
        ensures journal { IfOk result (λ journal. journal ≡ turned_place self.old.size self.old.second half.now) }
        ensures now { OnOk result (self.new ≡ turned self.old) }
        ensures alone { DiskAlone result }
        ensures cause { DiskCause (E.faults edge.old) (E.faults edge.new) result }
        ensures heard { Told HearsNothing (E.heard edge.old) (E.heard edge.new) }
        ensures kept { Stays E.extent edge.old edge.new }
        ensures channels { Stays E.channels edge.old edge.new }
    {
        let second = !self.second;
        let start = start_of(self.size, second);
        put(edge, start, half)?;
        put(edge, SELECTOR, &[selector_of(second)])?;
        self.second = second;
        Ok(Journal::fresh(
            start + (half.len() as u64 - GATE),
            start + size_of_half(self.size),
        ))
    }
}

/// How a device in halves is laid out. `NotFormatted` exactly if its size or its header is that of no device in halves.
#[tactic(auto, using(crate::proofs::Findings::halves_found, crate::proofs::Findings::halves_absent, crate::proofs::Findings::halves_sized, crate::proofs::Findings::halves_no_disk, crate::proofs::Findings::halves_unread))]
fn open_halves<E: Edge>(edge: &mut E) -> Result<Halves, JournalFault>
    ensures finds { Told (FindsHalves result) (E.told edge.old) (E.told edge.new) }
    ensures same { Told Same (E.told edge.old) (E.told edge.new) }
    ensures size { IfOk result (λ layout. layout.size ≡ E.extent edge.old) }
    ensures faults { DiskOrUnformatted result }
    ensures cause { DiskCause (E.faults edge.old) (E.faults edge.new) result }
    ensures heard { Told HearsNothing (E.heard edge.old) (E.heard edge.new) }
    ensures kept { Stays E.extent edge.old edge.new }
    ensures channels { Stays E.channels edge.old edge.new }
{
    let size = edge.size();
    if size < LEAST_HALVES_SIZE || GREATEST_SIZE < size {
        return Err(JournalFault::NotFormatted);
    }
    let mut header = [0; HEADER];
    edge.read_at(0, &mut header)?;
    let Some(instance) = instance_of(header) else {
        return Err(JournalFault::NotFormatted);
    };
    let selector = read_byte(edge, SELECTOR)?;
    Ok(Halves {
        halved: true,
        instance,
        size,
        second: selector == SECOND,
    })
}

/// How many bytes a half has on a device of this size.
fn size_of_half(size: u64) -> u64
    requires { HALVES_START ≤ size }
    ensures { result ≡ half_size size }
{
    (size - HALVES_START) / 2
}

/// The first place of a half.
#[tactic(auto, unfolding(crate::specs::Halves::half_start))]
fn start_of(size: u64, second: bool) -> u64
    requires { HALVES_START ≤ size }
    ensures start { result ≡ half_start size second }
    ensures within { result + half_size size ≤ size }
{
    if second {
        HALVES_START + size_of_half(size)
    } else {
        HALVES_START
    }
}
