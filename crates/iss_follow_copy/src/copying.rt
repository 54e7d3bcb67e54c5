//! Copying one device to another.
ghost use Rattle.std.specs.Prelude.{◌≡◌, ◌≤◌};
ghost use Rattle.iss_journal.specs.declared.layout.TheConstants.{GREATEST_SIZE};
ghost use Rattle.iss_halves.specs.declared.layout.TheConstants.{LEAST_HALVES_SIZE};
ghost use Rattle.iss_follow_copy.specs.Copying.{CopyDoneOn, WhereUnwritten};

use crate::tail::{room_of, tail_of};
use iss_edge::Edge;
use iss_follow_runs::Stop;
use iss_halves::make;
use iss_opening::open;
use iss_snapshot::image_of;
use std::alloc::Global;

/// Opens the one device, and makes the other, of `size` bytes, one in halves of the same instance, whose first half holds the image of
/// all that stands on the one, and no record after it.
#[tactic(auto)]
pub fn copy<F: Edge, T: Edge>(
    alloc: Global,
    from: &mut F,
    to: &mut T,
    size: u64,
) -> Result<(), Stop>
    requires least { LEAST_HALVES_SIZE ≤ size }
    requires most { size ≤ GREATEST_SIZE }
    ensures done { CopyDoneOn size T.extent F.faults T.faults F.told T.told from.old from.new to.old to.new result }
    ensures unopened { (T.extent to.old ≡ size → ⊥) → from.new ≡ from.old }
    ensures unwritten { WhereUnwritten result (to.new ≡ to.old) }
{
    if to.size() != size {
        return Err(Stop::Device);
    }
    let opened = open(alloc, from)?;
    let image = image_of(alloc, opened.core())?;
    if room_of(size) < image.len() as u64 {
        return Err(Stop::NoRoom);
    }
    let tail = tail_of(alloc, opened.core().instance(), image.as_slice())?;
    match make(to, tail.as_slice()) {
        Ok(()) => Ok(()),
        Err(_) => Err(Stop::Disk),
    }
}
