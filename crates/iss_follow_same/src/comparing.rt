//! Comparing one device with another.
ghost use Rattle.std.specs.Prelude.{◌≡◌, ◌↔◌, true, IfOk};
ghost use Rattle.iss_follow_same.specs.Comparing.{AreSame, SameDoneOn};

use crate::line::line_of;
use iss_core::Core;
use iss_edge::{Channel, Edge};
use iss_follow_runs::Stop;
use iss_opening::open;
use iss_snapshot::image_of;
use std::alloc::{AllocError, Global};

/// Opens both devices, and writes on channel 0 of the first how many records it stands for, and whether both have the same instance and
/// the same image of all that stands on them.
#[tactic(auto)]
pub fn same<F: Edge, T: Edge>(alloc: Global, from: &mut F, to: &mut T) -> Result<(), Stop>
    ensures { SameDoneOn F.faults T.faults F.told T.told from.old from.new to.old to.new result }
{
    let first = open(alloc, from)?;
    let second = open(alloc, to)?;
    let same = are_same(alloc, first.core(), second.core())?;
    let line = line_of(alloc, first.core().count(), same)?;
    match from.emit(Channel(0), line.as_slice()) {
        Ok(()) => Ok(()),
        Err(_) => Err(Stop::Output),
    }
}

/// Whether two cores have the same instance and the same image.
fn are_same(alloc: Global, first: &Core, second: &Core) -> Result<bool, AllocError>
    ensures { IfOk result (λ same. (same ≡ true) ↔ AreSame first.now second.now) }
{
    if first.instance() != second.instance() {
        return Ok(false);
    }
    let image = image_of(alloc, first)?;
    let other = image_of(alloc, second)?;
    Ok(image.as_slice() == other.as_slice())
}
