//! Bringing an archive up to date with a device.
ghost use Rattle.std.specs.Prelude.{◌≡◌, ◌+◌, ◌<◌, ◌^◌, ◌↔◌, true, length, IsTrue};
ghost use Rattle.iss_archive.specs.Steps as steps_spec;
ghost use Rattle.iss_archive_run.specs.Made.{fits};
ghost use Rattle.iss_archive_run.specs.Keeping.{IsUntouched};
ghost use Rattle.iss_archive_run.specs.Exactly.{KeepDoneOn};

use crate::line::{line_of, posts_in};
use crate::reading::open_steps;
use crate::stop::Stop;
use iss_archive::{Keeper, Stepped, are_next, keep_steps};
use iss_edge::{Channel, Edge};
use std::alloc::Global;

/// Opens the device, and adds the postings of each record after those that are archived, one `add` a record. Then it writes on channel 0
/// how many postings are archived, and of how many records.
pub fn keep<E: Edge, K: Keeper>(alloc: Global, edge: &mut E, keeper: &mut K) -> Result<(), Stop>
    ensures done { KeepDoneOn E.faults E.told K.faults K.told K.left edge.old edge.new keeper.old keeper.new result }
    ensures untouched { IsUntouched result (keeper.new ≡ keeper.old) }
{
    let (opened, steps) = open_steps(alloc, edge)?;
    let (core, _, _, point) = opened.into_parts();
    // An edge may tell nothing of its device, but what the keeper asks for is owed to it.
    if !are_all(point, core.count(), steps.as_slice()) {
        return Err(Stop::Device);
    }
    let head = keep_steps(alloc, keeper, core.instance(), point, steps.as_slice())?;
    let line = line_of(alloc, posts_in(&head), core.count())?;
    match edge.emit(Channel(0), line.as_slice()) {
        Ok(()) => Ok(()),
        Err(_) => Err(Stop::Output),
    }
}

/// Whether these are the records after the first `point` ones of `count`, and no post of them goes between two currencies.
fn are_all(point: u32, count: u32, steps: &[Stepped]) -> bool
    ensures value { (result ≡ true) ↔ fits point count steps.now }
    ensures next { IsTrue result → steps_spec.are_next point steps.now ≡ true }
    ensures room { IsTrue result → point + length steps.now < 2 ^ 32 }
{
    if u64::from(point) + steps.len() as u64 != u64::from(count) {
        return false;
    }
    are_next(point, steps)
}
