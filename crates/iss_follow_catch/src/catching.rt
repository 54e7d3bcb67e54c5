//! Catching up with a device.
ghost use Rattle.iss_follow_catch.specs.Catching.{CatchDoneOn};

use crate::ahead::open_ahead;
use crate::committing::commit_all;
use iss_edge::Edge;
use iss_follow_runs::Stop;
use iss_store::Store;
use std::alloc::Global;

/// Opens both devices, and commits to the second the records of the first that it doesn't hold. Nothing is emitted.
pub fn catch<F: Edge, T: Edge>(alloc: Global, from: &mut F, to: &mut T) -> Result<(), Stop>
    ensures { CatchDoneOn F.faults T.faults F.told T.told from.old from.new to.old to.new result }
{
    let store = Store::open(alloc, to)?;
    let ahead = open_ahead(alloc, from, store.core())?;
    if !ahead.met {
        return Err(Stop::NotBehind);
    }
    commit_all(alloc, to, store, ahead.later.as_slice())
}
