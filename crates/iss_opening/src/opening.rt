//! Opening a device: its image is loaded, and then each record is read once and taken up.
ghost use Rattle.std.specs.Prelude.{◌≡◌, IfOk};
ghost use Rattle.iss_edge.specs.World.{Told, Stays};
ghost use Rattle.iss_edge.specs.Calls.{HearsNothing};
ghost use Rattle.iss_opening.specs.Opening.{Opens, OpensGood, OpenedAs, OnRefused, ReadsAlone, OpenCause};
ghost use Rattle.iss_opening.specs.Progress.{ReadsAll};

use crate::{OpenFault, Opened, Reading};
use iss_edge::Edge;
use std::alloc::Global;

/// Opens the device, in one journal or in halves. The image of the current half is loaded. The records after it are read in order, and
/// each is decoded, judged and taken up. An end gate other than 0 is made 0, so that a record which a stop has left after it never stands.
///
/// # Errors
///
/// `NotFormatted` if the size or the header is wrong. `BadImage` and `BadRecord` have the first place of the current half, if its image is
/// that of no sound state or is too long. `BadRecord`, `BadSpelling` and `BadHistory` have the place of the first bad gate: no record
/// follows it, what follows spells no record, or that record isn't new, goes back in time or would be one too many.
#[tactic(auto, using(crate::proofs::Causes::caused_well, crate::proofs::Causes::caused_after, crate::proofs::Causes::caused_so, crate::proofs::ToldReadings::told_closing, crate::proofs::ToldReadings::told_opens, crate::proofs::ToldReadings::told_opened))]
pub fn open<E: Edge>(alloc: Global, edge: &mut E) -> Result<Opened, OpenFault>
    ensures opens { Told (Opens result) (E.told edge.old) (E.told edge.new) }
    ensures moments { Told OpensGood (E.told edge.old) (E.told edge.new) }
    ensures refused { OnRefused result (Told ReadsAlone (E.told edge.old) (E.told edge.new)) }
    ensures opened { IfOk result (λ opened. Told (OpenedAs opened) (E.told edge.old) (E.told edge.new)) }
    ensures size { IfOk result (λ opened. opened.layout.size ≡ E.extent edge.new) }
    ensures cause { OpenCause (E.faults edge.old) (E.faults edge.new) result }
    ensures heard { Told HearsNothing (E.heard edge.old) (E.heard edge.new) }
    ensures kept { Stays E.extent edge.old edge.new }
    ensures channels { Stays E.channels edge.old edge.new }
{
    let reading = read_all(alloc, edge)?;
    reading.finish(edge)
}

/// All that stands on the device, read and taken up.
#[tactic(auto, using(crate::proofs::Causes::caused_well, crate::proofs::Causes::caused_after, crate::proofs::Causes::caused_so))]
fn read_all<E: Edge>(alloc: Global, edge: &mut E) -> Result<Reading, OpenFault>
    ensures reads { Told (ReadsAll result) (E.told edge.old) (E.told edge.new) }
    ensures moments { Told OpensGood (E.told edge.old) (E.told edge.new) }
    ensures refused { OnRefused result (Told ReadsAlone (E.told edge.old) (E.told edge.new)) }
    ensures size { IfOk result (λ reading. reading.layout.size ≡ E.extent edge.new) }
    ensures cause { OpenCause (E.faults edge.old) (E.faults edge.new) result }
    ensures heard { Told HearsNothing (E.heard edge.old) (E.heard edge.new) }
    ensures kept { Stays E.extent edge.old edge.new }
    ensures channels { Stays E.channels edge.old edge.new }
{
    let mut reading = Reading::start(alloc, edge)?;
    'reading: loop {
        let (next, taken) = reading.next(alloc, edge)?;
        reading = next;
        let Some(_) = taken else {
            return Ok(reading);
        };
    }
}
