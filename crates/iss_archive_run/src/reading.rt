//! Opening a device, and keeping each record after its image with what it makes.
ghost use Rattle.std.specs.Prelude.{◌≡◌, ◌∷◌, ◌++◌, [], IfOk, IfErr, OnOk, Err};
ghost use Rattle.iss_edge.specs.World.{Told};
ghost use Rattle.iss_opening.specs.Opening.{Opens, OpensGood, OnRefused, ReadsAlone, OpenCause};
ghost use Rattle.iss_archive_run.specs.Made.{step_of, HasAllSteps, OpensSteps};

use iss_archive::Stepped;
use iss_edge::Edge;
use iss_opening::{OpenFault, Opened, Reading, Taken};
use std::alloc::{AllocError, Global};

/// Opens the device. Beside what was opened it returns the records after the image, each with what it makes.
///
/// # Errors
///
/// Those of `iss_opening::open`.
#[tactic(auto, using(iss_opening::proofs::Causes::caused_well, iss_opening::proofs::Causes::caused_after, iss_opening::proofs::Causes::caused_so))]
pub(crate) fn open_steps<E: Edge>(
    alloc: Global,
    edge: &mut E,
) -> Result<(Opened, Vec<Stepped>), OpenFault>
    ensures opened { IfOk result (λ x. Told (OpensSteps x.0 x.1.items) (E.told edge.old) (E.told edge.new)) }
    ensures fault { IfErr result (λ fault. Told (Opens (Err fault)) (E.told edge.old) (E.told edge.new)) }
    ensures moments { Told OpensGood (E.told edge.old) (E.told edge.new) }
    ensures refused { OnRefused result (Told ReadsAlone (E.told edge.old) (E.told edge.new)) }
    ensures cause { OpenCause (E.faults edge.old) (E.faults edge.new) result }
{
    let (reading, steps) = read_steps(alloc, edge)?;
    let opened = reading.finish(edge)?;
    Ok((opened, steps))
}

/// All that stands on the device, read and taken up, and the records after the image, each with what it makes.
#[tactic(auto, using(iss_opening::proofs::Causes::caused_well, iss_opening::proofs::Causes::caused_by_memory, iss_opening::proofs::Causes::caused_after, iss_opening::proofs::Causes::caused_so))]
fn read_steps<E: Edge>(alloc: Global, edge: &mut E) -> Result<(Reading, Vec<Stepped>), OpenFault>
    ensures reads { IfOk result (λ x. Told (HasAllSteps x.0 x.1.items) (E.told edge.old) (E.told edge.new)) }
    ensures fault { IfErr result (λ fault. Told (Opens (Err fault)) (E.told edge.old) (E.told edge.new)) }
    ensures moments { Told OpensGood (E.told edge.old) (E.told edge.new) }
    ensures refused { OnRefused result (Told ReadsAlone (E.told edge.old) (E.told edge.new)) }
    ensures size { IfOk result (λ x. x.0.layout.size ≡ E.extent edge.new) }
    ensures cause { OpenCause (E.faults edge.old) (E.faults edge.new) result }
{
    let mut reading = Reading::start(alloc, edge)?;
    let mut steps = Vec::new(alloc);
    'reading: loop {
        let (next, found) = reading.next(alloc, edge)?;
        reading = next;
        let Some(taken) = found else {
            return Ok((reading, steps));
        };
        put(&mut steps, taken)?;
    }
}

/// One record more, with what it made.
fn put(steps: &mut Vec<Stepped>, taken: Taken) -> Result<(), AllocError>
    ensures { OnOk result (steps.new.items ≡ steps.old.items ++ step_of taken ∷ []) }
{
    let Taken {
        number,
        accepted,
        entries,
    } = taken;
    let at = accepted.at;
    steps.push(Stepped {
        number,
        at,
        entries,
    })?;
    Ok(())
}
