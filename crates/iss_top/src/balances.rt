//! A run that reports what stands on a device: the balance of each account, and counts.
ghost use Rattle.iss_edge.specs.World.{Told};
ghost use Rattle.iss_device.specs.Refusals.{RefusesExactly};
ghost use Rattle.iss_top.specs.Statuses.{stop_status};
ghost use Rattle.iss_top.specs.Reports.{ReportRun, ReportMomentStands, IsReportCaused};

use crate::stop::Stop;
use iss_edge::Edge;
use iss_report::report;
use iss_store::Store;
use std::alloc::Global;

/// Opens the device and writes the report of what stands on it, each line by one emit. All lines are made before the first
/// goes out.
pub(crate) fn balances<E: Edge>(alloc: Global, edge: &mut E) -> Result<(), Stop>
    ensures ran { Told (ReportRun (stop_status result)) (E.told edge.old) (E.told edge.new) }
    ensures moments { Told ReportMomentStands (E.told edge.old) (E.told edge.new) }
    ensures refused { Told (RefusesExactly (stop_status result)) (E.told edge.old) (E.told edge.new) }
    ensures caused { IsReportCaused (E.faults edge.old) (E.faults edge.new) result }
{
    let store = Store::open(alloc, edge)?;
    let lines = report(alloc, store.core())?;
    match lines.send(edge) {
        Ok(()) => Ok(()),
        Err(_) => Err(Stop::Output),
    }
}
