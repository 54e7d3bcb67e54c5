//! Committing records, one after the other.
ghost use Rattle.std.specs.Prelude.{◌≡◌, ◌≢◌, [], ◌∷◌, List, IfOk, IfErr, IsTrue};
ghost use Rattle.std.specs.List.{list_all};
ghost use Rattle.iss_edge.specs.World.{Told, Stays};
ghost use Rattle.iss_model.specs.declared.input.Record.{Record};
ghost use Rattle.iss_model.specs.texts.Spelling.{is_record};
ghost use Rattle.iss_opening.specs.Standing.{StandsFor};
ghost use Rattle.iss_follow_runs.specs.declared.stop.Stop.TheVariants.{Disk};
ghost use Rattle.iss_store.specs.Planning.{IsPlanOf};
ghost use Rattle.iss_follow_catch.specs.Rooms.{room_on, FitsNext};
ghost use Rattle.iss_follow_catch.specs.Committing.{stop_told, IsPlanItself, TakesUp, Lasts, LastsInPart, LastsSome, StopsAt, WhereLeft, WhereUnplanned, CommitRun, DiskCaused, EndsAsCommit};

use iss_edge::Edge;
use iss_follow_runs::Stop;
use iss_model::{Answer, Record};
use iss_store::{PlanFault, Planned, Store, StoreFault};
use std::alloc::Global;

/// Commits these records to a device, in their order, as far as each fits and follows on those before it.
pub(crate) fn commit_all<T: Edge>(
    alloc: Global,
    to: &mut T,
    opened: Store,
    records: &[Record],
) -> Result<(), Stop>
    requires size { T.extent to.old ≡ opened.layout.size }
    requires spelled { IsTrue (list_all is_record records.now) }
    ensures ran { Told (CommitRun opened records.now result) (T.told to.old) (T.told to.new) }
    ensures part { Told (LastsInPart opened records.now) (T.told to.old) (T.told to.new) }
    ensures left { WhereLeft result (Told (LastsSome opened) (T.told to.old) (T.told to.new)) }
    ensures kind { EndsAsCommit result }
    ensures cause { DiskCaused (T.faults to.old) (T.faults to.new) result }
{
    let mut store = opened;
    'records: for record in records {
        store = commit_one(alloc, to, store, record)?;
    }
    Ok(())
}

/// Commits a record, if it follows on what stands and fits.
fn commit_one<T: Edge>(
    alloc: Global,
    to: &mut T,
    mut store: Store,
    accepted: &Record,
) -> Result<Store, Stop>
    requires size { T.extent to.old ≡ store.layout.size }
    requires spelled { IsTrue (is_record accepted.now) }
    ensures takes { IfOk result (λ next. TakesUp store next (accepted.now ∷ [])) }
    ensures lasts { IfOk result (λ next. Told (Lasts store next (accepted.now ∷ [])) (T.told to.old) (T.told to.new)) }
    ensures part { Told (LastsInPart store (accepted.now ∷ [])) (T.told to.old) (T.told to.new) }
    ensures left { WhereLeft result (Told (LastsSome store) (T.told to.old) (T.told to.new)) }
    ensures stops { IfErr result (StopsAt store accepted.now) }
    ensures unplanned { WhereUnplanned result (to.new ≡ to.old) }
    ensures cause { DiskCaused (T.faults to.old) (T.faults to.new) result }
    ensures kept { Stays T.extent to.old to.new }
{
    let planned = plan_of(alloc, &mut store, accepted)?;
    match store.commit(alloc, to, planned) {
        Ok((next, _)) => Ok(next),
        Err(StoreFault::OutOfMemory) => Err(Stop::Memory),
        Err(StoreFault::Disk) => Err(Stop::Disk),
        // A commit emits nothing.
        Err(StoreFault::Output) => unreachable!(),
    }
}

/// The plan of a record. `NotBehind` if it doesn't follow on what stands, and `NoRoom` if it doesn't fit, or if there are as many
/// records as there may be.
#[tactic(auto, using(crate::proofs::PlansMade::itself_alone, crate::proofs::PlansMade::told_alone))]
fn plan_of(alloc: Global, store: &mut Store, accepted: &Record) -> Result<Planned, Stop>
    requires { IsTrue (is_record accepted.now) }
    ensures kept { store.new ≡ store.old }
    ensures plan { IfOk result (IsPlanOf store.old) }
    ensures is { IfOk result (λ planned. planned.accepted ≡ accepted.now) }
    ensures fits { IfOk result (λ planned. (rs : List Record) → StandsFor store.old rs → FitsNext (room_on store.old) rs accepted.now) }
    ensures stops { IfErr result (StopsAt store.old accepted.now) }
    ensures alone { IfErr result (λ why. why ≢ Disk) }
{
    if accepted.at < store.core().now() {
        return Err(Stop::NotBehind);
    }
    match store.plan(alloc, &accepted.input, accepted.at) {
        Ok(planned) => plan_itself(planned),
        Err(PlanFault::Told(answer)) => Err(stop_told(&answer)),
        Err(PlanFault::OutOfMemory) => Err(Stop::Memory),
    }
}

/// A plan, unless it is that of a time that goes before the answer of an input that isn't new.
fn plan_itself(planned: Planned) -> Result<Planned, Stop>
    ensures { IsPlanItself planned result }
{
    if planned.more() {
        return Err(Stop::NotBehind);
    }
    Ok(planned)
}

/// What it means that an input is told this in place of making a record.
fn stop_told(answer: &Answer) -> Stop
    ensures { result ≡ stop_told answer.now }
{
    match answer {
        Answer::Full { .. } | Answer::Spent => Stop::NoRoom,
        Answer::Repeat(..)
        | Answer::Conflict(..)
        | Answer::Late(..)
        | Answer::UnknownCall(_)
        | Answer::Already(_)
        | Answer::UnknownNotice(_)
        | Answer::Idle => Stop::NotBehind,
    }
}
