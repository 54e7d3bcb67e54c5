//! Opening a device beside another one, which may be behind it.
ghost use Rattle.std.specs.Prelude.{◌≡◌, ◌↔◌, ◌++◌, ◌∷◌, [], Some, IfOk, IfErr, IfSome, OnOk, IsTrue};
ghost use Rattle.std.specs.List.{list_all};
ghost use Rattle.iss_edge.specs.World.{Told};
ghost use Rattle.iss_model.specs.texts.Spelling.{is_record};
ghost use Rattle.iss_opening.specs.Opening.{Opens, OpensGood, OnRefused, ReadsAlone, OpenCause};
ghost use Rattle.iss_follow_catch.specs.Behind.{HoldSame, Passes, AllBeside, OpensAhead};

use iss_codec::{decode, encode};
use iss_core::Core;
use iss_edge::Edge;
use iss_model::Record;
use iss_opening::{OpenFault, Opened, Reading};
use iss_snapshot::image_of;
use std::alloc::{AllocError, Global};

/// A device that was opened beside another one.
#[derive(Drop)]
pub(crate) struct Ahead {
    pub(crate) opened: Opened,
    /// Whether it held just what the other holds, after some of its records.
    pub(crate) met: bool,
    /// The records after those.
    pub(crate) later: Vec<Record>,
}

/// A device whose records were read beside another one, to the last.
#[derive(Drop)]
struct Beside {
    reading: Reading,
    met: bool,
    later: Vec<Record>,
}

/// Opens the device, and finds the records that come after what stands in `other`, if that stood on the device at one time.
pub(crate) fn open_ahead<E: Edge>(
    alloc: Global,
    edge: &mut E,
    other: &Core,
) -> Result<Ahead, OpenFault>
    ensures opens { IfErr result (λ fault. Told (Opens (Err fault)) (E.told edge.old) (E.told edge.new)) }
    ensures moments { Told OpensGood (E.told edge.old) (E.told edge.new) }
    ensures refused { OnRefused result (Told ReadsAlone (E.told edge.old) (E.told edge.new)) }
    ensures ahead { IfOk result (λ a.
        Told (OpensAhead a.opened other.now a.met a.later.items) (E.told edge.old) (E.told edge.new)) }
    ensures spelled { IfOk result (λ ahead. IsTrue (list_all is_record ahead.later.items)) }
    ensures cause { OpenCause (E.faults edge.old) (E.faults edge.new) result }
{
    let beside = read_beside(alloc, edge, other)?;
    let opened = beside.reading.finish(edge)?;
    Ok(Ahead {
        opened,
        met: beside.met,
        later: beside.later,
    })
}

/// Reads the records of the device to the last, beside what stands in `other`.
fn read_beside<E: Edge>(alloc: Global, edge: &mut E, other: &Core) -> Result<Beside, OpenFault>
    ensures opens { IfErr result (λ fault. Told (Opens (Err fault)) (E.told edge.old) (E.told edge.new)) }
    ensures moments { Told OpensGood (E.told edge.old) (E.told edge.new) }
    ensures refused { OnRefused result (Told ReadsAlone (E.told edge.old) (E.told edge.new)) }
    ensures reads { IfOk result (λ b.
        Told (AllBeside b.reading other.now b.met b.later.items) (E.told edge.old) (E.told edge.new)) }
    ensures spelled { IfOk result (λ beside. IsTrue (list_all is_record beside.later.items)) }
    ensures size { IfOk result (λ beside. beside.reading.layout.size ≡ E.extent edge.new) }
    ensures cause { OpenCause (E.faults edge.old) (E.faults edge.new) result }
{
    let mut reading = Reading::start(alloc, edge)?;
    let mut met = hold_same(alloc, reading.core(), other)?;
    let mut later = Vec::new(alloc);
    'reading: loop {
        let (next, taken) = reading.next(alloc, edge)?;
        reading = next;
        let Some(taken) = taken else {
            return Ok(Beside {
                reading,
                met,
                later,
            });
        };
        met = passes(
            alloc,
            met,
            &mut later,
            taken.accepted,
            reading.core(),
            other,
        )?;
    }
}

/// Passes a record, after which `core` stands: it is kept if both cores held the same before it. It returns whether they have held the
/// same by now.
fn passes(
    alloc: Global,
    met: bool,
    later: &mut Vec<Record>,
    accepted: Record,
    core: &Core,
    other: &Core,
) -> Result<bool, AllocError>
    requires { IsTrue (list_all is_record later.old.items) }
    ensures passes { IfOk result (λ now. Passes met later.old.items accepted core.now other.now now later.new.items) }
    ensures spelled { IfOk result (λ _. IsTrue (list_all is_record later.new.items)) }
{
    if met {
        keep_in_form(alloc, later, &accepted)?;
        return Ok(true);
    }
    hold_same(alloc, core, other)
}

/// Keeps a record in form, as each is that was read.
fn keep_in_form(alloc: Global, later: &mut Vec<Record>, accepted: &Record) -> Result<(), AllocError>
    requires { IsTrue (list_all is_record later.old.items) }
    ensures kept { IsTrue (is_record accepted.now) → OnOk result (later.new.items ≡ later.old.items ++ accepted.now ∷ []) }
    ensures spelled { OnOk result (IsTrue (list_all is_record later.new.items)) }
{
    let Some(own) = in_form(alloc, accepted)? else {
        return Ok(());
    };
    later.push(own)?;
    Ok(())
}

/// The record, if it is in form. What an outside doesn't tell of its device has to be looked at, since a plan needs a record in form.
fn in_form(alloc: Global, accepted: &Record) -> Result<Option<Record>, AllocError>
    ensures whole { IsTrue (is_record accepted.now) → IfOk result (λ found. found ≡ Some accepted.now) }
    ensures spelled { IfOk result (λ found. IfSome found (λ r. IsTrue (is_record r))) }
{
    let bytes = encode(alloc, accepted)?;
    decode(alloc, bytes.as_slice())
}

/// Whether two cores hold the same, of one instance.
fn hold_same(alloc: Global, core: &Core, other: &Core) -> Result<bool, AllocError>
    ensures { IfOk result (λ same. IsTrue same ↔ HoldSame core.now other.now) }
{
    if core.instance() != other.instance() {
        return Ok(false);
    }
    if core.count() != other.count() {
        return Ok(false);
    }
    let own = image_of(alloc, core)?;
    let others = image_of(alloc, other)?;
    Ok(own.as_slice() == others.as_slice())
}
