//! Bringing an archive up to date from records that were read before.

ghost use Rattle.std.specs.Prelude.{◌≡◌, ◌+◌, ◌≤◌, ◌<◌, ◌^◌, length, true, Err, IsTrue, IfOk, OnOk};
ghost use Rattle.std.specs.List.{list_all};
ghost use Rattle.iss_archive.specs.declared.archiving.ArchiveFault.TheVariants.{Keeper};
ghost use Rattle.iss_archive.specs.Archived.{Told, records_in, Rose};
ghost use Rattle.iss_archive.specs.Archiving.{has_plain_post as is_plain_post};
ghost use Rattle.iss_archive.specs.Steps as spec;
ghost use Rattle.iss_archive.specs.Steps.{KeepsSteps, CompletesSteps, LeavesSteps, IsCalledFor};

use crate::archiving::{add_record, is_strange, records_in};
use crate::{ArchiveFault, Head, KeepFault, Keeper, Stepped};
use iss_model::Entry;
use std::alloc::Global;

/// Whether the entry is no post between two currencies.
fn has_plain_post(entry: &Entry) -> bool
    ensures { result ≡ is_plain_post entry.now }
{
    match entry {
        Entry::Post { from, to, .. } => from.currency().number() == to.currency().number(),
        _ => true,
    }
}

/// Whether no post among these goes between two currencies.
fn are_plain(entries: &[Entry]) -> bool
    ensures { result ≡ list_all is_plain_post entries.now }
{
    'entries: for entry in entries {
        if !has_plain_post(entry) {
            return false;
        }
    }
    true
}

/// Whether the record is next after the record with this number, and no post of it goes between two currencies.
fn is_next(number: u32, stepped: &Stepped) -> bool
    ensures value { result ≡ spec.is_next number stepped.now }
    ensures number { IsTrue result → stepped.now.number ≡ number + 1 }
{
    if u64::from(stepped.number) != u64::from(number) + 1 {
        return false;
    }
    are_plain(stepped.entries.as_slice())
}

/// Whether the records are numbered on after this number, and no post of them goes between two currencies.
pub fn are_next(number: u32, steps: &[Stepped]) -> bool
    ensures { result ≡ spec.are_next number steps.now }
{
    let mut last = number;
    'steps: for stepped in steps {
        if !is_next(last, stepped) {
            return false;
        }
        last = stepped.number;
    }
    true
}

/// Brings what a keeper holds up to the last of these records, which come after the first `point` ones of a device. Each is added by
/// one `add`. It returns the archive's head.
///
/// # Errors
///
/// `Strange` if the archive is of another device, or of more records than these and the first ones. `Gap` if the next record after the
/// archive's last one is none of these. `Strange` also if the postings of a record would be more than can be counted: those before it
/// are added then.
pub fn keep_steps<K: Keeper>(
    alloc: Global,
    keeper: &mut K,
    instance: u64,
    point: u32,
    steps: &[Stepped],
) -> Result<Option<Head>, ArchiveFault>
    requires next { spec.are_next point steps.now ≡ true }
    requires room { point + length steps.now < 2 ^ 32 }
    ensures kept { KeepsSteps instance point steps.now (K.Keeper.told keeper.old) (K.Keeper.told keeper.new) }
    ensures whole { OnOk result (CompletesSteps instance point steps.now (K.Keeper.told keeper.old) (K.Keeper.told keeper.new)) }
    ensures all { IfOk result (λ head. records_in head ≡ point + length steps.now) }
    ensures stop { LeavesSteps instance point steps.now (K.Keeper.told keeper.old) (K.Keeper.left keeper.old) (K.Keeper.left keeper.new) }
    ensures cause { Told (IsCalledFor instance point (point + length steps.now) steps.now result) (K.Keeper.told keeper.old) (K.Keeper.told keeper.new) }
    ensures later { K.Keeper.faults keeper.old ≤ K.Keeper.faults keeper.new }
    ensures keeper { result ≡ Err Keeper → Rose (K.Keeper.faults keeper.old) (K.Keeper.faults keeper.new) }
{
    let count = point + steps.len() as u32;
    let mut head = match keeper.head() {
        Ok(head) => head,
        Err(KeepFault::OutOfMemory) => return Err(ArchiveFault::OutOfMemory),
        Err(KeepFault::Failed) => return Err(ArchiveFault::Keeper),
    };
    if is_strange(&head, instance, count) {
        return Err(ArchiveFault::Strange);
    }
    if records_in(&head) < point {
        return Err(ArchiveFault::Gap);
    }
    'steps: for stepped in steps {
        if stepped.number <= records_in(&head) {
            continue;
        }
        let next = add_record(alloc, keeper, &head, instance, stepped)?;
        head = Some(next);
    }
    Ok(head)
}
