//! Bringing an archive up to date.

ghost use Rattle.std.specs.Prelude.{◌≡◌, ◌+◌, ◌≤◌, ◌<◌, ◌^◌, length, true, false, Err, IfSome, IfOk, OnOk, OnErr};
ghost use Rattle.std.specs.List.{list_all};
ghost use Rattle.iss_archive.specs.declared.archiving.ArchiveFault.TheVariants.{Gap, Strange, Keeper};
ghost use Rattle.iss_archive.specs.Archived.{Told, records_in, posts_in, Rose};
ghost use Rattle.iss_archive.specs.Postings.{postings_of_entries};
ghost use Rattle.iss_archive.specs.Runs.{Keeps, Completes, Leaves};
ghost use Rattle.iss_archive.specs.Archiving.{has_plain_post, is_foreign, AddsRecord, MayAddRecord, LeavesNext, HasGap, IsStrange, head_next};

use crate::{Head, KeepFault, Keeper, PostRow, Source, Stepped};
use iss_model::Entry;
use std::alloc::{AllocError, Global};

/// Why an archiving ended before it came to the last record.
#[derive(Clone, Copy, Debug, PartialEq, Eq)]
pub enum ArchiveFault {
    /// The next record after the archive's last one can't be had any more.
    Gap,
    /// The archive is of another device, or it has more records than this one or postings than can be counted.
    Strange,
    /// The keeper failed.
    Keeper,
    OutOfMemory,
}

/// The greatest count of postings.
const MOST_POSTS: u64 = 9_223_372_036_854_775_807;

/// How many records are archived.
pub(crate) fn records_in(head: &Option<Head>) -> u32
    ensures { result ≡ records_in head.now }
{
    match head {
        Some(head) => head.records,
        None => 0,
    }
}

/// How many postings are archived.
fn posts_in(head: &Option<Head>) -> u64
    ensures { result ≡ posts_in head.now }
{
    match head {
        Some(head) => head.posts,
        None => 0,
    }
}

/// The postings of a record's entries, numbered from `first` on.
pub fn postings(
    alloc: Global,
    first: u64,
    number: u32,
    at: u64,
    entries: &[Entry],
) -> Result<Vec<PostRow>, AllocError>
    requires room { first + length entries.now < 2 ^ 64 }
    ensures { IfOk result (λ rows. rows.items ≡ postings_of_entries first number at entries.now) }
{
    let mut rows = Vec::new(alloc);
    let mut seq = first;
    'entries: for entry in entries {
        if let Entry::Post {
            from,
            to,
            amount,
            txn,
        } = entry
        {
            rows.push(PostRow {
                seq,
                number,
                at,
                from: *from,
                to: *to,
                amount: *amount,
                txn: *txn,
            })?;
            seq += 1;
        }
    }
    Ok(rows)
}

/// Whether the head is of another device than this one, or of more records.
pub(crate) fn is_strange(head: &Option<Head>, instance: u64, count: u32) -> bool
    ensures value { result ≡ is_foreign instance count head.now }
    ensures same { result ≡ false → IfSome head.now (λ held. held.instance ≡ instance) }
    ensures fewer { result ≡ false → records_in head.now ≤ count }
{
    match head {
        Some(held) => held.instance != instance || held.records > count,
        None => false,
    }
}

/// Adds a record's postings to what the keeper holds, whose head is `head`. It returns the new head.
pub(crate) fn add_record<K: Keeper>(
    alloc: Global,
    keeper: &mut K,
    head: &Option<Head>,
    instance: u64,
    stepped: &Stepped,
) -> Result<Head, ArchiveFault>
    requires head { IfSome (K.Keeper.told keeper.old) (λ a. a.head ≡ head.now) }
    requires same { IfSome head.now (λ held. held.instance ≡ instance) }
    requires next { stepped.now.number ≡ records_in head.now + 1 }
    requires plain { list_all has_plain_post stepped.now.entries.items ≡ true }
    ensures added { OnOk result (Told (AddsRecord instance stepped.now) (K.Keeper.told keeper.old) (K.Keeper.told keeper.new)) }
    ensures head { IfOk result (λ next. next ≡ head_next instance head.now stepped.now) }
    ensures few { IfOk result (λ next. next.posts < 2 ^ 63) }
    ensures failed { OnErr result (Told (MayAddRecord instance stepped.now) (K.Keeper.told keeper.old) (K.Keeper.told keeper.new)) }
    ensures stop { LeavesNext instance stepped.now (K.Keeper.told keeper.old) (K.Keeper.left keeper.old) (K.Keeper.left keeper.new) }
    ensures later { K.Keeper.faults keeper.old ≤ K.Keeper.faults keeper.new }
    ensures keeper { result ≡ Err Keeper → Rose (K.Keeper.faults keeper.old) (K.Keeper.faults keeper.new) }
    ensures strange { result ≡ Err Strange → 2 ^ 63 ≤ (head_next instance head.now stepped.now).posts }
    ensures untouched { result ≡ Err Strange → K.Keeper.told keeper.new ≡ K.Keeper.told keeper.old }
    ensures no_gap { result ≡ Err Gap → ⊥ }
{
    let held = posts_in(head);
    if held > MOST_POSTS {
        return Err(ArchiveFault::Strange);
    }
    let Ok(rows) = postings(
        alloc,
        held + 1,
        stepped.number,
        stepped.at,
        stepped.entries.as_slice(),
    ) else {
        return Err(ArchiveFault::OutOfMemory);
    };
    let posts = held + rows.len() as u64;
    if posts > MOST_POSTS {
        return Err(ArchiveFault::Strange);
    }
    let next = Head {
        instance,
        records: stepped.number,
        posts,
    };
    match keeper.add(&next, rows.as_slice()) {
        Ok(()) => Ok(next),
        Err(KeepFault::OutOfMemory) => Err(ArchiveFault::OutOfMemory),
        Err(KeepFault::Failed) => Err(ArchiveFault::Keeper),
    }
}

/// Brings what a keeper holds up to the last record of a source, one `add` a record. It returns the archive's head.
#[tactic(auto, using(crate::proofs::KeepingLaws::leaves_same))]
pub fn keep_up<S: Source, K: Keeper>(
    alloc: Global,
    source: &mut S,
    keeper: &mut K,
) -> Result<Option<Head>, ArchiveFault>
    ensures kept { Keeps (S.Source.run source.old) (K.Keeper.told keeper.old) (K.Keeper.told keeper.new) }
    ensures whole { OnOk result (Completes (S.Source.run source.old) (K.Keeper.told keeper.old) (K.Keeper.told keeper.new)) }
    ensures head { IfOk result (λ head. IfSome (K.Keeper.told keeper.new) (λ a. a.head ≡ head)) }
    ensures stop { Leaves (S.Source.run source.old) (K.Keeper.told keeper.old) (K.Keeper.left keeper.old) (K.Keeper.left keeper.new) }
    ensures later { K.Keeper.faults keeper.old ≤ K.Keeper.faults keeper.new }
    ensures keeper { result ≡ Err Keeper → Rose (K.Keeper.faults keeper.old) (K.Keeper.faults keeper.new) }
    ensures gap { result ≡ Err Gap → IfSome (K.Keeper.told keeper.new) (HasGap (S.Source.run source.old)) }
    ensures strange { result ≡ Err Strange → IfSome (K.Keeper.told keeper.new) (IsStrange (S.Source.run source.old)) }
{
    let instance = source.instance();
    let count = source.count();
    let mut head = match keeper.head() {
        Ok(head) => head,
        Err(KeepFault::OutOfMemory) => return Err(ArchiveFault::OutOfMemory),
        Err(KeepFault::Failed) => return Err(ArchiveFault::Keeper),
    };
    if is_strange(&head, instance, count) {
        return Err(ArchiveFault::Strange);
    }
    if records_in(&head) < source.point() {
        return Err(ArchiveFault::Gap);
    }
    'records: for _ in 0..u64::from(count) + 1 {
        let Ok(found) = source.next() else {
            return Err(ArchiveFault::OutOfMemory);
        };
        let Some(stepped) = found else {
            return Ok(head);
        };
        if stepped.number <= records_in(&head) {
            continue;
        }
        let next = add_record(alloc, keeper, &head, instance, &stepped)?;
        head = Some(next);
    }
    unreachable!()
}
