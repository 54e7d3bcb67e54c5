//! Why an archive isn't brought up to date, over both keepers.
ghost use Rattle.std.specs.Prelude.{◌≡◌};

use crate::records::{Names, archive, found, token_names};
use iss_archive::{ArchiveFault, Keeper, MapKeeper, Source, Stepped, keep_up};
use iss_sql_keeper::SqliteKeeper;
use sqlite::{Connection, MemStore};
use std::alloc::{AllocError, Global};
use std::test::Fail;

/// A device with so many records, of which so many were passed. Memory runs out before one of the others is read.
#[derive(Drop)]
struct Unread {
    instance: u64,
    count: u32,
    point: u32,
}

impl Source for Unread {
    ghost use Rattle.iss_archive_tests.specs.Unread.{idle_run};

    ghost run = { λ u. idle_run u.instance u.count u.point };

    fn instance(&self) -> u64 {
        self.instance
    }

    #[tactic(auto, using(crate::proofs::Counting::as_many))]
    fn count(&self) -> u32 {
        self.count
    }

    fn point(&self) -> u32 {
        self.point
    }

    fn next(&mut self) -> Result<Option<Stepped>, AllocError> {
        let _ = self.count;
        Err(AllocError)
    }
}

/// Why the archive isn't brought up to date with a device, and what is archived then.
fn refused<K: Keeper>(
    alloc: Global,
    keeper: &mut K,
    instance: u64,
    count: u32,
    point: u32,
) -> (Option<ArchiveFault>, Option<(u32, u64)>) {
    let mut device = Unread {
        instance,
        count,
        point,
    };
    let fault = keep_up(alloc, &mut device, keeper).err();
    (fault, found(keeper).ok())
}

/// What comes of an archive of five records of device 7: with a device that has passed six, with one that has passed five, with
/// device 8, with a device of four records, and with device 8 that has passed six.
fn all_refused<K: Keeper>(
    alloc: Global,
    keeper: &mut K,
) -> [(Option<ArchiveFault>, Option<(u32, u64)>); 5] {
    [
        refused(alloc, keeper, 7, 6, 6),
        refused(alloc, keeper, 7, 6, 5),
        refused(alloc, keeper, 8, 6, 0),
        refused(alloc, keeper, 7, 4, 0),
        refused(alloc, keeper, 8, 6, 6),
    ]
}

const ALL_REFUSED: [(Option<ArchiveFault>, Option<(u32, u64)>); 5] = [
    (Some(ArchiveFault::Gap), Some((5, 1))),
    (Some(ArchiveFault::OutOfMemory), Some((5, 1))),
    (Some(ArchiveFault::Strange), Some((5, 1))),
    (Some(ArchiveFault::Strange), Some((5, 1))),
    (Some(ArchiveFault::Strange), Some((5, 1))),
];

fn in_memory(alloc: Global, names: &Names) -> Option<MapKeeper> {
    let mut keeper = MapKeeper::new(alloc, None, Vec::new(alloc), Vec::new(alloc)).ok()?;
    archive(&mut keeper, 5, names).ok()?;
    Some(keeper)
}

fn in_database(alloc: Global, names: &Names) -> Option<SqliteKeeper<MemStore>> {
    let conn = Connection::open_in_memory(alloc).ok()?;
    let mut keeper = SqliteKeeper::new(alloc, Some(conn)).ok()?;
    archive(&mut keeper, 5, names).ok()?;
    Some(keeper)
}

/// A device that has passed a record isn't archived from there on by an empty keeper.
#[test]
fn an_empty_keeper_has_a_gap(rt: HostRuntime) -> Result<(), Fail> {
    let alloc = rt.alloc();
    let mut keeper = MapKeeper::new(alloc, None, Vec::new(alloc), Vec::new(alloc))?;
    assert_eq!(rt;
        refused(alloc, &mut keeper, 7, 3, 1),
        (Some(ArchiveFault::Gap), Some((0, 0)))
    );
    let mut keeper = SqliteKeeper::new(alloc, Some(Connection::open_in_memory(alloc)?))?;
    assert_eq!(rt;
        refused(alloc, &mut keeper, 7, 3, 1),
        (Some(ArchiveFault::Gap), Some((0, 0)))
    );
    Ok(())
}

#[test]
fn a_keeper_in_memory_is_refused(rt: HostRuntime) -> Result<(), Fail> {
    let names = token_names().ok_or("no token")?;
    let mut keeper = in_memory(rt.alloc(), &names).ok_or("no keeper")?;
    assert_eq!(rt; all_refused(rt.alloc(), &mut keeper), ALL_REFUSED);
    Ok(())
}

#[test]
fn a_database_is_refused(rt: HostRuntime) -> Result<(), Fail> {
    let names = token_names().ok_or("no token")?;
    let mut keeper = in_database(rt.alloc(), &names).ok_or("no keeper")?;
    assert_eq!(rt; all_refused(rt.alloc(), &mut keeper), ALL_REFUSED);
    Ok(())
}

/// A keeper whose call fails says so.
#[test]
fn a_keeper_that_fails_is_told(rt: HostRuntime) -> Result<(), Fail> {
    let alloc = rt.alloc();
    let mut keeper = MapKeeper::new(alloc, None, Vec::new(alloc), vec![in alloc; 1]?)?;
    assert_eq!(rt;
        refused(alloc, &mut keeper, 7, 3, 0),
        (Some(ArchiveFault::Keeper), Some((0, 0)))
    );
    let mut keeper: SqliteKeeper<MemStore> = SqliteKeeper::new(alloc, None)?;
    assert_eq!(rt;
        refused(alloc, &mut keeper, 7, 3, 0),
        (Some(ArchiveFault::Keeper), None)
    );
    Ok(())
}
