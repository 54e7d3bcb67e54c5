//! The same records over a keeper in memory and over a database in memory.
ghost use Rattle.std.specs.Prelude.{◌≡◌};

use crate::records::{Names, archive, found, token_names};
use iss_archive::{KeepFault, Keeper, MapKeeper, PostRow};
use iss_model::{Account, Currency, Token};
use iss_sql_keeper::SqliteKeeper;
use sqlite::Connection;
use std::alloc::Global;
use std::test::Fail;

/// A posting's number, that of its record, its stamp and its amount.
type Figures = (u64, u32, u64, u64);

/// What is archived after five records, after six, and after six once more.
fn three_runs<K: Keeper>(keeper: &mut K, names: &Names) -> Result<[(u32, u64); 3], KeepFault> {
    archive(keeper, 5, names)?;
    let first = found(keeper)?;
    archive(keeper, 6, names)?;
    let second = found(keeper)?;
    archive(keeper, 6, names)?;
    Ok([first, second, found(keeper)?])
}

fn shown(rows: &[PostRow], at: usize) -> Option<Figures> {
    let row = rows.get(at)?;
    Some((row.seq, row.number, row.at, row.amount))
}

/// The user's postings in a currency, of which there are two at most.
fn postings<K: Keeper>(
    keeper: &mut K,
    user: &Token,
    currency: Currency,
) -> Result<(usize, Option<Figures>, Option<Figures>), KeepFault> {
    let rows = keeper.of_user(user, currency)?;
    Ok((
        rows.len(),
        shown(rows.as_slice(), 0),
        shown(rows.as_slice(), 1),
    ))
}

/// Whether the first posting comes from the gateway, and the second one goes to the network, both of this transaction.
fn sides<K: Keeper>(keeper: &mut K, names: &Names) -> Result<bool, KeepFault> {
    let rows = keeper.of_user(&names.user, Currency::Usd)?;
    match rows.as_slice() {
        [first, second] => Ok(
            is_side(&first.from, 1)
                && is_side(&second.to, 2)
                && is_txn(first, names)
                && is_txn(second, names),
        ),
        _ => Ok(false),
    }
}

/// Whether the account is the gateway's, by 1, or the network's, by 2, in dollars.
fn is_side(account: &Account, side: u8) -> bool {
    match account {
        Account::Gateway(Currency::Usd) => side == 1,
        Account::Network(Currency::Usd) => side == 2,
        _ => false,
    }
}

fn is_txn(row: &PostRow, names: &Names) -> bool {
    match &row.txn {
        Some(txn) => *txn == names.txn,
        None => false,
    }
}

/// All that the tests ask of a keeper: what three runs archive, and the postings of the user, of one that there isn't, and of
/// the user in another currency.
fn asked<K: Keeper>(
    keeper: &mut K,
    names: &Names,
) -> Result<
    (
        [(u32, u64); 3],
        [(usize, Option<Figures>, Option<Figures>); 3],
        bool,
    ),
    KeepFault,
> {
    let runs = three_runs(keeper, names)?;
    let own = postings(keeper, &names.user, Currency::Usd)?;
    let other = postings(keeper, &names.txn, Currency::Usd)?;
    let foreign = postings(keeper, &names.user, Currency::Jpy)?;
    Ok((runs, [own, other, foreign], sides(keeper, names)?))
}

fn in_memory(alloc: Global, fails: Vec<u64>) -> Option<MapKeeper> {
    MapKeeper::new(alloc, None, Vec::new(alloc), fails).ok()
}

/// What six records come to in a keeper in memory, whose calls of these numbers fail, and what is archived then.
fn with_failures(alloc: Global, names: &Names, fails: Vec<u64>) -> Option<(bool, (u32, u64))> {
    let mut keeper = in_memory(alloc, fails)?;
    let failed = archive(&mut keeper, 5, names).is_err() || archive(&mut keeper, 6, names).is_err();
    Some((failed, found(&mut keeper).ok()?))
}

const RUNS: [(u32, u64); 3] = [(5, 1), (6, 2), (6, 2)];

const FUNDS: Figures = (1, 5, 1_000, 6_000);

const PAYMENT: Figures = (2, 6, 86_400_000, 6_000);

#[test]
fn a_keeper_in_memory_archives_each_record_once(rt: HostRuntime) -> Result<(), Fail> {
    let alloc = rt.alloc();
    let names = token_names().ok_or("no token")?;
    let mut keeper = in_memory(alloc, Vec::new(alloc)).ok_or("no keeper")?;
    let (runs, rows, sides) = asked(&mut keeper, &names).ok().ok_or("it failed")?;
    assert_eq!(rt; runs, RUNS);
    assert_eq!(rt;
        rows,
        [
            (2, Some(FUNDS), Some(PAYMENT)),
            (0, None, None),
            (0, None, None)
        ]
    );
    assert!(rt; sides);
    Ok(())
}

#[test]
fn a_database_archives_each_record_once(rt: HostRuntime) -> Result<(), Fail> {
    let alloc = rt.alloc();
    let names = token_names().ok_or("no token")?;
    let conn = Connection::open_in_memory(alloc)?;
    let mut keeper = SqliteKeeper::new(alloc, Some(conn))?;
    let (runs, rows, sides) = asked(&mut keeper, &names).ok().ok_or("it failed")?;
    assert_eq!(rt; runs, RUNS);
    assert_eq!(rt;
        rows,
        [
            (2, Some(FUNDS), Some(PAYMENT)),
            (0, None, None),
            (0, None, None)
        ]
    );
    assert!(rt; sides);
    Ok(())
}

/// Made again over its tables, a keeper tells what they held.
#[test]
fn a_database_is_taken_up_again(rt: HostRuntime) -> Result<(), Fail> {
    let alloc = rt.alloc();
    let names = token_names().ok_or("no token")?;
    let conn = Connection::open_in_memory(alloc)?;
    let mut first = SqliteKeeper::new(alloc, Some(conn))?;
    archive(&mut first, 5, &names).ok().ok_or("it failed")?;
    let mut second = SqliteKeeper::new(alloc, first.into_connection())?;
    assert_eq!(rt; found(&mut second).ok(), Some((5, 1)));
    Ok(())
}

/// Ten calls archive five records, and the eleventh reads their head. The twelfth is to add the sixth record.
#[test]
fn a_failed_call_leaves_five_records(rt: HostRuntime) -> Result<(), Fail> {
    let alloc = rt.alloc();
    let names = token_names().ok_or("no token")?;
    let left = with_failures(alloc, &names, vec![in alloc; 12]?).ok_or("no keeper")?;
    assert_eq!(rt; left, (true, (5, 1)));
    Ok(())
}

/// Without a database each call fails, and so does each over tables that are no archive's.
#[test]
fn a_keeper_without_an_archive_fails(rt: HostRuntime) -> Result<(), Fail> {
    let alloc = rt.alloc();
    let names = token_names().ok_or("no token")?;
    let mut conn = Connection::open_in_memory(alloc)?;
    conn.execute_batch("CREATE TABLE head (id INTEGER PRIMARY KEY) STRICT")
        .ok()
        .ok_or("no table")?;
    let mut foreign = SqliteKeeper::new(alloc, Some(conn))?;
    assert_eq!(rt; found(&mut foreign), Err(KeepFault::Failed));
    assert!(rt; archive(&mut foreign, 5, &names).is_err());
    assert!(rt; foreign.into_connection().is_some());
    Ok(())
}
