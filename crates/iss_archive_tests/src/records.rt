//! Six records of a device, archived one after the other over any keeper.
//!
//! The first four make a product, a user, a card and an authorisation. The fifth is the gateway's answer, which funds it, and
//! the sixth is its clearing.

ghost use Rattle.std.specs.Prelude.{◌≡◌, ◌+◌, ◌<◌, ◌^◌, true, IfSome};
ghost use Rattle.std.specs.List.{list_all};
ghost use Rattle.iss_archive.specs.Archived.{has_one_currency, records_in, posts_in};
ghost use Rattle.iss_archive_tests.specs.Next.{IsNext};

use iss_archive::{Head, KeepFault, Keeper, PostRow};
use iss_model::{Account, Currency, Token};

/// The device that the records are of.
const INSTANCE: u64 = 7;

/// Whose account moves, and the transaction.
#[derive(Drop)]
pub struct Names {
    pub user: Token,
    pub txn: Token,
}

/// The user and the transaction of the records.
pub fn token_names() -> Option<Names> {
    Some(Names {
        user: Token::new(b"u1")?,
        txn: Token::new(b"a1")?,
    })
}

/// The posting that a record makes, if it makes one.
fn posting(number: u32, seq: u64, names: &Names) -> Option<PostRow>
    ensures seq { IfSome result (λ row. row.seq ≡ seq) }
    ensures currency { IfSome result (λ row. has_one_currency row ≡ true) }
{
    match number {
        5 => Some(PostRow {
            seq,
            number,
            at: 1_000,
            from: Account::Gateway(Currency::Usd),
            to: Account::User(names.user, Currency::Usd),
            amount: 6_000,
            txn: Some(names.txn),
        }),
        6 => Some(PostRow {
            seq,
            number,
            at: 86_400_000,
            from: Account::User(names.user, Currency::Usd),
            to: Account::Network(Currency::Usd),
            amount: 6_000,
            txn: Some(names.txn),
        }),
        _ => None,
    }
}

/// The head, or that of an archive of no record.
fn held(head: &Option<Head>) -> Head
    ensures instance { IfSome head.now (λ it. result.instance ≡ it.instance) }
    ensures records { result.records ≡ records_in head.now }
    ensures posts { result.posts ≡ posts_in head.now }
{
    match head {
        Some(head) => *head,
        None => Head {
            instance: INSTANCE,
            records: 0,
            posts: 0,
        },
    }
}

/// Adds one record more than `head` counts, which is the head of those that are archived.
fn add_record<K: Keeper>(
    keeper: &mut K,
    head: &Option<Head>,
    next: &Head,
    rows: &[PostRow],
) -> Result<(), KeepFault>
    requires head { IfSome (K.Keeper.told keeper.old) (λ a. a.head ≡ head.now) }
    requires next { IsNext head.now next.now rows.now }
    requires bound { next.now.posts < 2 ^ 63 }
    requires currency { list_all has_one_currency rows.now ≡ true }
{
    let _ = head;
    keeper.add(next, rows)
}

/// The head of one record more, which makes so many postings. It is `None` after six records.
fn next_head(head: &Option<Head>, made: u64) -> Option<Head>
    ensures instance { IfSome result (λ next. IfSome head.now (λ it. next.instance ≡ it.instance)) }
    ensures records { IfSome result (λ next. next.records ≡ records_in head.now + 1) }
    ensures posts { IfSome result (λ next. next.posts ≡ posts_in head.now + made) }
    ensures bound { IfSome result (λ next. next.posts < 2 ^ 63) }
{
    let last = held(head);
    if last.records >= 6 {
        return None;
    }
    if last.posts >= 6 {
        return None;
    }
    if made > 1 {
        return None;
    }
    Some(Head {
        instance: last.instance,
        records: last.records + 1,
        posts: last.posts + made,
    })
}

/// Adds a record that makes no posting.
fn add_none<K: Keeper>(keeper: &mut K, head: &Option<Head>) -> Result<(), KeepFault>
    requires { IfSome (K.Keeper.told keeper.old) (λ a. a.head ≡ head.now) }
{
    let Some(next) = next_head(head, 0) else {
        return Err(KeepFault::Failed);
    };
    add_record(keeper, head, &next, &[])
}

/// Adds a record that makes this posting.
fn add_posting<K: Keeper>(
    keeper: &mut K,
    head: &Option<Head>,
    row: &PostRow,
) -> Result<(), KeepFault>
    requires head { IfSome (K.Keeper.told keeper.old) (λ a. a.head ≡ head.now) }
    requires numbered { row.now.seq ≡ posts_in head.now + 1 }
    requires currency { has_one_currency row.now ≡ true }
{
    let Some(next) = next_head(head, 1) else {
        return Err(KeepFault::Failed);
    };
    add_record(keeper, head, &next, &[*row])
}

/// Adds the record after those that are archived, whose head is `head`.
fn add_after<K: Keeper>(keeper: &mut K, head: &Option<Head>, names: &Names) -> Result<(), KeepFault>
    requires { IfSome (K.Keeper.told keeper.old) (λ a. a.head ≡ head.now) }
{
    let last = held(head);
    if last.posts >= 6 {
        return Err(KeepFault::Failed);
    }
    match posting(last.records.saturating_add(1), last.posts + 1, names) {
        Some(row) => add_posting(keeper, head, &row),
        None => add_none(keeper, head),
    }
}

/// Adds the next record, if fewer than `most` are archived, and says whether it did.
fn add_next<K: Keeper>(keeper: &mut K, most: u32, names: &Names) -> Result<bool, KeepFault> {
    let head = keeper.head()?;
    if held(&head).records >= most {
        return Ok(false);
    }
    add_after(keeper, &head, names)?;
    Ok(true)
}

/// Archives the first `most` records, those that aren't archived yet.
pub fn archive<K: Keeper>(keeper: &mut K, most: u32, names: &Names) -> Result<(), KeepFault> {
    'records: for _ in 0..most {
        if !add_next(keeper, most, names)? {
            return Ok(());
        }
    }
    Ok(())
}

/// How many records are archived, and how many postings.
pub fn found<K: Keeper>(keeper: &mut K) -> Result<(u32, u64), KeepFault> {
    let head = keeper.head()?;
    let head = held(&head);
    Ok((head.records, head.posts))
}
