//! The archive's head and rows from the rows of an answer.

ghost use Rattle.std.specs.Prelude.{◌≡◌, ◌≢◌, ◌<◌, ◌≤◌, ◌^◌, ◌++◌, ◌∷◌, ℕ, pos, [], map, true, None, Some, IfSome, IfOk, OnOk};
ghost use Rattle.std.specs.List.{list_all};
ghost use Rattle.sqlite.specs.Order.{column};
ghost use Rattle.iss_archive.specs.Archived.{is_of_user};
ghost use Rattle.iss_sql_keeper.specs.Decoded as spec;
ghost use Rattle.iss_sql_keeper.specs.Refused.{IsOddHead};

use iss_archive::{Head, KeepFault, PostRow, is_of_user};
use iss_model::{Account, Currency, Token};
use iss_tables::HeadColumns;
use sqlite::Row;
use sqlite::types::ValueRef;
use std::alloc::{AllocError, Global};

/// The number in a column.
#[tactic(auto, using(crate::proofs::ReadLemmas::number_read))]
fn number_at(row: &Row, at: usize) -> Option<u64>
    ensures { IfSome result (λ n. n ≡ spec.number_in (column row.now at)) }
{
    match row.get::<u64>(at) {
        Ok(number) => Some(number),
        Err(_) => None,
    }
}

/// The small number in a column.
#[tactic(auto, using(crate::proofs::ReadLemmas::number_read))]
fn small_number_at(row: &Row, at: usize) -> Option<u32>
    ensures { IfSome result (λ n. n ≡ spec.number_in (column row.now at)) }
{
    match row.get::<u32>(at) {
        Ok(number) => Some(number),
        Err(_) => None,
    }
}

/// The token in a column that may be NULL.
#[tactic(auto, using(crate::proofs::ReadLemmas::text_read, crate::proofs::ReadLemmas::null_read))]
fn token_at(row: &Row, at: usize) -> Option<Option<Token>>
    ensures { IfSome result (λ token. token ≡ spec.text_in (column row.now at)) }
{
    match row.get_ref(at) {
        Ok(ValueRef::Null) => Some(None),
        Ok(ValueRef::Text(text)) => match Token::new(text) {
            Some(token) => Some(Some(token)),
            None => None,
        },
        _ => None,
    }
}

/// The currency of the number in a column.
#[tactic(auto, using(crate::proofs::ReadLemmas::currency_read))]
fn currency_at(row: &Row, at: usize) -> Option<Currency>
    ensures { IfSome result (λ currency. spec.currency_in (column row.now at) ≡ Some currency) }
{
    let number = number_at(row, at)?;
    match u16::try_from(number) {
        Ok(number) => Currency::from_number(number),
        Err(_) => None,
    }
}

/// The account of a kind. Only a user's has a user.
fn account_of(kind: u64, user: Option<Token>, currency: Currency) -> Option<Account>
    ensures { IfSome result (λ account. account ≡ spec.account_in kind user (Some currency)) }
{
    match (kind, user) {
        (1, None) => Some(Account::Gateway(currency)),
        (2, None) => Some(Account::Network(currency)),
        (3, None) => Some(Account::Programme(currency)),
        (4, Some(user)) => Some(Account::User(user, currency)),
        _ => None,
    }
}

/// The account of the kind in a column and the user in the next one.
fn account_at(row: &Row, at: usize, currency: Currency) -> Option<Account>
    requires { at < 100 }
    ensures { IfSome result (λ account. account ≡ spec.account_at row.now at currency) }
{
    let kind = number_at(row, at)?;
    let user = token_at(row, at + 1)?;
    account_of(kind, user, currency)
}

/// The posting of a row, or `None` if a column holds something else.
#[tactic(auto, using(crate::proofs::ReadLemmas::posting_read))]
fn posting_of(row: &Row) -> Option<PostRow>
    ensures { IfSome result (λ posting. posting ≡ spec.posting_shown row.now) }
{
    let currency = currency_at(row, 7)?;
    Some(PostRow {
        seq: number_at(row, 0)?,
        number: small_number_at(row, 1)?,
        at: number_at(row, 2)?,
        from: account_at(row, 3, currency)?,
        to: account_at(row, 5, currency)?,
        amount: number_at(row, 8)?,
        txn: token_at(row, 9)?,
    })
}

/// Adds a thing after the others.
fn push<T: Copy + Drop>(things: &mut Vec<T>, thing: &T) -> Result<(), AllocError>
    ensures { OnOk result (things.new.items ≡ things.old.items ++ thing.now ∷ []) }
{
    things.push(*thing)?;
    Ok(())
}

/// The postings of the rows, which are to be the user's in this currency.
pub(crate) fn postings_of(
    alloc: Global,
    rows: &[Row],
    user: &Token,
    currency: Currency,
) -> Result<Vec<PostRow>, KeepFault>
    ensures read { IfOk result (λ all. all.items ≡ map spec.posting_shown rows.now) }
    ensures users { IfOk result (λ all. list_all (is_of_user user.now currency) all.items ≡ true) }
{
    let mut all = Vec::new(alloc);
    'rows: for row in rows {
        let Some(posting) = posting_of(row) else {
            return Err(KeepFault::Failed);
        };
        if !is_of_user(&posting, user, currency) {
            return Err(KeepFault::Failed);
        }
        let Ok(()) = push(&mut all, &posting) else {
            return Err(KeepFault::OutOfMemory);
        };
    }
    Ok(all)
}

/// The number without a sign, or `None` if it is negative.
fn natural(number: i64) -> Option<u64>
    ensures value { IfSome result (λ n. n ≡ spec.natural number) }
    ensures negative { result ≡ None → (n : ℕ) → number ≢ pos n }
{
    match u64::try_from(number) {
        Ok(n) => Some(n),
        Err(_) => None,
    }
}

/// The same, for a count of records.
fn small_natural(number: i64) -> Option<u32>
    ensures value { IfSome result (λ n. n ≡ spec.natural number) }
    ensures other { result ≡ None → (n : ℕ) → number ≡ pos n → 2 ^ 32 ≤ n }
{
    match u32::try_from(number) {
        Ok(n) => Some(n),
        Err(_) => None,
    }
}

/// The head of its columns, or `None` if one holds something else.
pub(crate) fn head_of(columns: &HeadColumns) -> Option<Head>
    ensures value { IfSome result (λ head. head ≡ spec.head_of columns.now) }
    ensures odd { result ≡ None → IsOddHead columns.now }
{
    Some(Head {
        instance: natural(columns.instance)?,
        records: small_natural(columns.records)?,
        posts: natural(columns.posts)?,
    })
}
