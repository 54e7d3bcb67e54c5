//! The archive's head and rows as columns.

ghost use Rattle.std.specs.Prelude.{◌≡◌, ◌≤◌, ◌^◌, pos, map, option_map, None, IfSome, IfOk};
ghost use Rattle.iss_sql_keeper.specs.Decoded.{head_of};
ghost use Rattle.iss_sql_keeper.specs.Given as spec;

use iss_archive::{Head, KeepFault, PostRow};
use iss_model::{Account, Token};
use iss_tables::{HeadColumns, PostColumns};
use std::alloc::Global;

/// The kind of an account, by number.
fn kind_of(account: &Account) -> i64
    ensures { result ≡ spec.kind_of account.now }
{
    match account {
        Account::Gateway(_) => 1,
        Account::Network(_) => 2,
        Account::Programme(_) => 3,
        Account::User(_, _) => 4,
    }
}

/// The user of an account, if it is a user's.
fn user_of(account: &Account) -> Option<&str>
    ensures { option_map (λ user. user.now) result ≡ spec.user_of account.now }
{
    match account {
        Account::User(user, _) => Some(user.as_str()),
        Account::Gateway(_) | Account::Programme(_) | Account::Network(_) => None,
    }
}

/// The text of a token, if there is one.
fn text_of(token: &Option<Token>) -> Option<&str>
    ensures { option_map (λ text. text.now) result ≡ token.now }
{
    match token {
        Some(token) => Some(token.as_str()),
        None => None,
    }
}

/// A row's columns, or `None` if a number doesn't fit.
fn columns_of(row: &PostRow) -> Option<PostColumns<'_>>
    ensures { IfSome result (spec.AreColumnsOf row.now) }
{
    Some(PostColumns {
        seq: signed(row.seq)?,
        record_: i64::from(row.number),
        at: signed(row.at)?,
        from_kind: kind_of(&row.from),
        from_user: user_of(&row.from),
        to_kind: kind_of(&row.to),
        to_user: user_of(&row.to),
        currency: i64::from(row.from.currency().number()),
        amount: signed(row.amount)?,
        txn: text_of(&row.txn),
    })
}

/// The number with a sign, or `None` if it doesn't fit.
pub(crate) fn signed(number: u64) -> Option<i64>
    ensures value { IfSome result (λ n. n ≡ pos number) }
    ensures great { result ≡ None → 2 ^ 63 ≤ number }
{
    match i64::try_from(number) {
        Ok(n) => Some(n),
        Err(_) => None,
    }
}

/// A row's columns, or `None` if a number doesn't fit or its accounts have two currencies.
#[tactic(auto, using(crate::proofs::GivenLemmas::posting_is))]
fn fitting_columns_of(row: &PostRow) -> Option<PostColumns<'_>>
    ensures { IfSome result (λ columns. spec.posting_given columns ≡ row.now) }
{
    if row.from.currency().number() != row.to.currency().number() {
        return None;
    }
    columns_of(row)
}

/// All rows' columns.
pub(crate) fn all_columns_of(
    alloc: Global,
    rows: &[PostRow],
) -> Result<Vec<PostColumns<'_>>, KeepFault>
    ensures { IfOk result (λ columns. map spec.posting_given columns.items ≡ rows.now) }
{
    let mut all = Vec::new(alloc);
    'rows: for row in rows {
        let Some(columns) = fitting_columns_of(row) else {
            return Err(KeepFault::Failed);
        };
        let Ok(()) = all.push(columns) else {
            return Err(KeepFault::OutOfMemory);
        };
    }
    Ok(all)
}

/// The head's columns, or `None` if a number doesn't fit.
fn columns_of_head(head: &Head) -> Option<HeadColumns>
    ensures { IfSome result (spec.AreHeadColumnsOf head.now) }
{
    Some(HeadColumns {
        instance: signed(head.instance)?,
        records: i64::from(head.records),
        posts: signed(head.posts)?,
    })
}

/// The head's columns, or `None` if a number doesn't fit.
pub(crate) fn head_columns_of(head: &Head) -> Option<HeadColumns>
    ensures { IfSome result (λ columns. head_of columns ≡ head.now) }
{
    columns_of_head(head)
}
