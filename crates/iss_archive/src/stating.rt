//! Which rows can be put into a statement.

ghost use Rattle.std.specs.Prelude.{◌≡◌, pos, neg_ℤ, ◌^◌, ◌<ℤ◌, ◌+ℤ◌, ◌+◌, ◌&&◌, IsTrue, int_le};
ghost use Rattle.iss_archive.specs.Archived as archived;
ghost use Rattle.iss_archive.specs.Statable as spec;

use crate::PostRow;
use iss_model::{Account, Currency, Token};

/// Half the range that sums may have, without its ends.
const LIMIT: i128 = 4_611_686_018_427_387_904;

/// Whether the account is this user's in this currency.
pub fn is_users(account: &Account, user: &Token, currency: Currency) -> bool
    ensures { result ≡ archived.is_users user.now currency account.now }
{
    match account {
        Account::User(token, c) => *token == *user && c.number() == currency.number(),
        Account::Gateway(_) | Account::Programme(_) | Account::Network(_) => false,
    }
}

/// Whether the row has the user's account in this currency on a side.
pub fn is_of_user(row: &PostRow, user: &Token, currency: Currency) -> bool
    ensures { result ≡ archived.is_of_user user.now currency row.now }
{
    is_users(&row.from, user, currency) || is_users(&row.to, user, currency)
}

fn is_user(account: &Account) -> bool
    ensures { result ≡ spec.is_user account.now }
{
    match account {
        Account::User(_, _) => true,
        Account::Gateway(_) | Account::Programme(_) | Account::Network(_) => false,
    }
}

/// What the row adds to what the user has.
pub fn signed_amount(row: &PostRow, user: &Token, currency: Currency) -> i128
    ensures value { result ≡ spec.signed_amount user.now currency row.now }
    ensures low { IsTrue (int_le (neg_ℤ (pos (2 ^ 64))) result) }
    ensures high { IsTrue (int_le result (pos (2 ^ 64))) }
{
    let amount = row.amount;
    let into = if is_users(&row.to, user, currency) {
        i128::from(amount)
    } else {
        0
    };
    let out = if is_users(&row.from, user, currency) {
        -i128::from(amount)
    } else {
        0
    };
    into + out
}

fn is_small(sum: i128) -> bool
    ensures { result ≡ spec.is_small sum }
{
    -LIMIT < sum && sum < LIMIT
}

/// What the user has after a row that adds this.
pub fn added(sum: i128, by: i128) -> i128
    requires low { neg_ℤ (pos (2 ^ 62)) <ℤ sum }
    requires high { sum <ℤ pos (2 ^ 62) }
    requires by_low { IsTrue (int_le (neg_ℤ (pos (2 ^ 64))) by) }
    requires by_high { IsTrue (int_le by (pos (2 ^ 64))) }
    ensures { result ≡ sum +ℤ by }
{
    sum + by
}

/// The least number that a row after this one may have.
fn above(seq: u64) -> u128
    ensures { result ≡ seq + 1 }
{
    u128::from(seq) + 1
}

/// Whether a row can stand next in a statement, if `after` is what the user has after it.
fn is_next_statable(row: &PostRow, least: u128, at: u64, after: i128) -> bool
    ensures value { result ≡ spec.is_next_statable least at row.now after }
    ensures low { IsTrue result → neg_ℤ (pos (2 ^ 62)) <ℤ after }
    ensures high { IsTrue result → after <ℤ pos (2 ^ 62) }
{
    if u128::from(row.seq) < least {
        return false;
    }
    if row.at < at {
        return false;
    }
    if is_between_users(row) {
        return false;
    }
    is_small(after)
}

/// Whether the row moves money between two users.
fn is_between_users(row: &PostRow) -> bool
    ensures { result ≡ (spec.is_user row.now.from && spec.is_user row.now.to) }
{
    is_user(&row.from) && is_user(&row.to)
}

/// Whether the rows can be put into a statement of this user and currency.
pub fn is_statable(rows: &[PostRow], user: &Token, currency: Currency) -> bool
    ensures { result ≡ spec.is_statable user.now currency rows.now }
{
    let mut least: u128 = 0;
    let mut at = 0;
    let mut sum = 0;
    'rows: for row in rows {
        let after = added(sum, signed_amount(row, user, currency));
        if !is_next_statable(row, least, at, after) {
            return false;
        }
        sum = after;
        least = above(row.seq);
        at = row.at;
    }
    true
}
