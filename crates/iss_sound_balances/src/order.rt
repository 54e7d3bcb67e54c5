//! The order of accounts: by kind, then by the user's token, then by the number of the currency.
ghost use Rattle.std.specs.Prelude.{◌≡◌, true};
ghost use Rattle.std.specs.Ordering.{is_lt, nat_cmp};
ghost use Rattle.std.specs.Cmp.Lexicographic.{slice_cmp};
ghost use Rattle.std.specs.List.{list_all};
ghost use Rattle.iss_model.specs.Sums.{account_key};
ghost use Rattle.iss_ledger.specs.Keys.{kind_of, user_of, number_of, is_above_zero};
ghost use Rattle.iss_sound_balances.specs.Listed.{owner_order};

use iss_model::Account;
use std::cmp::Ordering;

/// Whether an account comes before another one.
pub(crate) fn is_before(account: &Account, other: &Account) -> bool
    ensures { result ≡ is_lt (slice_cmp nat_cmp (account_key account.now) (account_key other.now)) }
{
    by_key(account, other).is_lt()
}

#[tactic(auto, using(iss_ledger::proofs::KeyOrder::by_parts))]
fn by_key(a: &Account, b: &Account) -> Ordering
    ensures { result ≡ slice_cmp nat_cmp (account_key a.now) (account_key b.now) }
{
    match kind(a).cmp(&kind(b)) {
        Ordering::Equal => by_owner(a, b),
        by_kind => by_kind,
    }
}

/// The order of two accounts of one kind.
fn by_owner(a: &Account, b: &Account) -> Ordering
    ensures order { result ≡ owner_order a.now b.now }
    ensures first_plain { list_all is_above_zero (user_of a.now) ≡ true }
    ensures second_plain { list_all is_above_zero (user_of b.now) ≡ true }
{
    let by_user = user(a).cmp(user(b));
    by_user.then(currency(a).cmp(&currency(b)))
}

fn kind(account: &Account) -> u8
    ensures { result ≡ kind_of account.now }
{
    match account {
        Account::Gateway(_) => 1,
        Account::Network(_) => 2,
        Account::Programme(_) => 3,
        Account::User(_, _) => 4,
    }
}

#[tactic(auto, using(iss_ledger::proofs::KeyOrder::token_above))]
fn user(account: &Account) -> &[u8]
    ensures value { result.now ≡ user_of account.now }
    ensures plain { list_all is_above_zero result.now ≡ true }
{
    match account {
        Account::User(token, _) => token.text(),
        Account::Gateway(_) | Account::Network(_) | Account::Programme(_) => &[],
    }
}

fn currency(account: &Account) -> u16
    ensures { result ≡ number_of account.now }
{
    account.currency().number()
}
