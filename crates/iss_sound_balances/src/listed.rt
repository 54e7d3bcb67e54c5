//! How balances are listed: in order, of known users, and few of users.
ghost use Rattle.std.specs.Prelude.{◌≡◌, ◌≤◌, ◌&&◌, if◌then◌else◌};
ghost use Rattle.iss_balanced.specs.Owed.{are_in_key_order};
ghost use Rattle.iss_bounded.specs.Many.{is_of_user, user_accounts};
ghost use Rattle.iss_sound_balances.specs.Listed.{are_few_accounts, are_listed_well, are_named_among, is_named_among, rise_after};

use crate::order::is_before;
use iss_known::Known;
use iss_model::{Account, Saldo};

/// Whether balances are in the order of their accounts, of known users, and few of users. `others`
/// are the asked calls and the live transactions.
pub(crate) fn are_listed_well(balances: &[Saldo], known: &Known, records: u32, others: u64) -> bool
    ensures { result ≡ are_listed_well known.now.users records others balances.now }
{
    are_in_order(balances)
        && are_known(balances, known)
        && are_few_accounts(balances, records, others)
}

/// Whether accounts are in the order of their keys, each once.
#[tactic(auto, using(crate::proofs::RisingKeys::rising_is))]
fn are_in_order(balances: &[Saldo]) -> bool
    ensures { result ≡ are_in_key_order balances.now }
{
    match balances.split_first() {
        None => true,
        Some((first, rest)) => are_after(first.account, rest),
    }
}

/// Whether these accounts are in the order of their keys after the first one.
fn are_after(first: Account, rest: &[Saldo]) -> bool
    ensures { result ≡ rise_after first rest.now }
{
    let mut before = first;
    for balance in rest.iter() {
        if !is_before(&before, &balance.account) {
            return false;
        }
        before = balance.account;
    }
    true
}

/// Whether the users of all accounts are known.
fn are_known(balances: &[Saldo], known: &Known) -> bool
    ensures { result ≡ are_named_among known.now.users balances.now }
{
    balances
        .iter()
        .all(|balance| is_known(&balance.account, known))
}

fn is_known(account: &Account, known: &Known) -> bool
    ensures { result ≡ is_named_among known.now.users account.now }
{
    match account {
        Account::User(user, _) => {
            let _text = user.text();
            known.has_user(user)
        }
        Account::Gateway(_) | Account::Programme(_) | Account::Network(_) => true,
    }
}

/// Whether users' accounts, with others of that number, are at most three for each record.
#[tactic(auto, using(crate::proofs::FewAccounts::few_are))]
fn are_few_accounts(balances: &[Saldo], records: u32, others: u64) -> bool
    ensures { result ≡ are_few_accounts records others balances.now }
{
    let most = 3 * u64::from(records);
    others <= most && user_accounts(balances) as u64 <= most - others
}

/// How many of these balances are of users.
fn user_accounts(balances: &[Saldo]) -> usize
    ensures { result ≡ user_accounts balances.now }
{
    let mut users = 0;
    for balance in balances.iter() {
        users += users_of(&balance.account);
    }
    users
}

/// One user for a user's account, and none for another one.
fn users_of(account: &Account) -> usize
    ensures value { result ≡ (if is_of_user account.now then 1 else 0) }
    ensures few { result ≤ 1 }
{
    match account {
        Account::User(_, _) => 1,
        Account::Gateway(_) | Account::Programme(_) | Account::Network(_) => 0,
    }
}
