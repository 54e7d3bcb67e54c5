//! The order of accounts: by kind, then by the user's token, then by the number of the currency.
ghost use Rattle.std.specs.Prelude.{◌≡◌, Some, refl, true};
ghost use Rattle.std.specs.Ordering.{nat_cmp, as_partial_cmp, ordering_then};
ghost use Rattle.std.specs.Cmp.Lexicographic.{slice_cmp, nat_list_cmp_total, nat_list_eq_equiv, texts_po, texts_ties};
ghost use Rattle.std.specs.Cmp.{partial_equiv_from_equiv};
ghost use Rattle.std.specs.Str.{bytes_eq};
ghost use Rattle.std.specs.List.{list_all};
ghost use Rattle.iss_model.specs.Sums.{account_key};
ghost use Rattle.iss_ledger.specs.Keys.{kind_of, user_of, number_of, is_above_zero};
ghost use Rattle.iss_ledger.specs.Saldos.{saldo_entry, is_named};

use iss_model::{Account, Saldo};
use std::cmp::Ordering;
use std::marker::Model;

/// An account in its place among all accounts. Contracts see its key.
#[derive(Drop)]
pub(crate) struct AccountKey {
    account: Account,
}

impl Model for AccountKey {
    ghost use Rattle.std.specs.Prelude.{List, ℕ};
    ghost use Rattle.iss_model.specs.Sums.{account_key};

    ghost Value = { List ℕ };

    ghost view = { λ k. account_key k.account };
}

impl AccountKey {
    pub(crate) fn new(account: &Account) -> AccountKey
        ensures { result ≡ account_key account.now }
    {
        AccountKey { account: *account }
    }

    pub(crate) fn account(&self) -> Account
        ensures { account_key result ≡ self.now }
    {
        self.account
    }

    /// The account with its balance.
    pub(crate) fn with_balance(&self, amount: i64) -> Saldo
        ensures entry { saldo_entry result ≡ (self.now, amount) }
        ensures named { is_named result ≡ true }
    {
        let _user = user(&self.account);
        Saldo {
            account: self.account,
            amount,
        }
    }
}

impl PartialEq for AccountKey {
    ghost eq = { bytes_eq };

    ghost laws = { partial_equiv_from_equiv nat_list_eq_equiv };

    fn eq(&self, other: &AccountKey) -> bool {
        self.cmp(other).is_eq()
    }
}

impl Eq for AccountKey {
    ghost laws = { nat_list_eq_equiv };
}

impl PartialOrd for AccountKey {
    ghost partial_cmp = { as_partial_cmp (slice_cmp nat_cmp) };

    ghost laws = { texts_po };

    fn partial_cmp(&self, other: &AccountKey) -> Option<Ordering> {
        Some(self.cmp(other))
    }
}

impl Ord for AccountKey {
    ghost cmp = { slice_cmp nat_cmp };

    ghost total = { nat_list_cmp_total };

    ghost matches_partial_cmp = { λ x y. refl };

    ghost matches_eq = { texts_ties };

    fn cmp(&self, other: &AccountKey) -> Ordering {
        by_key(&self.account, &other.account)
    }
}

#[tactic(auto, using(crate::proofs::KeyOrder::by_parts))]
fn by_key(a: &Account, b: &Account) -> Ordering
    ensures { result ≡ slice_cmp nat_cmp (account_key a.now) (account_key b.now) }
{
    match kind(a).cmp(&kind(b)) {
        Ordering::Equal => by_owner(a, b),
        by_kind => by_kind,
    }
}

/// The order of two accounts of one kind.
fn by_owner(a: &Account, b: &Account) -> Ordering
    ensures order { result ≡ ordering_then (slice_cmp nat_cmp (user_of a.now) (user_of b.now)) (nat_cmp (number_of a.now) (number_of b.now)) }
    ensures first_plain { list_all is_above_zero (user_of a.now) ≡ true }
    ensures second_plain { list_all is_above_zero (user_of b.now) ≡ true }
{
    let _first = user(a);
    let _second = user(b);
    by_user(a, b).then(currency(a).cmp(&currency(b)))
}

/// The order of the users of two accounts. Two tokens are compared by words.
fn by_user(a: &Account, b: &Account) -> Ordering
    ensures { result ≡ slice_cmp nat_cmp (user_of a.now) (user_of b.now) }
{
    match (a, b) {
        (Account::User(first, _), Account::User(second, _)) => first.cmp(second),
        _ => user(a).cmp(user(b)),
    }
}

fn kind(account: &Account) -> u8
    ensures { result ≡ kind_of account.now }
{
    match account {
        Account::Gateway(_) => 1,
        Account::Network(_) => 2,
        Account::Programme(_) => 3,
        Account::User(_, _) => 4,
    }
}

#[tactic(auto, using(crate::proofs::KeyOrder::token_above))]
fn user(account: &Account) -> &[u8]
    ensures value { result.now ≡ user_of account.now }
    ensures plain { list_all is_above_zero result.now ≡ true }
{
    match account {
        Account::User(token, _) => token.text(),
        Account::Gateway(_) | Account::Network(_) | Account::Programme(_) => &[],
    }
}

fn currency(account: &Account) -> u16
    ensures { result ≡ number_of account.now }
{
    match account {
        Account::User(_, currency)
        | Account::Gateway(currency)
        | Account::Network(currency)
        | Account::Programme(currency) => currency.number(),
    }
}
