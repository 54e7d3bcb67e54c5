//! The balances of all accounts.
ghost use Rattle.std.specs.Prelude.{◌≡◌, true, map, IfOk, OnOk, OnErr};
ghost use Rattle.std.specs.List.{list_all};
ghost use Rattle.std.specs.FinMap as finite;
ghost use Rattle.iss_model.specs.Sums.{account_key};
ghost use Rattle.iss_model.specs.state.Kept.{nothing_kept, kept_at};
ghost use Rattle.iss_model.specs.state.Kept.{IsSmall, AreSmall};
ghost use Rattle.iss_ledger.specs.Posts.{after_post};
ghost use Rattle.iss_ledger.specs.Saldos.{saldo_entry, is_named};

use crate::key::AccountKey;
use crate::sums::{post, put, sum_at};
use iss_model::{Account, Saldo};
use std::alloc::{AllocError, Global};
use std::collections::BTreeMap;
use std::marker::Model;

/// What each account has that a post was made from or to. Contracts see the balances by the account's key.
#[derive(Drop)]
pub struct Ledger {
    balances: BTreeMap<AccountKey, i64>,
}

impl Model for Ledger {
    ghost use Rattle.iss_model.specs.state.Kept.{Kept, kept_code};
    ghost use Rattle.iss_ledger.specs.Trees.{kept_in, IsInOrder};
    ghost use Rattle.iss_model.specs.state.Kept.{AreSmall};

    ghost Value = { Kept };

    ghost coded = { kept_code };

    ghost view = { λ l. kept_in l.balances };

    ghost invariant = { λ l. IsInOrder l.balances × AreSmall (kept_in l.balances) };
}

impl Ledger {
    /// The ledger without a post.
    pub fn new(alloc: Global) -> Result<Ledger, AllocError>
        ensures { IfOk result (λ l. l ≡ nothing_kept) }
    {
        Ok(Ledger {
            balances: BTreeMap::new(alloc),
        })
    }

    /// Moves an amount of minor units from one account to another. If an allocation fails, all stays as it was.
    pub fn post(&mut self, from: &Account, to: &Account, amount: u64) -> Result<(), AllocError>
        requires { AreSmall (after_post self.old from.now to.now amount) }
        ensures posted { OnOk result (self.new ≡ after_post self.old from.now to.now amount) }
        ensures unchanged { OnErr result (self.new ≡ self.old) }
    {
        post(&mut self.balances, from, to, amount)
    }

    /// Sets the balance of an account, in minor units. An account with a balance of 0 is one too. If an allocation fails,
    /// all stays as it was.
    pub fn put(&mut self, account: &Account, balance: i64) -> Result<(), AllocError>
        requires { IsSmall balance }
        ensures put { OnOk result (self.new ≡ finite.insert self.old (account_key account.now) balance) }
        ensures unchanged { OnErr result (self.new ≡ self.old) }
    {
        put(&mut self.balances, account, balance)
    }

    /// What an account has, in minor units: 0 if no post was made.
    #[inline(always)]
    pub fn balance(&self, account: &Account) -> i64
        ensures { result ≡ kept_at self.now (account_key account.now) }
    {
        sum_at(&self.balances, &AccountKey::new(account))
    }

    /// The accounts that a post was made from or to. Each gateway's come first, by the number of its currency, then each
    /// network's and each programme's in the same order. Then come those of users, by the bytes of the user's token and
    /// the number of the currency.
    pub fn accounts(&self, alloc: Global) -> Result<Vec<Account>, AllocError>
        ensures { IfOk result (λ v. map account_key v.items ≡ finite.keys self.now) }
    {
        let mut accounts = Vec::new(alloc);
        for key in self.balances.keys() {
            accounts.push(key.account())?;
        }
        Ok(accounts)
    }

    /// The accounts that a post was made from or to, with their balances in minor units, in the order of `accounts`.
    pub fn balances(&self, alloc: Global) -> Result<Vec<Saldo>, AllocError>
        ensures balances { IfOk result (λ v. map saldo_entry v.items ≡ finite.entries self.now) }
        ensures named { IfOk result (λ v. list_all is_named v.items ≡ true) }
    {
        let mut balances = Vec::new(alloc);
        for (key, amount) in self.balances.iter() {
            balances.push(key.with_balance(*amount))?;
        }
        Ok(balances)
    }
}
