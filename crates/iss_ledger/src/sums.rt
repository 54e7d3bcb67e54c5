//! Sums by the key of an account.
ghost use Rattle.std.specs.Prelude.{◌≡◌, ◌<◌, ◌^◌, ◌+ℤ◌, ◌-ℤ◌, pos, Some, OnOk, OnErr, IfOk, IsSome, is_some};
ghost use Rattle.std.specs.BTreeMap as tree;
ghost use Rattle.std.specs.Ordering.{nat_cmp};
ghost use Rattle.std.specs.Cmp.Lexicographic.{slice_cmp};
ghost use Rattle.std.specs.FinMap as finite;
ghost use Rattle.iss_model.specs.Sums.{account_key};
ghost use Rattle.iss_model.specs.state.Kept.{kept_at, after_change};
ghost use Rattle.iss_ledger.specs.Trees.{kept_in, IsInOrder, taken_back};
ghost use Rattle.iss_model.specs.state.Kept.{IsSmall, AreSmall};
ghost use Rattle.iss_ledger.specs.Posts.{after_post, moved_amount};

use crate::key::AccountKey;
use iss_model::Account;
use std::alloc::AllocError;
use std::collections::BTreeMap;

/// The sum at a key, 0 if there is none.
#[tactic(auto, using(crate::proofs::TreeSums::get_in))]
pub(crate) fn sum_at(sums: &BTreeMap<AccountKey, i64>, key: &AccountKey) -> i64
    requires { IsInOrder sums.now }
    ensures { result ≡ kept_at (kept_in sums.now) key.now }
{
    sums.get(key).copied().unwrap_or(0)
}

/// Moves an amount from one account to another. If an allocation fails, the sums stay as they were.
pub(crate) fn post(
    sums: &mut BTreeMap<AccountKey, i64>,
    from: &Account,
    to: &Account,
    amount: u64,
) -> Result<(), AllocError>
    requires order { IsInOrder sums.old }
    requires before { AreSmall (kept_in sums.old) }
    requires small { AreSmall (after_post (kept_in sums.old) from.now to.now amount) }
    ensures posted { OnOk result (kept_in sums.new ≡ after_post (kept_in sums.old) from.now to.now amount) }
    ensures unchanged { OnErr result (kept_in sums.new ≡ kept_in sums.old) }
    ensures order { IsInOrder sums.new }
{
    let amount = moved(from, to, amount);
    let stood = change(sums, AccountKey::new(to), amount)?;
    match change(sums, AccountKey::new(from), -amount) {
        Ok(_) => Ok(()),
        Err(refused) => {
            take_back(sums, &AccountKey::new(to), amount, stood);
            Err(refused)
        }
    }
}

/// Sets the sum of an account. If an allocation fails, the sums stay as they were.
#[tactic(auto, using(crate::proofs::TreeSums::sums_put, crate::proofs::TreeSums::same_sums))]
pub(crate) fn put(
    sums: &mut BTreeMap<AccountKey, i64>,
    account: &Account,
    balance: i64,
) -> Result<(), AllocError>
    requires order { IsInOrder sums.old }
    requires before { AreSmall (kept_in sums.old) }
    requires small { IsSmall balance }
    ensures put { OnOk result (kept_in sums.new ≡ finite.insert (kept_in sums.old) (account_key account.now) balance) }
    ensures unchanged { OnErr result (kept_in sums.new ≡ kept_in sums.old) }
    ensures order { IsInOrder sums.new }
    ensures small { AreSmall (kept_in sums.new) }
{
    sums.insert(AccountKey::new(account), balance)?;
    Ok(())
}

/// What a post moves: nothing if both accounts are one.
fn moved(from: &Account, to: &Account, amount: u64) -> i64
    requires { moved_amount from.now to.now amount < 2 ^ 63 }
    ensures { result ≡ pos (moved_amount from.now to.now amount) }
{
    if AccountKey::new(from) == AccountKey::new(to) {
        0
    } else {
        amount as i64
    }
}

/// Adds to the sum at a key, and tells whether there was one. If an allocation fails, the sums stay as they were.
#[tactic(auto, using(crate::proofs::TreeSums::sums_put))]
fn change(
    sums: &mut BTreeMap<AccountKey, i64>,
    key: AccountKey,
    by: i64,
) -> Result<bool, AllocError>
    requires order { IsInOrder sums.old }
    requires small { IsSmall (kept_at (kept_in sums.old) key +ℤ by) }
    ensures changed { OnOk result (kept_in sums.new ≡ after_change (kept_in sums.old) (record { key = key; by = by })) }
    ensures stood { IfOk result (λ stood. stood ≡ is_some (finite.get (kept_in sums.old) key)) }
    ensures unchanged { OnErr result (tree.IsUnchanged sums.old sums.new) }
    ensures stands { OnOk result (IsSome (tree.get (slice_cmp nat_cmp) sums.new key)) }
    ensures order { IsInOrder sums.new }
{
    if let Some(sum) = sums.get_mut(&key) {
        *sum += by;
        return Ok(true);
    }
    sums.insert(key, by)?;
    Ok(false)
}

/// Takes what was added to the sum at a key away again, and the key too if it didn't stand before.
#[cold]
#[inline(never)]
#[tactic(auto, using(crate::proofs::TreeSums::sums_put, crate::proofs::TreeSums::sums_taken))]
fn take_back(sums: &mut BTreeMap<AccountKey, i64>, key: &AccountKey, by: i64, stood: bool)
    requires order { IsInOrder sums.old }
    requires stands { IsSome (tree.get (slice_cmp nat_cmp) sums.old key.now) }
    requires small { IsSmall (kept_at (kept_in sums.old) key.now -ℤ by) }
    ensures sums { kept_in sums.new ≡ taken_back (kept_in sums.old) key.now by stood }
    ensures order { IsInOrder sums.new }
{
    if !stood {
        sums.remove(key);
        return;
    }
    if let Some(sum) = sums.get_mut(key) {
        *sum -= by;
    }
}
