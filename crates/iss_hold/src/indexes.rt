//! The sums by user and currency, beside the holds.
ghost use Rattle.std.specs.Prelude.{◌≡◌, ◌≤◌, ◌<◌, ◌+◌, ◌-◌, ◌^◌, ℕ, List, [], ◌∷◌, ◌++◌, Some, None, IsSome, IfOk, OnOk, OnErr};
ghost use Rattle.std.specs.BTreeMap as tree;
ghost use Rattle.iss_model.specs.Currencies.{iso_number};
ghost use Rattle.iss_hold.specs.Indexes.{by_user};
ghost use Rattle.iss_hold.specs.Sums.{sum_in};

use iss_model::{Currency, Token};
use std::alloc::AllocError;
use std::collections::BTreeMap;

/// A user and the number of a currency.
pub(crate) fn user_key(user: &Token, currency: Currency) -> (Token, u16)
    ensures { result ≡ (user.now, iso_number currency) }
{
    (*user, currency.number())
}

/// What is held of a user in a currency.
pub(crate) fn sum_of(sums: &BTreeMap<(Token, u16), u64>, key: &(Token, u16)) -> u64
    ensures { result ≡ sum_in sums.now key.now.0 key.now.1 }
{
    sums.get(key).copied().unwrap_or(0)
}

/// Changes the sum of a user that stands by what one part of it had and then has.
pub(crate) fn change_sum(
    sums: &mut BTreeMap<(Token, u16), u64>,
    key: &(Token, u16),
    before: u64,
    after: u64,
)
    requires stands { IsSome (tree.get by_user sums.old key.now) }
    requires part { before ≤ sum_in sums.old key.now.0 key.now.1 }
    requires fits { sum_in sums.old key.now.0 key.now.1 - before + after < 2 ^ 64 }
    ensures { tree.Updates by_user sums.old sums.new key.now (Some (sum_in sums.old key.now.0 key.now.1 - before + after)) }
{
    if let Some(sum) = sums.get_mut(key) {
        *sum = *sum - before + after;
    }
}

/// Makes room for the sum of a user, which begins with 0.
pub(crate) fn begin_sum(
    sums: &mut BTreeMap<(Token, u16), u64>,
    key: (Token, u16),
) -> Result<(), AllocError>
    ensures same { (u : List ℕ) → (n : ℕ) → sum_in sums.new u n ≡ sum_in sums.old u n }
    ensures stay { (u : List ℕ) → (n : ℕ) → IsSome (tree.get by_user sums.old (u, n)) → IsSome (tree.get by_user sums.new (u, n)) }
    ensures stands { OnOk result (IsSome (tree.get by_user sums.new key)) }
{
    if !sums.contains_key(&key) {
        sums.insert(key, 0)?;
    }
    Ok(())
}

/// The place of one thing more after `count` of them.
pub(crate) fn place_after(count: usize) -> Result<u32, AllocError>
    ensures { IfOk result (λ place. place ≡ count) }
{
    u32::try_from(count).map_err(|_| AllocError)
}
