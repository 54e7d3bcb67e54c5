//! Listed balances, each compared with what its account is owed and taken out there.
ghost use Rattle.std.specs.Prelude.{◌≡◌, true, IfOk};
ghost use Rattle.std.specs.List.{list_all};
ghost use Rattle.std.specs.Ordering.{int_eq};
ghost use Rattle.iss_model.specs.Sums.{account_key};
ghost use Rattle.iss_model.specs.state.Kept.{kept_at};
ghost use Rattle.iss_balanced.specs.Owed.{are_in_key_order};
ghost use Rattle.iss_sound_balances.specs.Listed.{SaysListed, SaysNothing, is_nothing};

use iss_ledger::Ledger;
use iss_model::Saldo;
use std::alloc::{AllocError, Global};

/// Takes what accounts have out of what they are owed. Whether each has what it is owed, and
/// nothing is left. Balances are in the order of their accounts.
pub(crate) fn take_out(
    alloc: Global,
    owed: &mut Ledger,
    balances: &[Saldo],
) -> Result<bool, AllocError>
    requires { are_in_key_order balances.now ≡ true }
    ensures { IfOk result (λ answer. SaysListed balances.now owed.old answer) }
{
    for balance in balances.iter() {
        if !is_owed(owed, balance) {
            return Ok(false);
        }
        owed.put(&balance.account, 0)?;
    }
    owes_nothing(alloc, owed)
}

/// Whether an account has what it is owed.
fn is_owed(owed: &Ledger, balance: &Saldo) -> bool
    ensures { result ≡ int_eq (kept_at owed.now (account_key balance.now.account)) balance.now.amount }
{
    owed.balance(&balance.account) == balance.amount
}

/// Whether no account is owed anything.
fn owes_nothing(alloc: Global, owed: &Ledger) -> Result<bool, AllocError>
    ensures { IfOk result (λ answer. SaysNothing owed.now answer) }
{
    let left = owed.balances(alloc)?;
    Ok(are_nothing(&left))
}

fn are_nothing(balances: &[Saldo]) -> bool
    ensures { result ≡ list_all is_nothing balances.now }
{
    balances.iter().all(|balance| balance.amount == 0)
}
