//! A chain that is made again.
ghost use Rattle.std.specs.Prelude.{◌≡◌, IfOk, fold};
ghost use Rattle.iss_states.specs.Rebuilding.{rebuilt};
ghost use Rattle.iss_sound.specs.Sound.{IsSoundButSettings};
ghost use Rattle.iss_chain.specs.Values.{chain_part, no_chain};
ghost use Rattle.iss_restored.specs.Again.{AreRestorable, AreSmallSaldos, restored_from, with_saldo};

use iss_chain::Chain;
use iss_known::TxnKnown;
use iss_model::{Carried, Saldo, State};
use std::alloc::{AllocError, Global};

/// The balances, holdings and sums by transaction of the core that is made again from a state, in minor units. `txns`
/// are the transactions that the state's events begin.
pub fn chain_again(alloc: Global, state: &State, txns: &[TxnKnown]) -> Result<Chain, AllocError>
    requires sound { IsSoundButSettings state.now }
    requires begun { txns.now ≡ (rebuilt state.now).holdings.txns }
    ensures { IfOk result (λ chain. chain ≡ chain_part (rebuilt state.entry.now)) }
{
    let chain = Chain::with_room(alloc, txns.len())?;
    let taken = with_txns(chain, txns, &state.txns.0)?;
    with_balances(taken, &state.balances.0)
}

/// Takes transactions up again, each with its sums, which stand in the same order.
fn with_txns(mut chain: Chain, txns: &[TxnKnown], carried: &[Carried]) -> Result<Chain, AllocError>
    requires { AreRestorable chain txns.now carried.now }
    ensures { IfOk result (λ made. made ≡ restored_from chain txns.now carried.now) }
{
    for (known, its) in txns.iter().zip(carried) {
        chain = chain.restore(&known.txn, &its.sums)?;
    }
    Ok(chain)
}

/// Sets the balance of each listed account.
fn with_balances(mut chain: Chain, balances: &[Saldo]) -> Result<Chain, AllocError>
    requires { AreSmallSaldos balances.now }
    ensures { IfOk result (λ made. made ≡ fold with_saldo chain balances.now) }
{
    for saldo in balances {
        chain.set_balance(&saldo.account, saldo.amount)?;
    }
    Ok(chain)
}
