//! The calls of `iss_chain` that the core doesn't make, each once with ample memory.
ghost use Rattle.std.specs.Prelude.{◌<◌, ◌^◌};
ghost use Rattle.iss_hold.specs.Holdings.{whole_of};

use iss_chain::{Chain, pieces};
use iss_hold::Hold;
use iss_model::{Account, Currency, Funding, Part, Token, Txn, TxnSums};
use std::alloc::{AllocError, Global};
use std::test::Fail;

fn hold(token: &Token) -> Hold
    ensures { whole_of result < 2 ^ 62 }
{
    Hold {
        txn: Txn {
            token: *token,
            card: *token,
            user: *token,
            product: *token,
            currency: Currency::Usd,
            funding: Funding::Gateway,
            mcc: 5411,
            mid: *token,
            origin: 0,
            at: 5,
            expires: 1000,
        },
        live: true,
        g: 50,
        p: 20,
        s: 30,
    }
}

/// A load of nothing, each call on a transaction that isn't known, and its beginning.
fn call_each(alloc: Global, txn: &Txn) -> Result<(), AllocError> {
    let token = &txn.token;
    let (chain, _) = Chain::new(alloc)?.load(alloc, &txn.user, txn.currency, 0)?;
    let (chain, _) = chain.fund(alloc, token, Part::S, 20)?;
    let (chain, _) = chain.reverse(alloc, token, 5)?;
    let (chain, _, _) = chain.clear(alloc, token, 15, true, 7)?;
    let (chain, _) = chain.refund(alloc, token, 1)?;
    let (mut chain, _) = chain.end(alloc, token)?;
    chain.enter_all(&[])?;
    chain.begin(alloc, txn)?;
    Ok(())
}

/// How many accounts and transactions are listed if a balance is set and a transaction begins, and whether that
/// transaction has sums.
fn list_each(alloc: Global, txn: &Txn) -> Result<(usize, usize, bool), AllocError> {
    let (mut chain, _) = Chain::new(alloc)?.begin(alloc, txn)?;
    chain.set_balance(&Account::Programme(txn.currency), 0)?;
    let known = chain.sums(&txn.token).is_some_and(|sums| sums.live);
    let accounts = chain.balances(alloc)?.len();
    let txns = chain.carried(alloc)?.len();
    Ok((accounts, txns, known))
}

/// The sums of a transaction that is taken up again with 5 of the gateway's held and 3 cleared.
fn restore_one(alloc: Global, txn: &Txn) -> Result<Option<TxnSums>, AllocError> {
    let sums = TxnSums {
        live: true,
        g: 5,
        p: 0,
        s: 0,
        cleared: 3,
        refunded: 0,
        paid: 0,
    };
    let chain = Chain::new(alloc)?.restore(txn, &sums)?;
    Ok(chain.sums(&txn.token))
}

#[test]
fn calls_with_ample_memory(rt: HostRuntime) -> Result<(), Fail> {
    let hold = hold(&Token::new(b"a1").ok_or("no token")?);
    call_each(rt.alloc(), &hold.txn)?;
    let listed = list_each(rt.alloc(), &hold.txn)?;
    assert_eq!(rt; listed, (1, 1, true));
    let mut entries = Vec::new(rt.alloc());
    pieces::end_clearing(&mut entries, &hold, 60, true)?;
    assert_eq!(rt; entries.len(), 5);
    Ok(())
}

#[test]
fn restores_with_ample_memory(rt: HostRuntime) -> Result<(), Fail> {
    let hold = hold(&Token::new(b"a1").ok_or("no token")?);
    let sums = restore_one(rt.alloc(), &hold.txn)?.ok_or("no sums")?;
    assert!(rt; sums.live);
    assert_eq!(rt; (sums.g, sums.p, sums.s), (5, 0, 0));
    assert_eq!(rt; (sums.cleared, sums.refunded, sums.paid), (3, 0, 0));
    Ok(())
}
