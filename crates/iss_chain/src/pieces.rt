//! The pieces that entries are made of, each added after those that stand already. An entry that would move nothing is left out.
//!
//! An amount is a whole number of minor units, a stamp a number of milliseconds since 1970. If an allocation fails, a part of
//! a piece may be there.
ghost use Rattle.std.specs.Prelude.{◌≡◌, ◌-◌, ◌≤◌, ◌<◌, ◌^◌, ◌++◌, OnOk, pos};
ghost use Rattle.iss_model.specs.declared.entry.Entry.TheVariants as entry;
ghost use Rattle.iss_model.specs.rules.Asks.{usage_of};
ghost use Rattle.iss_model.specs.rules.Pieces.{post_entries, hold_entries, unhold_entries, use_return_entries, user_account, release_entries};
ghost use Rattle.iss_hold.specs.Holdings.{txn_of_hold, parts_of_hold, whole_of};
ghost use Rattle.iss_chain.specs.Calls.{cleared_hold_entries, excess_entries, more_use_entries, paid_back_entries, fund_money_entries, reversal_money_entries, end_money_entries, clearing_end_entries, refund_money_entries};

use iss_hold::Hold;
use iss_model::{Account, Entry, Funding, Part, Txn, UsageRow};
use std::alloc::AllocError;

/// The account of a transaction's user.
fn user_account(txn: &Txn) -> Account
    ensures { result ≡ user_account txn.now }
{
    Account::User(txn.user, txn.currency)
}

/// An amount goes from one account to another for a transaction.
pub fn post(
    out: &mut Vec<Entry>,
    txn: &Txn,
    from: Account,
    to: Account,
    amount: u64,
) -> Result<(), AllocError>
    ensures { OnOk result (out.new.items ≡ out.old.items ++ post_entries txn.now from to amount) }
{
    if amount == 0 {
        return Ok(());
    }
    out.push(Entry::Post {
        from,
        to,
        amount,
        txn: Some(txn.token),
    })?;
    Ok(())
}

/// A transaction holds more of its user.
pub fn hold(out: &mut Vec<Entry>, txn: &Txn, part: Part, amount: u64) -> Result<(), AllocError>
    requires { amount < 2 ^ 63 }
    ensures { OnOk result (out.new.items ≡ out.old.items ++ hold_entries txn.now part amount) }
{
    if amount == 0 {
        return Ok(());
    }
    out.push(Entry::Hold {
        txn: txn.token,
        user: txn.user,
        currency: txn.currency,
        part,
        amount: amount as i64,
    })?;
    Ok(())
}

/// A transaction holds less of its user.
fn unhold(out: &mut Vec<Entry>, txn: &Txn, part: Part, amount: u64) -> Result<(), AllocError>
    requires { amount < 2 ^ 63 }
    ensures { OnOk result (out.new.items ≡ out.old.items ++ unhold_entries txn.now part amount) }
{
    if amount == 0 {
        return Ok(());
    }
    out.push(Entry::Hold {
        txn: txn.token,
        user: txn.user,
        currency: txn.currency,
        part,
        amount: -(amount as i64),
    })?;
    Ok(())
}

/// An amount of use of a transaction. It isn't a further ask.
fn usage(txn: &Txn, amount: i64, at: u64) -> Entry
    ensures { result ≡ entry.Usage (usage_of txn.now amount (pos 0) at) }
{
    Entry::Usage(UsageRow {
        txn: txn.token,
        origin: txn.origin,
        user: txn.user,
        product: txn.product,
        currency: txn.currency,
        mcc: txn.mcc,
        mid: txn.mid,
        amount,
        count: 0,
        at,
    })
}

/// A transaction uses less by this amount, at its authorisation's stamp.
fn return_use(out: &mut Vec<Entry>, txn: &Txn, amount: u64) -> Result<(), AllocError>
    requires { amount < 2 ^ 63 }
    ensures { OnOk result (out.new.items ≡ out.old.items ++ use_return_entries txn.now amount) }
{
    if amount == 0 {
        return Ok(());
    }
    out.push(usage(txn, -(amount as i64), txn.at))?;
    Ok(())
}

/// A transaction uses more by this amount.
fn more_use(out: &mut Vec<Entry>, txn: &Txn, amount: u64, at: u64) -> Result<(), AllocError>
    requires { amount < 2 ^ 63 }
    ensures { OnOk result (out.new.items ≡ out.old.items ++ more_use_entries txn.now amount at) }
{
    if amount == 0 {
        return Ok(());
    }
    out.push(usage(txn, amount as i64, at))?;
    Ok(())
}

/// A part of a transaction's money comes and is held.
pub fn fund(out: &mut Vec<Entry>, txn: &Txn, part: Part, amount: u64) -> Result<(), AllocError>
    requires { amount < 2 ^ 63 }
    ensures { OnOk result (out.new.items ≡ out.old.items ++ fund_money_entries txn.now part amount) }
{
    match part {
        Part::G => post(
            out,
            txn,
            Account::Gateway(txn.currency),
            user_account(txn),
            amount,
        )?,
        Part::P => post(
            out,
            txn,
            Account::Programme(txn.currency),
            user_account(txn),
            amount,
        )?,
        Part::S => {}
    }
    hold(out, txn, part, amount)
}

/// An amount is let go of what a transaction holds: the programme's part first, then the gateway's, then the user's
/// own.
pub fn release(out: &mut Vec<Entry>, hold: &Hold, amount: u64) -> Result<(), AllocError>
    requires { amount < 2 ^ 63 }
    ensures { OnOk result (out.new.items ≡ out.old.items ++ release_entries hold.now.txn (parts_of_hold hold.now) amount) }
{
    let txn = &hold.txn;
    let taken = hold.taken_to_release(amount);
    unhold(out, txn, Part::P, taken.p)?;
    post(
        out,
        txn,
        user_account(txn),
        Account::Programme(txn.currency),
        taken.p,
    )?;
    unhold(out, txn, Part::G, taken.g)?;
    post(
        out,
        txn,
        user_account(txn),
        Account::Gateway(txn.currency),
        taken.g,
    )?;
    unhold(out, txn, Part::S, taken.s)?;
    return_use(out, txn, amount)
}

/// Up to an amount is let go, and a transaction that then holds nothing ends.
pub fn reverse(out: &mut Vec<Entry>, hold: &Hold, amount: u64) -> Result<(), AllocError>
    requires { whole_of hold.now < 2 ^ 62 }
    ensures { OnOk result (out.new.items ≡ out.old.items ++ reversal_money_entries hold.now.txn (parts_of_hold hold.now) amount) }
{
    let whole = hold.whole();
    let freed = amount.min(whole);
    release(out, hold, freed)?;
    if freed == whole {
        out.push(Entry::Ended(hold.txn.token))?;
    }
    Ok(())
}

/// A transaction ends, and all that it still holds is let go.
pub fn end(out: &mut Vec<Entry>, hold: &Hold) -> Result<(), AllocError>
    requires { whole_of hold.now < 2 ^ 62 }
    ensures { OnOk result (out.new.items ≡ out.old.items ++ end_money_entries hold.now.txn (parts_of_hold hold.now)) }
{
    release(out, hold, hold.whole())?;
    out.push(Entry::Ended(hold.txn.token))?;
    Ok(())
}

/// A clearing takes from the hold and pays the network; for a gateway product the programme pays what the hold doesn't.
pub fn clear(out: &mut Vec<Entry>, hold: &Hold, amount: u64, at: u64) -> Result<(), AllocError>
    requires small { whole_of hold.now < 2 ^ 62 }
    requires amount { amount < 2 ^ 63 }
    ensures { OnOk result (out.new.items ≡ out.old.items ++ cleared_hold_entries hold.now.txn (parts_of_hold hold.now) amount at) }
{
    let txn = &hold.txn;
    let taken = hold.taken_to_clear(amount);
    unhold(out, txn, Part::G, taken.g)?;
    unhold(out, txn, Part::P, taken.p)?;
    unhold(out, txn, Part::S, taken.s)?;
    pay_excess(out, txn, taken.rest)?;
    post(
        out,
        txn,
        user_account(txn),
        Account::Network(txn.currency),
        amount,
    )?;
    more_use(out, txn, taken.rest, at)
}

/// A clearing ends a live transaction if it is the last one, or nothing is held after it.
pub fn end_clearing(
    out: &mut Vec<Entry>,
    hold: &Hold,
    amount: u64,
    last: bool,
) -> Result<(), AllocError>
    requires { whole_of hold.now < 2 ^ 62 }
    ensures { OnOk result (out.new.items ≡ out.old.items ++ clearing_end_entries (txn_of_hold hold.now) (parts_of_hold hold.now) amount last) }
{
    let rest = hold.without(&hold.taken_to_clear(amount));
    if hold.live && (last || rest.whole() == 0) {
        end(out, &rest)?;
    }
    Ok(())
}

/// The programme pays what a clearing's hold doesn't, for a gateway product.
fn pay_excess(out: &mut Vec<Entry>, txn: &Txn, excess: u64) -> Result<(), AllocError>
    ensures { OnOk result (out.new.items ≡ out.old.items ++ excess_entries txn.now excess) }
{
    match txn.funding {
        Funding::Account => Ok(()),
        Funding::Gateway => post(
            out,
            txn,
            Account::Programme(txn.currency),
            user_account(txn),
            excess,
        ),
    }
}

/// A refund comes back from the network; for a gateway product the programme first receives what it is owed.
pub fn refund(out: &mut Vec<Entry>, txn: &Txn, owed: u64, amount: u64) -> Result<(), AllocError>
    ensures { OnOk result (out.new.items ≡ out.old.items ++ refund_money_entries txn.now owed amount) }
{
    post(
        out,
        txn,
        Account::Network(txn.currency),
        user_account(txn),
        amount,
    )?;
    match txn.funding {
        Funding::Account => Ok(()),
        Funding::Gateway => pay_back(out, txn, amount.min(owed), amount),
    }
}

/// A refund is paid back: `programme` of it to the programme, the rest to the gateway.
fn pay_back(out: &mut Vec<Entry>, txn: &Txn, programme: u64, amount: u64) -> Result<(), AllocError>
    requires { programme ≤ amount }
    ensures { OnOk result (out.new.items ≡ out.old.items ++ paid_back_entries txn.now programme amount) }
{
    post(
        out,
        txn,
        user_account(txn),
        Account::Programme(txn.currency),
        programme,
    )?;
    post(
        out,
        txn,
        user_account(txn),
        Account::Gateway(txn.currency),
        amount - programme,
    )
}
