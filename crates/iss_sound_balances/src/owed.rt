//! What each account is owed: what done loads and listed transactions move between accounts.
ghost use Rattle.std.specs.Prelude.{◌≡◌, OnOk, IfOk};
ghost use Rattle.iss_model.specs.rules.CardReasons.{is_account_funded};
ghost use Rattle.iss_model.specs.rules.Pieces.{user_account};
ghost use Rattle.iss_model.specs.state.Kept.{AreSmall};
ghost use Rattle.iss_states.specs.Rebuilding.{is_done};
ghost use Rattle.iss_sound_balances.specs.Moves.{AllStaySmall, OwedStaySmall, StaySmall, after_all, after_move, after_moves, held_moves_by, input_moves, listed_moves, load_moves, move, move_nothing, owed_kept, payer_by, txn_moves};

use iss_known::Known;
use iss_ledger::Ledger;
use iss_model::{Account, Carried, Funding, Input, Seen, State, Txn, TxnSums, Verdict};
use std::alloc::{AllocError, Global};

/// What each account is owed by the loads and the transactions of a state.
pub(crate) fn owed_balances(
    alloc: Global,
    state: &State,
    known: &Known,
) -> Result<Ledger, AllocError>
    requires { OwedStaySmall known.now.txns state.now }
    ensures { IfOk result (λ owed. owed ≡ owed_kept known.now.txns state.entry.now) }
{
    let mut owed = Ledger::new(alloc)?;
    give_loads(&mut owed, &state.events.0)?;
    give_txns(&mut owed, &state.txns.0, known)?;
    Ok(owed)
}

/// Moves an amount from one account to another. If it is 0, no account is looked up.
fn give(owed: &mut Ledger, from: &Account, to: &Account, amount: u64) -> Result<(), AllocError>
    requires { AreSmall (after_move owed.old (move from.now to.now amount)) }
    ensures { OnOk result (owed.new ≡ after_move owed.old (move from.now to.now amount)) }
{
    if amount == 0 {
        return Ok(());
    }
    owed.post(from, to, amount)
}

/// Moves what the loads among these events moved.
fn give_loads(owed: &mut Ledger, events: &[Seen]) -> Result<(), AllocError>
    requires { AllStaySmall load_moves owed.old events.now }
    ensures { OnOk result (owed.new ≡ after_all load_moves owed.old events.now) }
{
    for event in events.iter() {
        give_load(owed, event)?;
    }
    Ok(())
}

/// Moves what an event moved, if it is done.
fn give_load(owed: &mut Ledger, event: &Seen) -> Result<(), AllocError>
    requires { StaySmall owed.old (load_moves event.now) }
    ensures { OnOk result (owed.new ≡ after_moves owed.old (load_moves event.now)) }
{
    if is_done(&event.verdict) {
        return give_input(owed, &event.body.input);
    }
    Ok(())
}

fn is_done(verdict: &Option<Verdict>) -> bool
    ensures { result ≡ is_done verdict.now }
{
    matches!(verdict, Some(Verdict::Done))
}

/// Moves what a done input moves: a load's amount.
fn give_input(owed: &mut Ledger, input: &Input) -> Result<(), AllocError>
    requires { StaySmall owed.old (input_moves input.now) }
    ensures { OnOk result (owed.new ≡ after_moves owed.old (input_moves input.now)) }
{
    match input {
        Input::Load {
            user,
            currency,
            amount,
            ..
        } => give(
            owed,
            &Account::Programme(*currency),
            &Account::User(*user, *currency),
            *amount,
        ),
        _ => Ok(()),
    }
}

/// Moves what these transactions moved, each by what it began as.
fn give_txns(owed: &mut Ledger, txns: &[Carried], known: &Known) -> Result<(), AllocError>
    requires { AllStaySmall (listed_moves known.now.txns) owed.old txns.now }
    ensures { OnOk result (owed.new ≡ after_all (listed_moves known.now.txns) owed.old txns.now) }
{
    for carried in txns.iter() {
        give_listed(owed, carried, known)?;
    }
    Ok(())
}

/// Whether sums of a transaction move nothing, as those of a purchase that is only held of its user's own money.
fn move_nothing(sums: &TxnSums) -> bool
    ensures { result ≡ move_nothing sums.now }
{
    sums.cleared == 0 && sums.refunded == 0 && sums.paid == 0 && sums.g == 0 && sums.p == 0
}

/// Moves what a listed transaction moved, if it is known.
fn give_listed(owed: &mut Ledger, carried: &Carried, known: &Known) -> Result<(), AllocError>
    requires { StaySmall owed.old (listed_moves known.now.txns carried.now) }
    ensures { OnOk result (owed.new ≡ after_moves owed.old (listed_moves known.now.txns carried.now)) }
{
    if move_nothing(&carried.sums) {
        return Ok(());
    }
    match known.txn(&carried.txn) {
        Some(now) => give_txn(owed, &now.txn, &carried.sums),
        None => Ok(()),
    }
}

/// Moves what a transaction moved.
fn give_txn(owed: &mut Ledger, txn: &Txn, sums: &TxnSums) -> Result<(), AllocError>
    requires { StaySmall owed.old (txn_moves txn.now sums.now) }
    ensures { OnOk result (owed.new ≡ after_moves owed.old (txn_moves txn.now sums.now)) }
{
    let payer = payer(txn);
    let network = Account::Network(txn.currency);
    give(owed, &payer, &network, sums.cleared)?;
    give(owed, &network, &payer, sums.refunded)?;
    let programme = Account::Programme(txn.currency);
    give(owed, &programme, &Account::Gateway(txn.currency), sums.paid)?;
    give_held(owed, txn, sums)
}

/// Who pays a transaction: its user's own balance, or else the gateway.
fn payer(txn: &Txn) -> Account
    ensures { result ≡ payer_by (is_account_funded txn.now.funding) txn.now }
{
    match txn.funding {
        Funding::Account => user_account(txn),
        Funding::Gateway => Account::Gateway(txn.currency),
    }
}

fn user_account(txn: &Txn) -> Account
    ensures { result ≡ user_account txn.now }
{
    Account::User(txn.user, txn.currency)
}

/// Moves what a transaction holds of others' money from the gateway to its user.
fn give_held(owed: &mut Ledger, txn: &Txn, sums: &TxnSums) -> Result<(), AllocError>
    requires { StaySmall owed.old (held_moves_by (is_account_funded txn.now.funding) txn.now sums.now) }
    ensures { OnOk result (owed.new ≡ after_moves owed.old (held_moves_by (is_account_funded txn.now.funding) txn.now sums.now)) }
{
    match txn.funding {
        Funding::Account => Ok(()),
        Funding::Gateway => {
            let gateway = Account::Gateway(txn.currency);
            give(owed, &gateway, &user_account(txn), sums.g)?;
            give(owed, &gateway, &user_account(txn), sums.p)
        }
    }
}
