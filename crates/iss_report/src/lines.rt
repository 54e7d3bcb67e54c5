//! The lines of a report.
ghost use Rattle.std.specs.Prelude.{◌≡◌, [], ◌∷◌, List, map, IfOk, OnOk};
ghost use Rattle.iss_model.specs.declared.input.Record.{Record};
ghost use Rattle.iss_model.specs.rules.Histories.{history_of};
ghost use Rattle.iss_model.specs.state.Cores.{core_facts};
ghost use Rattle.iss_model.specs.texts.BalanceLines.{account_line, count_line, balance_lines};
ghost use Rattle.iss_core.specs.Values.{CoreStandsFor};
ghost use Rattle.iss_texts.specs.TextRows.{Gains, HasAll};
ghost use Rattle.iss_report.specs.Reported.{held_of, AreWhole};

use iss_core::Core;
use iss_event::{balance_line, count_line};
use iss_model::Account;
use iss_texts::Texts;
use std::alloc::{AllocError, Global};

/// The report of what a core stands for, a text a line. Each account that money was moved to or from has a line, in the
/// order of `Core::accounts`. It tells the account's balance, and of a user's also what is held. Then comes how many
/// calls are open, how many notices aren't acknowledged, and how many records there are.
pub fn report(alloc: Global, core: &Core) -> Result<Texts, AllocError>
    ensures on_book { (rs : List Record) → CoreStandsFor core.now rs
        → IfOk result (HasAll (balance_lines (history_of rs))) }
    ensures whole { IfOk result AreWhole }
{
    let accounts = core.accounts(alloc)?;
    let mut texts = Texts::new(alloc);
    put_accounts(alloc, core, &accounts, &mut texts)?;
    put_counts(alloc, core, &mut texts)?;
    Ok(texts)
}

/// Adds the line of each of these accounts.
fn put_accounts(
    alloc: Global,
    core: &Core,
    accounts: &[Account],
    texts: &mut Texts,
) -> Result<(), AllocError>
    ensures { OnOk result (Gains (map (account_line (core_facts core.now.state)) accounts.now) texts.old texts.new) }
{
    for account in accounts {
        put_account(alloc, core, account, texts)?;
    }
    Ok(())
}

/// Adds the line of an account.
fn put_account(
    alloc: Global,
    core: &Core,
    account: &Account,
    texts: &mut Texts,
) -> Result<(), AllocError>
    ensures { OnOk result (Gains (account_line (core_facts core.now.state) account.now ∷ []) texts.old texts.new) }
{
    let line = balance_line(
        alloc,
        account,
        core.balance(account),
        held_of(core, account),
    )?;
    put_line(texts, &line)
}

/// What is held of an account's user in its currency, and 0 of an account that is no user's.
fn held_of(core: &Core, account: &Account) -> i64
    ensures { result ≡ held_of (core_facts core.now.state) account.now }
{
    match account {
        Account::User(user, currency) => core.held(user, *currency),
        Account::Gateway(_) | Account::Network(_) | Account::Programme(_) => 0,
    }
}

/// Adds the line of counts.
fn put_counts(alloc: Global, core: &Core, texts: &mut Texts) -> Result<(), AllocError>
    ensures { OnOk result (Gains (count_line (core_facts core.now.state) ∷ []) texts.old texts.new) }
{
    let calls = core.calls(alloc)?.len() as u64;
    let notices = core.notices(alloc)?.len() as u64;
    let line = count_line(alloc, calls, notices, u64::from(core.count()))?;
    put_line(texts, &line)
}

/// Adds a line that is whole.
#[tactic(auto, using(iss_texts::proofs::Rows::one_more))]
fn put_line(texts: &mut Texts, line: &[u8]) -> Result<(), AllocError>
    ensures { OnOk result (Gains (line.now ∷ []) texts.old texts.new) }
{
    texts.bytes.extend_from_slice(line)?;
    texts.ends.push(texts.bytes.len())?;
    Ok(())
}
