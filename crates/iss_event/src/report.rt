//! The lines of a report: what accounts have, and counts.
ghost use Rattle.std.specs.Prelude.{◌≡◌, ◌++◌, IfOk, OnOk, codes, decimal};
ghost use Rattle.iss_model.specs.rules.Facts.{Facts};
ghost use Rattle.iss_model.specs.texts.BalanceLines.{account_line, count_line};
ghost use Rattle.iss_event.specs.ReportLines.{balance_text, counts_text, IsShown, AreCounts, start_piece, holder_piece, account_piece, counts_piece};

use crate::writing::put_between;
use iss_amount::{code, put_decimal, write};
use iss_model::Account;
use itoa::Buffer;
use std::alloc::{AllocError, Global};

/// The line of an account with its balance, in minor units, with its line feed. If it is a user's, the line also tells
/// what is held of it.
pub fn balance_line(
    alloc: Global,
    account: &Account,
    balance: i64,
    held: i64,
) -> Result<Vec<u8>, AllocError>
    ensures text { IfOk result (λ line. line.items ≡ balance_text account.now balance held) }
    ensures of_facts { (f : Facts) → IsShown f account.now balance held
        → IfOk result (λ line. line.items ≡ account_line f account.now) }
{
    let currency = account.currency();
    let balance = write(alloc, balance, currency)?;
    let held = write(alloc, held, currency)?;
    let mut line = Vec::new(alloc);
    put_account(&mut line, account, balance.as_bytes(), held.as_bytes())?;
    Ok(line)
}

/// The line of how many calls are open, how many notices aren't acknowledged, and how many records there are, with its
/// line feed.
pub fn count_line(
    alloc: Global,
    calls: u64,
    notices: u64,
    records: u64,
) -> Result<Vec<u8>, AllocError>
    ensures text { IfOk result (λ line. line.items ≡ counts_text calls notices records) }
    ensures of_facts { (f : Facts) → AreCounts f calls notices records
        → IfOk result (λ line. line.items ≡ count_line f) }
{
    let mut line = Vec::new(alloc);
    put_counts(&mut line, calls, notices, records)?;
    Ok(line)
}

/// Adds the line of an account, with its amounts as texts.
fn put_account(
    out: &mut Vec<u8>,
    account: &Account,
    balance: &[u8],
    held: &[u8],
) -> Result<(), AllocError>
    ensures { OnOk result (out.new.items ≡ out.old.items ++ account_piece account.now balance.now held.now) }
{
    match account {
        Account::Gateway(currency) => put_sheet(out, b"gateway", balance, &code(*currency)),
        Account::Network(currency) => put_sheet(out, b"network", balance, &code(*currency)),
        Account::Programme(currency) => put_sheet(out, b"programme", balance, &code(*currency)),
        Account::User(user, currency) => {
            put_user(out, user.text(), balance, held, &code(*currency))
        }
    }
}

fn put_sheet(out: &mut Vec<u8>, name: &[u8], balance: &[u8], code: &[u8]) -> Result<(), AllocError>
    ensures { OnOk result (out.new.items
        ≡ out.old.items ++ (start_piece name.now balance.now code.now ++ codes "\"}\n")) }
{
    put_start(out, name, balance, code)?;
    put_text(out, b"\"}\n")
}

fn put_user(
    out: &mut Vec<u8>,
    user: &[u8],
    balance: &[u8],
    held: &[u8],
    code: &[u8],
) -> Result<(), AllocError>
    ensures { OnOk result (out.new.items
        ≡ out.old.items ++ (start_piece (codes "user") balance.now code.now ++ holder_piece held.now user.now)) }
{
    put_start(out, b"user", balance, code)?;
    put_holder(out, held, user)
}

fn put_start(out: &mut Vec<u8>, name: &[u8], balance: &[u8], code: &[u8]) -> Result<(), AllocError>
    ensures { OnOk result (out.new.items ≡ out.old.items ++ start_piece name.now balance.now code.now) }
{
    put_between(out, b"{\"account\":\"", name, b"\",\"balance\":\"")?;
    put_between(out, balance, b"\",\"currency\":\"", code)
}

fn put_holder(out: &mut Vec<u8>, held: &[u8], user: &[u8]) -> Result<(), AllocError>
    ensures { OnOk result (out.new.items ≡ out.old.items ++ holder_piece held.now user.now) }
{
    put_between(out, b"\",\"held\":\"", held, b"\",\"user\":\"")?;
    put_ended(out, user, b"\"}\n")
}

fn put_text(out: &mut Vec<u8>, text: &[u8]) -> Result<(), AllocError>
    ensures { OnOk result (out.new.items ≡ out.old.items ++ text.now) }
{
    out.extend_from_slice(text)
}

fn put_counts(out: &mut Vec<u8>, calls: u64, notices: u64, records: u64) -> Result<(), AllocError>
    ensures { OnOk result (out.new.items ≡ out.old.items ++ counts_piece calls notices records) }
{
    put_counted(out, b"{\"calls\":", calls, b",\"notices\":")?;
    put_decimal(out, notices)?;
    put_counted(out, b",\"records\":", records, b"}\n")
}

fn put_counted(
    out: &mut Vec<u8>,
    prefix: &[u8],
    number: u64,
    suffix: &[u8],
) -> Result<(), AllocError>
    ensures { OnOk result (out.new.items
        ≡ out.old.items ++ (prefix.now ++ (decimal number ++ suffix.now))) }
{
    put_between(out, prefix, Buffer::new().format(number).as_bytes(), suffix)
}

fn put_ended(out: &mut Vec<u8>, text: &[u8], end: &[u8]) -> Result<(), AllocError>
    ensures { OnOk result (out.new.items ≡ out.old.items ++ (text.now ++ end.now)) }
{
    out.extend_from_slice(text)?;
    out.extend_from_slice(end)
}
