//! A statement as lines.
ghost use Rattle.std.specs.Prelude.{◌≡◌, ◌++◌, codes, decimal, pos, neg_ℤ, ◌+ℤ◌, ◌<ℤ◌, ◌≤ℤ◌, ◌^◌, IsTrue, IfOk, OnOk};
ghost use Rattle.iss_archive.specs.Statable as statable;
ghost use Rattle.iss_archive.specs.Statement as spec;
ghost use Rattle.iss_statement.specs.Openings.{GoesOn, added_to, end_piece, lines_to, own_line, with_members};

use crate::opening::{day_of, opening_of};
use iss_amount::{put_decimal, write};
use iss_archive::{PostRow, added, is_of_user, is_users, signed_amount};
use iss_edge::Bytes;
use iss_model::{Account, Currency, Token};
use std::alloc::{AllocError, Global};

/// The statement of a user's account in a currency over the days from `from` to `to`, a line each, with its line feed.
///
/// Both days are counted from 1970-01-01 in UTC, and both belong to it. The first line is what the user had before the
/// day `from`. A line follows for each of the rows of these days that the user's account is on a side of, in their order. Its
/// amount is negative if the user paid it. The last line is what the user had then.
pub fn statement_lines(
    alloc: Global,
    rows: &[PostRow],
    user: &Token,
    currency: Currency,
    from: i64,
    to: i64,
) -> Result<Vec<Bytes>, AllocError>
    requires { IsTrue (statable.is_statable user.now currency rows.now) }
    ensures { IfOk result (λ lines. lines.items ≡ spec.statement_of user.now currency from to rows.now) }
{
    let opening = opening_of(rows, user, currency, from);
    let mut lines = Vec::new(alloc);
    lines.push(balance_line(alloc, b"opening", opening.balance, currency)?)?;
    let shown = &rows[opening.rows..];
    let closing = put_rows(
        alloc,
        &mut lines,
        shown,
        user,
        currency,
        opening.balance,
        to,
    )?;
    lines.push(balance_line(alloc, b"closing", closing, currency)?)?;
    Ok(lines)
}

/// Adds the lines of the user's rows up to the day `to`, and returns what the user has after them, who had `balance` before.
fn put_rows(
    alloc: Global,
    lines: &mut Vec<Bytes>,
    rows: &[PostRow],
    user: &Token,
    currency: Currency,
    balance: i128,
    to: i64,
) -> Result<i128, AllocError>
    requires { GoesOn user.now currency balance rows.now }
    ensures lines { OnOk result (lines.new.items ≡ lines.old.items ++ lines_to to user.now currency rows.now) }
    ensures closing { IfOk result (λ closing. closing ≡ balance +ℤ added_to to user.now currency rows.now) }
    ensures low { IfOk result (λ closing. neg_ℤ (pos (2 ^ 63)) <ℤ closing) }
    ensures high { IfOk result (λ closing. closing <ℤ pos (2 ^ 63)) }
{
    let mut closing = balance;
    'rows: for row in rows {
        if day_of(row) > to {
            return Ok(closing);
        }
        put_row(alloc, lines, row, user, currency)?;
        closing = added(closing, signed_amount(row, user, currency));
    }
    Ok(closing)
}

/// Adds the line of a row, if the user's account is on a side of it.
fn put_row(
    alloc: Global,
    lines: &mut Vec<Bytes>,
    row: &PostRow,
    user: &Token,
    currency: Currency,
) -> Result<(), AllocError>
    requires low { neg_ℤ (pos (2 ^ 63)) <ℤ statable.signed_amount user.now currency row.now }
    requires high { statable.signed_amount user.now currency row.now <ℤ pos (2 ^ 63) }
    ensures { OnOk result (lines.new.items ≡ lines.old.items ++ own_line user.now currency row.now) }
{
    if !is_of_user(row, user, currency) {
        return Ok(());
    }
    lines.push(row_line(alloc, row, user, currency)?)?;
    Ok(())
}

/// The line of a row of the user.
fn row_line(
    alloc: Global,
    row: &PostRow,
    user: &Token,
    currency: Currency,
) -> Result<Bytes, AllocError>
    requires low { neg_ℤ (pos (2 ^ 63)) <ℤ statable.signed_amount user.now currency row.now }
    requires high { statable.signed_amount user.now currency row.now <ℤ pos (2 ^ 63) }
    ensures { IfOk result (λ line. line ≡ spec.row_line user.now currency row.now) }
{
    let amount = write(alloc, narrow(signed_amount(row, user, currency)), currency)?;
    let mut line = Vec::new(alloc);
    put_members(
        &mut line,
        row,
        amount.as_bytes(),
        account_text(other_side(row, user, currency)),
    )?;
    Ok(Bytes::from(line))
}

/// Adds the line of a row, with its amount and the name of its other account as texts.
fn put_members(
    out: &mut Vec<u8>,
    row: &PostRow,
    amount: &[u8],
    other: &[u8],
) -> Result<(), AllocError>
    ensures { OnOk result (out.new.items ≡ with_members out.old.items row.now amount.now other.now) }
{
    put_text(out, b"{\"amount\":\"", amount)?;
    put_number(out, b"\",\"at\":", row.at)?;
    put_text(out, b",\"other\":\"", other)?;
    put_number(out, b"\",\"record\":", u64::from(row.number))?;
    put_end(out, &row.txn)
}

/// Adds the transaction, if there is one, and the end of the line.
fn put_end(out: &mut Vec<u8>, txn: &Option<Token>) -> Result<(), AllocError>
    ensures { OnOk result (out.new.items ≡ out.old.items ++ end_piece txn.now) }
{
    match txn {
        Some(txn) => put_txn(out, txn.text()),
        None => out.extend_from_slice(b"}\n"),
    }
}

fn put_txn(out: &mut Vec<u8>, txn: &[u8]) -> Result<(), AllocError>
    ensures { OnOk result (out.new.items ≡ out.old.items ++ (codes ",\"txn\":\"" ++ txn.now) ++ codes "\"}\n") }
{
    put_text(out, b",\"txn\":\"", txn)?;
    out.extend_from_slice(b"\"}\n")
}

/// The line of what the user had, at the opening or at the closing.
fn balance_line(
    alloc: Global,
    which: &[u8],
    balance: i128,
    currency: Currency,
) -> Result<Bytes, AllocError>
    requires low { neg_ℤ (pos (2 ^ 63)) <ℤ balance }
    requires high { balance <ℤ pos (2 ^ 63) }
    ensures { IfOk result (λ line. line ≡ spec.balance_line which.now balance currency) }
{
    let text = write(alloc, narrow(balance), currency)?;
    let mut line = Vec::new(alloc);
    put_text(&mut line, b"{\"balance\":\"", text.as_bytes())?;
    put_text(&mut line, b"\",\"line\":\"", which)?;
    line.extend_from_slice(b"\"}\n")?;
    Ok(Bytes::from(line))
}

fn put_text(out: &mut Vec<u8>, name: &[u8], text: &[u8]) -> Result<(), AllocError>
    ensures { OnOk result (out.new.items ≡ out.old.items ++ (name.now ++ text.now)) }
{
    out.extend_from_slice(name)?;
    out.extend_from_slice(text)
}

fn put_number(out: &mut Vec<u8>, name: &[u8], number: u64) -> Result<(), AllocError>
    ensures { OnOk result (out.new.items ≡ out.old.items ++ (name.now ++ decimal number)) }
{
    out.extend_from_slice(name)?;
    put_decimal(out, number)
}

/// The same amount in 64 bits.
fn narrow(amount: i128) -> i64
    requires low { neg_ℤ (pos (2 ^ 63)) <ℤ amount }
    requires high { amount <ℤ pos (2 ^ 63) }
    ensures { result ≡ amount }
{
    amount as i64
}

/// The account on the other side of a row of the user.
fn other_side(row: &PostRow, user: &Token, currency: Currency) -> Account
    ensures { result ≡ spec.other_side user.now currency row.now }
{
    if is_users(&row.to, user, currency) {
        row.from
    } else {
        row.to
    }
}

/// What an account is called in a statement.
fn account_text(account: Account) -> &'static [u8]
    ensures { result.now ≡ spec.account_text account }
{
    match account {
        Account::Gateway(_) => b"gateway",
        Account::Network(_) => b"network",
        Account::Programme(_) => b"programme",
        Account::User(_, _) => b"user",
    }
}
