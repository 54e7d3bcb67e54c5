//! Statements over two postings: 60.00 that the gateway funded on the first day, and 60.00 that the network got on the second.
use iss_archive::{PostRow, is_statable};
use iss_model::{Account, Currency, Token};
use iss_statement::statement_lines;
use std::alloc::{AllocError, Global};
use std::test::Fail;

fn two_rows(user: Token, txn: Token) -> [PostRow; 2] {
    [
        PostRow {
            seq: 1,
            number: 5,
            at: 0,
            from: Account::Gateway(Currency::Usd),
            to: Account::User(user, Currency::Usd),
            amount: 6000,
            txn: None,
        },
        PostRow {
            seq: 2,
            number: 6,
            at: 86_400_000,
            from: Account::User(user, Currency::Usd),
            to: Account::Network(Currency::Usd),
            amount: 6000,
            txn: Some(txn),
        },
    ]
}

/// The lines of a statement, one after the other. It is empty if the rows can't be put into one.
fn statement(
    alloc: Global,
    rows: &[PostRow],
    user: &Token,
    currency: Currency,
    from: i64,
    to: i64,
) -> Result<Vec<u8>, AllocError> {
    let mut text = Vec::new(alloc);
    if !is_statable(rows, user, currency) {
        return Ok(text);
    }
    let lines = statement_lines(alloc, rows, user, currency, from, to)?;
    for line in &lines {
        text.extend_from_slice(line.as_slice())?;
    }
    Ok(text)
}

/// What a statement of the user `u1` or another is over the two postings.
fn stated(
    alloc: Global,
    user: &[u8],
    currency: Currency,
    from: i64,
    to: i64,
) -> Result<Vec<u8>, Fail> {
    let owner = Token::new(b"u1").ok_or("no token")?;
    let asked = Token::new(user).ok_or("no token")?;
    let txn = Token::new(b"a1").ok_or("no token")?;
    Ok(statement(alloc, &two_rows(owner, txn), &asked, currency, from, to)?)
}

#[test]
fn the_second_day(rt: HostRuntime) -> Result<(), Fail> {
    let text = stated(rt.alloc(), b"u1", Currency::Usd, 1, 1)?;
    let expected = b"{\"balance\":\"60.00\",\"line\":\"opening\"}\n\
        {\"amount\":\"-60.00\",\"at\":86400000,\"other\":\"network\",\"record\":6,\"txn\":\"a1\"}\n\
        {\"balance\":\"0.00\",\"line\":\"closing\"}\n";
    assert!(rt; text.as_slice() == expected.as_slice());
    Ok(())
}

#[test]
fn both_days(rt: HostRuntime) -> Result<(), Fail> {
    let text = stated(rt.alloc(), b"u1", Currency::Usd, 0, 1)?;
    let expected = b"{\"balance\":\"0.00\",\"line\":\"opening\"}\n\
        {\"amount\":\"60.00\",\"at\":0,\"other\":\"gateway\",\"record\":5}\n\
        {\"amount\":\"-60.00\",\"at\":86400000,\"other\":\"network\",\"record\":6,\"txn\":\"a1\"}\n\
        {\"balance\":\"0.00\",\"line\":\"closing\"}\n";
    assert!(rt; text.as_slice() == expected.as_slice());
    Ok(())
}

#[test]
fn the_first_day(rt: HostRuntime) -> Result<(), Fail> {
    let text = stated(rt.alloc(), b"u1", Currency::Usd, 0, 0)?;
    let expected = b"{\"balance\":\"0.00\",\"line\":\"opening\"}\n\
        {\"amount\":\"60.00\",\"at\":0,\"other\":\"gateway\",\"record\":5}\n\
        {\"balance\":\"60.00\",\"line\":\"closing\"}\n";
    assert!(rt; text.as_slice() == expected.as_slice());
    Ok(())
}

#[test]
fn a_user_with_no_row(rt: HostRuntime) -> Result<(), Fail> {
    let text = stated(rt.alloc(), b"u9", Currency::Usd, 1, 1)?;
    let expected =
        b"{\"balance\":\"0.00\",\"line\":\"opening\"}\n{\"balance\":\"0.00\",\"line\":\"closing\"}\n";
    assert!(rt; text.as_slice() == expected.as_slice());
    Ok(())
}

#[test]
fn a_currency_with_no_row(rt: HostRuntime) -> Result<(), Fail> {
    let text = stated(rt.alloc(), b"u1", Currency::Jpy, 1, 1)?;
    let expected =
        b"{\"balance\":\"0\",\"line\":\"opening\"}\n{\"balance\":\"0\",\"line\":\"closing\"}\n";
    assert!(rt; text.as_slice() == expected.as_slice());
    Ok(())
}
