//! A year of 100,000 postings of one user.
use iss_archive::{PostRow, is_statable};
use iss_model::{Account, Currency, Token};
use iss_statement::statement_lines;
use std::alloc::{AllocError, Global};
use std::test::Fail;

/// How many postings there are.
const POSTINGS: u32 = 100_000;

/// How many milliseconds lie between two, so that they fill 365 days.
const STEP: u64 = 315_000;

/// The first line, before which the user has nothing.
const OPENING: &str = "{\"balance\":\"0.00\",\"line\":\"opening\"}\n";

/// The last line: 25,000 loads of 4.00, less 75,000 clearings of 1.00.
const CLOSING: &str = "{\"balance\":\"25000.00\",\"line\":\"closing\"}\n";

/// A load of 4.00 to the user's account.
fn load(number: u32, user: &Token) -> PostRow {
    PostRow {
        seq: u64::from(number),
        number,
        at: STEP * u64::from(number),
        from: Account::Programme(Currency::Usd),
        to: Account::User(*user, Currency::Usd),
        amount: 400,
        txn: None,
    }
}

/// A clearing of 1.00 from the user's account.
fn clearing(number: u32, user: &Token) -> PostRow {
    PostRow {
        seq: u64::from(number),
        number,
        at: STEP * u64::from(number),
        from: Account::User(*user, Currency::Usd),
        to: Account::Network(Currency::Usd),
        amount: 100,
        txn: Some(*user),
    }
}

/// The posting of this number: each fourth is a load, and the others are clearings.
fn posting(number: u32, user: &Token) -> PostRow {
    if number % 4 == 0 {
        return load(number, user);
    }
    clearing(number, user)
}

/// Adds a thing after the others.
fn push<T: Copy + Drop>(things: &mut Vec<T>, thing: &T) -> Result<(), AllocError> {
    things.push(*thing)?;
    Ok(())
}

/// The postings of the year.
fn year(alloc: Global, user: &Token) -> Result<Vec<PostRow>, AllocError> {
    let mut rows = Vec::new(alloc);
    for number in 1..=POSTINGS {
        push(&mut rows, &posting(number, user))?;
    }
    Ok(rows)
}

/// How many lines a statement has, and whether its first and its last line are these.
type Shown = (usize, bool, bool);

/// What is looked at of a statement of the user over these days. It is `None` if the rows can't be put into one.
fn looked_at(
    alloc: Global,
    rows: &[PostRow],
    user: &Token,
    from: i64,
    to: i64,
) -> Result<Option<Shown>, AllocError> {
    if !is_statable(rows, user, Currency::Usd) {
        return Ok(None);
    }
    let lines = statement_lines(alloc, rows, user, Currency::Usd, from, to)?;
    let opens = match lines.first() {
        Some(line) => line.as_slice() == OPENING.as_bytes(),
        None => false,
    };
    let closes = match lines.last() {
        Some(line) => line.as_slice() == CLOSING.as_bytes(),
        None => false,
    };
    Ok(Some((lines.len(), opens, closes)))
}

#[test]
fn a_year_of_postings(rt: HostRuntime) -> Result<(), Fail> {
    let user = Token::new(b"u1").ok_or("no token")?;
    let rows = year(rt.alloc(), &user)?;
    let whole = looked_at(rt.alloc(), rows.as_slice(), &user, 0, 364)?;
    assert_eq!(rt; whole, Some((100_002, true, true)));
    let last = looked_at(rt.alloc(), rows.as_slice(), &user, 364, 364)?;
    assert_eq!(rt; last, Some((163, false, true)));
    Ok(())
}
