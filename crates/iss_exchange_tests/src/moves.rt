//! A gateway that funds at most 60.00 for a call and 100.00 to a user: the moves that the checker computes too.
use iss_exchange::{Amount, Amounts, Exchange};
use iss_exchange_laws::Move;
use iss_model::{CallId, Currency, Funding, Input, Outcome, Token};
use std::alloc::{AllocError, Global};
use std::test::Fail;

/// What both sides have in dollars, with at most one amount in each list.
#[derive(Clone, Copy, Debug, PartialEq)]
struct Sides {
    count: usize,
    total: i64,
    balance: i64,
    asked: Option<Amount>,
    voided: Option<Amount>,
    noted: Option<Amount>,
}

/// An input comes at the beginning of 1970.
fn comes(input: Input) -> Move {
    Move::Input(input, 0)
}

/// The settings of a user whose card the gateway funds.
fn setting(place: usize) -> Result<Input, Fail> {
    let [p1, t1, t2, u1, c1, g] = names()?;
    Ok(match place {
        0 => Input::Product {
            token: p1,
            product: g,
            currency: Currency::Usd,
            funding: Funding::Gateway,
            timeout_ms: 3000,
            hold_ms: 604_800_000,
        },
        1 => Input::User {
            token: t1,
            user: u1,
        },
        _ => Input::Card {
            token: t2,
            card: c1,
            user: u1,
            product: g,
            active: true,
        },
    })
}

fn names() -> Result<[Token; 6], Fail> {
    Ok([
        name("p1")?,
        name("t1")?,
        name("t2")?,
        name("u1")?,
        name("c1")?,
        name("g")?,
    ])
}

fn name(text: &str) -> Result<Token, Fail> {
    Ok(Token::new(text.as_bytes()).ok_or("no token")?)
}

fn purchase(token: &str, amount: u64, partial: bool) -> Result<Input, Fail> {
    Ok(Input::Authorization {
        token: name(token)?,
        card: name("c1")?,
        currency: Currency::Usd,
        amount,
        mcc: 5411,
        mid: name("m1")?,
        partial,
    })
}

/// The exchange after one more move.
pub(crate) fn turned(exchange: Exchange, alloc: Global, m: &Move) -> Result<Exchange, AllocError> {
    if exchange.is_full() {
        return Err(AllocError);
    }
    exchange.turn(alloc, m)
}

/// The exchange after more moves.
fn after(exchange: Exchange, alloc: Global, moves: &[Move]) -> Result<Exchange, AllocError> {
    let mut now = exchange;
    for m in moves {
        now = turned(now, alloc, m)?;
    }
    Ok(now)
}

/// A purchase of this amount has asked the gateway, and all records are released.
pub(crate) fn bought(alloc: Global, amount: u64, partial: bool) -> Result<Exchange, Fail> {
    let exchange = Exchange::new(alloc, 0, 6000, 10_000)?;
    let moves = [
        comes(setting(0)?),
        comes(setting(1)?),
        comes(setting(2)?),
        comes(purchase("a1", amount, partial)?),
        Move::Release,
        Move::Release,
        Move::Release,
        Move::Release,
        Move::ToGateway(1),
    ];
    Ok(after(exchange, alloc, &moves)?)
}

/// The one amount, if there is one; a number of 0 if there are more.
fn lone(amounts: &Amounts) -> Option<Amount> {
    match amounts.as_slice() {
        [] => None,
        [amount] => Some(*amount),
        _ => Some(of(0, 0)),
    }
}

fn of(number: u32, amount: u64) -> Amount {
    Amount { number, amount }
}

fn sides_of(alloc: Global, exchange: &Exchange) -> Result<Sides, AllocError> {
    let gap = exchange.gap(alloc, Currency::Usd)?;
    Ok(Sides {
        count: exchange.records().len(),
        total: exchange.total(Currency::Usd),
        balance: exchange.balance(Currency::Usd),
        asked: lone(&gap.asked),
        voided: lone(&gap.voided),
        noted: lone(&gap.noted),
    })
}

/// Nothing is on its way.
fn even(count: usize, total: i64) -> Sides {
    Sides {
        count,
        total,
        balance: total.saturating_neg(),
        asked: None,
        voided: None,
        noted: None,
    }
}

#[test]
fn a_call_that_fails_is_undone(rt: HostRuntime) -> Result<(), Fail> {
    let alloc = rt.alloc();
    let exchange = bought(alloc, 6000, false)?;
    let asked = Sides {
        asked: Some(of(1, 6000)),
        balance: 0,
        ..even(4, 6000)
    };
    assert_eq!(rt; sides_of(alloc, &exchange)?, asked);

    let unreached = Input::Answer {
        call: CallId(1),
        outcome: Outcome::Connection,
    };
    let exchange = after(exchange, alloc, &[comes(unreached)])?;
    let voided = Sides {
        voided: Some(of(1, 6000)),
        noted: Some(of(1, 0)),
        balance: 0,
        ..even(5, 6000)
    };
    assert_eq!(rt; sides_of(alloc, &exchange)?, voided);

    let exchange = after(exchange, alloc, &[Move::Release, Move::ToGateway(2)])?;
    assert_eq!(rt; sides_of(alloc, &exchange)?, even(5, 0));
    let exchange = after(exchange, alloc, &[Move::ToProcessor(2, 0)])?;
    assert_eq!(rt; sides_of(alloc, &exchange)?, even(6, 0));
    assert_eq!(rt; exchange.sent().len(), 2);
    assert_eq!(rt; exchange.heard().len(), 2);
    Ok(())
}

#[test]
fn a_part_is_funded(rt: HostRuntime) -> Result<(), Fail> {
    let alloc = rt.alloc();
    let exchange = bought(alloc, 9000, true)?;
    let exchange = after(exchange, alloc, &[Move::ToProcessor(1, 0)])?;
    assert_eq!(rt; sides_of(alloc, &exchange)?, even(5, 6000));
    Ok(())
}

#[test]
fn a_crash_loses_no_released_record(rt: HostRuntime) -> Result<(), Fail> {
    let alloc = rt.alloc();
    let exchange = bought(alloc, 6000, false)?;
    let more = comes(purchase("a2", 1000, false)?);
    let moves = [more, Move::Crash(3)];
    let exchange = after(exchange, alloc, &moves)?;
    assert_eq!(rt; exchange.records().len(), 5);
    let exchange = after(exchange, alloc, &[Move::Crash(4)])?;
    let asked = Sides {
        asked: Some(of(1, 6000)),
        balance: 0,
        ..even(4, 6000)
    };
    assert_eq!(rt; sides_of(alloc, &exchange)?, asked);
    Ok(())
}

#[test]
fn the_gateways_word_is_no_input(rt: HostRuntime) -> Result<(), Fail> {
    let alloc = rt.alloc();
    let exchange = bought(alloc, 6000, false)?;
    let funded = Input::Answer {
        call: CallId(1),
        outcome: Outcome::Funded,
    };
    let moves = [comes(funded), comes(Input::Ack { notice: 1 })];
    let exchange = after(exchange, alloc, &moves)?;
    assert_eq!(rt; exchange.records().len(), 4);
    Ok(())
}
