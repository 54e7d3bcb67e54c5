//! Lists of moves that are drawn: whatever comes, both sides meet, and nothing is on its way once all is settled.
ghost use Rattle.std.specs.Prelude.{◌<◌, ◌≤◌};

use crate::moves::{bought, turned};
use iss_exchange::{Amounts, Exchange};
use iss_exchange_laws::Move;
use iss_model::{CallId, Currency, Input, Outcome, Token};
use std::alloc::{AllocError, Global};
use std::test::Fail;

/// How many lists each test draws.
const LISTS: u64 = 5000;

/// Numbers that look random, by shifts.
#[derive(Drop)]
struct Draw {
    state: u64,
}

impl Draw {
    /// A number below this one.
    fn below(&mut self, end: u32) -> u32
        requires { 1 ≤ end }
        ensures { result < end }
    {
        self.state ^= self.state << 13;
        self.state ^= self.state >> 7;
        self.state ^= self.state << 17;
        ((self.state >> 32) % u64::from(end)) as u32
    }
}

/// The token of an event by its number.
fn event(alloc: Global, number: u32) -> Result<Token, Fail> {
    let text = format!(in alloc; "e{number}")?;
    Ok(Token::new(text.as_bytes()).ok_or("no token")?)
}

/// An event, an answer that came to nothing, or a moment.
fn input(alloc: Global, draw: &mut Draw, number: u32, names: &[Token; 2]) -> Result<Input, Fail> {
    let token = event(alloc, number)?;
    let txn = event(alloc, draw.below(number.max(1)))?;
    let amount = u64::from(1 + draw.below(9000));
    let currency = Currency::Usd;
    Ok(match draw.below(12) {
        0..=4 => Input::Authorization {
            token,
            card: names[0],
            currency,
            amount,
            mcc: 5411,
            mid: names[1],
            partial: draw.below(2) == 0,
        },
        5 => Input::Increment {
            token,
            txn,
            currency,
            amount,
        },
        6 => Input::Reversal {
            token,
            txn,
            currency,
            amount,
        },
        7 => Input::Clearing {
            token,
            txn,
            currency,
            amount,
            last: draw.below(2) == 0,
        },
        8 => Input::Refund {
            token,
            txn,
            currency,
            amount,
        },
        9 => Input::Time,
        _ => Input::Answer {
            call: CallId(1 + draw.below(8)),
            outcome: outcome(draw),
        },
    })
}

fn outcome(draw: &mut Draw) -> Outcome {
    match draw.below(3) {
        0 => Outcome::Connection,
        1 => Outcome::Application,
        _ => Outcome::Funded,
    }
}

/// One move at a stamp.
fn drawn(
    alloc: Global,
    draw: &mut Draw,
    number: u32,
    names: &[Token; 2],
    at: u64,
) -> Result<Move, Fail> {
    Ok(match draw.below(10) {
        0..=2 => Move::Input(input(alloc, draw, number, names)?, at),
        3..=4 => Move::Release,
        5 => Move::Crash(draw.below(number.max(1))),
        6..=7 => Move::ToGateway(draw.below(12)),
        _ => Move::ToProcessor(draw.below(12), at),
    })
}

/// What amounts add up to.
fn sum_of(amounts: &Amounts) -> i64 {
    let mut sum = 0i64;
    for amount in amounts.as_slice() {
        sum = sum.saturating_add(i64::try_from(amount.amount).unwrap_or(i64::MAX));
    }
    sum
}

/// Whether the total and the balance add up to what is on its way.
fn meet(alloc: Global, exchange: &Exchange) -> Result<bool, AllocError> {
    let gap = exchange.gap(alloc, Currency::Usd)?;
    let way = sum_of(&gap.asked)
        .wrapping_add(sum_of(&gap.voided))
        .wrapping_add(sum_of(&gap.noted));
    let sides = exchange
        .total(Currency::Usd)
        .wrapping_add(exchange.balance(Currency::Usd));
    Ok(sides == way)
}

/// Makes the moves of a list, and says whether both sides met after each.
fn all_meet(alloc: Global, draw: &mut Draw, names: &[Token; 2]) -> Result<bool, Fail> {
    let mut exchange = bought(alloc, 6000, false)?;
    let mut at = 0;
    let moves = 20 + draw.below(80);
    for number in 0..moves {
        if draw.below(4) == 0 {
            at = u64::from(draw.below(4000)).saturating_add(at);
        }
        let m = drawn(alloc, draw, number, names, at)?;
        exchange = turned(exchange, alloc, &m)?;
        if !meet(alloc, &exchange)? {
            return Ok(false);
        }
    }
    is_even_at_last(alloc, exchange, at)
}

/// Whether nothing is on its way once all was sent, heard and told, and what came of that too.
fn is_even_at_last(alloc: Global, exchange: Exchange, at: u64) -> Result<bool, Fail> {
    let mut now = exchange;
    for _ in 0..3 {
        now = settled(alloc, now, at)?;
    }
    let gap = now.gap(alloc, Currency::Usd)?;
    let empty = gap.asked.as_slice().is_empty()
        && gap.voided.as_slice().is_empty()
        && gap.noted.as_slice().is_empty();
    Ok(empty && meet(alloc, &now)?)
}

/// All is sent, heard and told.
fn settled(alloc: Global, exchange: Exchange, at: u64) -> Result<Exchange, AllocError> {
    let mut now = exchange;
    for _ in 0..now.records().len() {
        now = turned(now, alloc, &Move::Release)?;
    }
    for place in 0..few(now.sent().len()) {
        now = turned(now, alloc, &Move::ToGateway(place + 1))?;
    }
    for place in 0..few(now.heard().len()) {
        now = turned(now, alloc, &Move::ToProcessor(place + 1, at))?;
    }
    Ok(now)
}

fn few(count: usize) -> u32 {
    u32::try_from(count).unwrap_or(u32::MAX)
}

/// Whether both sides meet in each list that is drawn from this number on, which isn't 0.
fn lists_meet(alloc: Global, seed: u64) -> Result<bool, Fail> {
    let names = [
        Token::new(b"c1").ok_or("no token")?,
        Token::new(b"m1").ok_or("no token")?,
    ];
    let mut draw = Draw { state: seed };
    for _ in 0..LISTS {
        if !all_meet(alloc, &mut draw, &names)? {
            return Ok(false);
        }
    }
    Ok(true)
}

#[test]
fn both_sides_meet_in_the_first_lists(rt: HostRuntime) -> Result<(), Fail> {
    assert!(rt; lists_meet(rt.alloc(), 88_172_645_463_325_252)?);
    Ok(())
}

#[test]
fn both_sides_meet_in_the_second_lists(rt: HostRuntime) -> Result<(), Fail> {
    assert!(rt; lists_meet(rt.alloc(), 1)?);
    Ok(())
}

#[test]
fn both_sides_meet_in_the_third_lists(rt: HostRuntime) -> Result<(), Fail> {
    assert!(rt; lists_meet(rt.alloc(), 2)?);
    Ok(())
}

#[test]
fn both_sides_meet_in_the_fourth_lists(rt: HostRuntime) -> Result<(), Fail> {
    assert!(rt; lists_meet(rt.alloc(), 3)?);
    Ok(())
}
