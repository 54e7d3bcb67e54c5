//! Reading a state from its lines.
use crate::words::{account, currency, mark, method, span, token, verdict, word_of};
use iss_event::{Mode, read_line};
use iss_model::{
    CallId, Carried, CarriedList, Counter, CounterList, Input, Notice, NoticeList, Record, Saldo,
    SaldoList, Seen, SeenList, State, Stood, StoodList, TxnSums, Used,
};
use std::alloc::{AllocError, Global};

/// A change of a line by its place: another one instead of it, one before it, or none.
#[derive(Drop)]
enum Change<'a> {
    Put(usize, &'a str),
    Add(usize, &'a str),
    Drop(usize),
}

/// The state that these lines tell with changes, or `None` if one of them tells nothing.
pub(crate) fn state_of(
    alloc: Global,
    lines: &[String],
    changes: &[String],
) -> Result<Option<State>, AllocError> {
    let Some(changes) = changes_of(alloc, changes)? else {
        return Ok(None);
    };
    let mut state = empty(alloc);
    for (place, line) in lines.iter().enumerate() {
        if !put_changed(alloc, &mut state, place, line.as_str(), &changes)? {
            return Ok(None);
        }
    }
    Ok(Some(state))
}

/// What these lines change, or `None` if one of them changes nothing.
fn changes_of(alloc: Global, lines: &[String]) -> Result<Option<Vec<Change<'_>>>, AllocError> {
    let mut changes = Vec::new(alloc);
    for line in lines {
        let Some(change) = change_of(line.as_str()) else {
            return Ok(None);
        };
        changes.push(change)?;
    }
    Ok(Some(changes))
}

fn empty(alloc: Global) -> State {
    State {
        records: 0,
        now: 0,
        events: SeenList(Vec::new(alloc)),
        txns: CarriedList(Vec::new(alloc)),
        balances: SaldoList(Vec::new(alloc)),
        counters: CounterList(Vec::new(alloc)),
        sums: StoodList(Vec::new(alloc)),
        made: 0,
        notices: NoticeList(Vec::new(alloc)),
    }
}

fn change_of(text: &str) -> Option<Change<'_>> {
    let (word, rest) = word_of(text);
    let (number, line) = word_of(rest);
    let place = number.parse::<usize>().ok()?;
    match word {
        "change" => Some(Change::Put(place, line)),
        "add" => Some(Change::Add(place, line)),
        "drop" => Some(Change::Drop(place)),
        _ => None,
    }
}

/// Puts what stands at a place of the changed state.
fn put_changed(
    alloc: Global,
    state: &mut State,
    place: usize,
    line: &str,
    changes: &[Change<'_>],
) -> Result<bool, AllocError> {
    let mut stays = true;
    for change in changes {
        let (at, other, keeps) = match change {
            Change::Put(at, other) => (*at, Some(*other), false),
            Change::Add(at, other) => (*at, Some(*other), true),
            Change::Drop(at) => (*at, None, false),
        };
        if at != place {
            continue;
        }
        stays = stays && keeps;
        if let Some(other) = other {
            if !put_line(alloc, state, other)? {
                return Ok(false);
            }
        }
    }
    if stays {
        put_line(alloc, state, line)
    } else {
        Ok(true)
    }
}

/// Puts what a line tells, and says whether it tells something.
fn put_line(alloc: Global, state: &mut State, line: &str) -> Result<bool, AllocError> {
    let (word, rest) = word_of(line);
    match word {
        "event" => put_event(alloc, state, rest),
        "head" => Ok(put_head(state, rest).is_some()),
        _ => put_thing(state, word, rest),
    }
}

fn put_event(alloc: Global, state: &mut State, rest: &str) -> Result<bool, AllocError> {
    let Some(event) = seen(alloc, rest)? else {
        return Ok(false);
    };
    state.events.0.push(event)?;
    Ok(true)
}

/// `head RECORDS NOW MADE`
fn put_head(state: &mut State, rest: &str) -> Option<()> {
    let (records, rest) = word_of(rest);
    let (now, made) = word_of(rest);
    state.records = records.parse::<u32>().ok()?;
    state.now = now.parse::<u64>().ok()?;
    state.made = made.parse::<u32>().ok()?;
    Some(())
}

fn put_thing(state: &mut State, word: &str, rest: &str) -> Result<bool, AllocError> {
    match word {
        "txn" => put(&mut state.txns.0, carried(rest)),
        "balance" => put(&mut state.balances.0, saldo(rest)),
        "counter" => put(&mut state.counters.0, counter(rest)),
        "sum" => put(&mut state.sums.0, stood(rest)),
        "notice" => put(&mut state.notices.0, notice(rest)),
        _ => Ok(false),
    }
}

/// Puts a thing after the others, if a line told one.
fn put<T: Copy + Drop>(things: &mut Vec<T>, thing: Option<T>) -> Result<bool, AllocError> {
    let Some(thing) = thing else {
        return Ok(false);
    };
    things.push(thing)?;
    Ok(true)
}

/// `event NUMBER VERDICT MARK AMOUNT LINE`: an event line with its stamp. AMOUNT is `-`, or an amount in the place of the line's.
fn seen(alloc: Global, rest: &str) -> Result<Option<Seen>, AllocError> {
    let (number, rest) = word_of(rest);
    let (decided, rest) = word_of(rest);
    let (marked, rest) = word_of(rest);
    let (amount, line) = word_of(rest);
    let Ok(line) = read_line(alloc, line.as_bytes(), Mode::Lines) else {
        return Ok(None);
    };
    let (Ok(number), Some(verdict), Some(mark), Some(at)) = (
        number.parse::<u32>(),
        verdict(decided),
        mark(marked),
        line.at,
    ) else {
        return Ok(None);
    };
    Ok(Some(Seen {
        number,
        body: Record {
            at,
            input: with_amount(line.input, amount),
        },
        verdict,
        mark,
    }))
}

/// An input with another amount, if one is told.
fn with_amount(input: Input, word: &str) -> Input {
    let Ok(other) = word.parse::<u64>() else {
        return input;
    };
    match input {
        Input::Load {
            token,
            user,
            currency,
            amount: _,
        } => Input::Load {
            token,
            user,
            currency,
            amount: other,
        },
        Input::Clearing {
            token,
            txn,
            currency,
            amount: _,
            last,
        } => Input::Clearing {
            token,
            txn,
            currency,
            amount: other,
            last,
        },
        _ => input,
    }
}

/// `txn TOKEN LIVE G P S CLEARED REFUNDED PAID`
fn carried(rest: &str) -> Option<Carried> {
    let (txn, rest) = word_of(rest);
    let (live, rest) = word_of(rest);
    let (g, rest) = word_of(rest);
    let (p, rest) = word_of(rest);
    let (s, rest) = word_of(rest);
    let (cleared, rest) = word_of(rest);
    let (refunded, paid) = word_of(rest);
    Some(Carried {
        txn: token(txn)?,
        sums: TxnSums {
            live: live == "live",
            g: g.parse::<u64>().ok()?,
            p: p.parse::<u64>().ok()?,
            s: s.parse::<u64>().ok()?,
            cleared: cleared.parse::<u64>().ok()?,
            refunded: refunded.parse::<u64>().ok()?,
            paid: paid.parse::<u64>().ok()?,
        },
    })
}

/// `balance ACCOUNT CURRENCY AMOUNT`
fn saldo(rest: &str) -> Option<Saldo> {
    let (owner, rest) = word_of(rest);
    let (code, amount) = word_of(rest);
    Some(Saldo {
        account: account(owner, currency(code)?)?,
        amount: amount.parse::<i64>().ok()?,
    })
}

/// `counter CONTROL USER SPAN AMOUNT COUNT`
fn counter(rest: &str) -> Option<Counter> {
    let (control, rest) = word_of(rest);
    let (user, rest) = word_of(rest);
    let (spanned, rest) = word_of(rest);
    let (amount, count) = word_of(rest);
    Some(Counter {
        control: token(control)?,
        user: token(user)?,
        span: span(spanned)?,
        used: Used {
            amount: amount.parse::<i64>().ok()?,
            count: count.parse::<i64>().ok()?,
        },
    })
}

/// `sum PRODUCT USER DAY AMOUNT`
fn stood(rest: &str) -> Option<Stood> {
    let (product, rest) = word_of(rest);
    let (user, rest) = word_of(rest);
    let (day, amount) = word_of(rest);
    Some(Stood {
        product: token(product)?,
        user: token(user)?,
        day: day.parse::<i64>().ok()?,
        amount: amount.parse::<u64>().ok()?,
    })
}

/// `notice NUMBER METHOD TXN USER CURRENCY CALL AMOUNT GATEWAY`, whose CALL is 0 if it names none.
fn notice(rest: &str) -> Option<Notice> {
    let (number, rest) = word_of(rest);
    let (about, rest) = word_of(rest);
    let (txn, rest) = word_of(rest);
    let (user, rest) = word_of(rest);
    let (code, rest) = word_of(rest);
    let (call, rest) = word_of(rest);
    let (amount, gateway) = word_of(rest);
    let call = call.parse::<u32>().ok()?;
    Some(Notice {
        number: number.parse::<u32>().ok()?,
        method: method(about)?,
        txn: token(txn)?,
        user: token(user)?,
        currency: currency(code)?,
        call: if call == 0 { None } else { Some(CallId(call)) },
        amount: amount.parse::<u64>().ok()?,
        gateway: gateway.parse::<u64>().ok()?,
    })
}
