//! What parts list and are made of again, each call once with ample memory.
ghost use Rattle.std.specs.Prelude.{◌≡◌};

use iss_commando::Sets;
use iss_model::{
    Association, Control, Currency, Method, Notice, Scope, Stood, Token, Used, Window,
};
use iss_notice::Notices;
use iss_velocity::{Controls, Counted};
use std::alloc::{AllocError, Global};
use std::test::Fail;

/// What stands in of 5 on 2 January 1970, listed.
fn sums_of_one(alloc: Global, token: &Token) -> Result<Vec<Stood>, AllocError> {
    let mut sets = Sets::new(alloc)?;
    sets.note(token, token, 5, 86_400_000)?;
    sets.sums(alloc)
}

fn control(name: &Token) -> Control
    ensures { result.name ≡ name.now }
{
    Control {
        name: *name,
        currency: Currency::Usd,
        window: Window::Day,
        amount_limit: Some(50_000),
        usage_limit: None,
        association: Association::Anybody,
        scope: Scope::All,
        offset: 0,
        active: true,
    }
}

/// A control's counter of day 0, taken up again and listed.
fn counter_again(alloc: Global, name: &Token, user: &Token) -> Result<Vec<Counted>, AllocError> {
    let mut controls = Controls::new(alloc);
    let Ok(()) = controls.put(4, &control(name)) else {
        return Err(AllocError);
    };
    let used = Used {
        amount: 10_000,
        count: 1,
    };
    controls.restore(name, user, 0, used)?;
    controls.counters(alloc)
}

fn notice(token: &Token, number: u32) -> Notice
    ensures { result.number ≡ number }
{
    Notice {
        number,
        method: Method::Void,
        txn: *token,
        user: *token,
        currency: Currency::Usd,
        call: None,
        amount: 10,
        gateway: 10,
    }
}

#[test]
fn sums_with_ample_memory(rt: HostRuntime) -> Result<(), Fail> {
    let token = Token::new(b"a1").ok_or("no token")?;
    let sums = sums_of_one(rt.alloc(), &token)?;
    assert_eq!(rt; sums.len(), 1);
    for sum in &sums {
        assert_eq!(rt; sum.day, 1);
        assert_eq!(rt; sum.amount, 5);
    }
    Ok(())
}

#[test]
fn counters_with_ample_memory(rt: HostRuntime) -> Result<(), Fail> {
    let name = Token::new(b"v1").ok_or("no token")?;
    let counters = counter_again(rt.alloc(), &name, &name)?;
    assert_eq!(rt; counters.len(), 1);
    for counter in &counters {
        assert_eq!(rt; counter.number, 0);
        assert_eq!(rt; counter.used.amount, 10_000);
        assert_eq!(rt; counter.used.count, 1);
    }
    Ok(())
}

#[test]
fn notices_with_ample_memory(rt: HostRuntime) -> Result<(), Fail> {
    let token = Token::new(b"a1").ok_or("no token")?;
    let list = [notice(&token, 2), notice(&token, 5)];
    let notices = Notices::restore(rt.alloc(), 7, &list)?;
    assert_eq!(rt; notices.waiting(), 2);
    assert_eq!(rt; notices.made(), 7);
    Ok(())
}
