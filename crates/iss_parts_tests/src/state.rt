//! What a core shows after some events, with ample memory.
ghost use Rattle.std.specs.Prelude.{IsTrue};
ghost use Rattle.iss_model.specs.Forms.{is_in_form};

use iss_core::Core;
use iss_model::limits::MOST_RECORDS;
use iss_model::{Currency, Input, Judged, State, Token};
use std::alloc::{AllocError, Global};
use std::test::Fail;

/// The core after one more input at stamp 0, which has to be new.
fn after(core: Core, alloc: Global, input: &Input) -> Result<Core, AllocError>
    requires { IsTrue (is_in_form input.now) }
{
    let Judged::New(record) = core.judge(alloc, input, 0)? else {
        return Err(AllocError);
    };
    if core.count() >= MOST_RECORDS {
        return Err(AllocError);
    }
    let (core, _) = core.step(alloc, &record)?;
    Ok(core)
}

/// A user with a card and 50.00, of which an authorisation holds 20.00.
fn purchase(alloc: Global, tokens: &[Token; 5], default: &Token) -> Result<State, AllocError> {
    let core = Core::new(alloc, 7)?;
    let user = Input::User {
        token: tokens[0],
        user: tokens[0],
    };
    let core = after(core, alloc, &user)?;
    let card = Input::Card {
        token: tokens[1],
        card: tokens[1],
        user: tokens[0],
        product: *default,
        active: true,
    };
    let core = after(core, alloc, &card)?;
    let load = Input::Load {
        token: tokens[2],
        user: tokens[0],
        currency: Currency::Usd,
        amount: 5_000,
    };
    let core = after(core, alloc, &load)?;
    let authorization = Input::Authorization {
        token: tokens[3],
        card: tokens[1],
        currency: Currency::Usd,
        amount: 2_000,
        mcc: 5411,
        mid: tokens[4],
        partial: false,
    };
    let core = after(core, alloc, &authorization)?;
    core.state(alloc)
}

#[test]
fn state_with_ample_memory(rt: HostRuntime) -> Result<(), Fail> {
    let tokens = [
        Token::new(b"u1").ok_or("no token")?,
        Token::new(b"c1").ok_or("no token")?,
        Token::new(b"l1").ok_or("no token")?,
        Token::new(b"a1").ok_or("no token")?,
        Token::new(b"m1").ok_or("no token")?,
    ];
    let default = Token::new(b"default").ok_or("no token")?;
    let state = purchase(rt.alloc(), &tokens, &default)?;
    assert_eq!(rt;
        [
            state.events.0.len(),
            state.txns.0.len(),
            state.balances.0.len(),
            state.counters.0.len()
        ],
        [4, 1, 2, 0]
    );
    for carried in &state.txns.0 {
        assert_eq!(rt;
            [carried.sums.g, carried.sums.p, carried.sums.s],
            [0, 0, 2_000]
        );
    }
    for saldo in &state.balances.0 {
        assert!(rt; saldo.amount == 5_000 || saldo.amount == -5_000);
    }
    Ok(())
}
