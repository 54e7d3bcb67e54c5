//! A gateway that funds at most 60.00 for a call and 100.00 to a user hears asks, repeats and voids.
use iss_gateway::{Gateway, Given, Message};
use iss_model::{CallId, Currency, Token};
use std::alloc::{AllocError, Global};
use std::test::Fail;

/// The request of a call of 60.00.
fn ask(user: Token, call: u32, partial: bool) -> Message {
    Message::Ask {
        token: CallId(call).uuid(0),
        amount: 6000,
        currency: Currency::Usd,
        user,
        partial,
    }
}

/// A notice that voids a call.
fn void(user: Token, number: u32, call: u32) -> Message {
    Message::Note {
        number,
        token: Some(CallId(call).uuid(0)),
        currency: Currency::Usd,
        user,
        gateway: 0,
    }
}

/// What is given for each message, while they are within what a gateway hears.
fn given_for(gateway: &mut Gateway, messages: &[Message]) -> Result<[Given; 10], AllocError> {
    let mut given = [Given::Acked; 10];
    for (place, message) in given.iter_mut().zip(messages) {
        if !gateway.is_full() && message.is_within() {
            *place = gateway.hear(message)?;
        }
    }
    Ok(given)
}

fn worked(alloc: Global, user: Token) -> Result<([Given; 10], Gateway), AllocError> {
    let mut gateway = Gateway::new(alloc, 6000, 10000)?;
    let messages = [
        ask(user, 1, false),
        ask(user, 1, false),
        ask(user, 2, false),
        void(user, 1, 1),
        ask(user, 2, false),
        ask(user, 3, false),
        ask(user, 4, true),
        void(user, 2, 5),
        ask(user, 5, false),
        void(user, 2, 5),
    ];
    let given = given_for(&mut gateway, &messages)?;
    Ok((given, gateway))
}

#[test]
fn asks_repeats_and_voids(rt: HostRuntime) -> Result<(), Fail> {
    let user = Token::new(b"u1").ok_or("no token")?;
    let (given, gateway) = worked(rt.alloc(), user)?;
    let expected = [
        Given::Funded(6000),
        Given::Funded(6000),
        Given::Refused,
        Given::Acked,
        Given::Refused,
        Given::Funded(6000),
        Given::Funded(4000),
        Given::Acked,
        Given::Refused,
        Given::Acked,
    ];
    assert!(rt; given == expected);
    assert_eq!(rt; gateway.total(Currency::Usd), 10000);
    assert!(rt; gateway.funded(CallId(4).uuid(0)) == Some(4000));
    assert!(rt; gateway.funded(CallId(5).uuid(0)).is_none());
    assert!(rt; gateway.is_voided(CallId(1).uuid(0)));
    assert!(rt; !gateway.is_voided(CallId(3).uuid(0)));
    assert!(rt; gateway.is_noted(2));
    assert!(rt; !gateway.is_noted(3));
    Ok(())
}
