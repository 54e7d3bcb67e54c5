//! A call of 60.00 and the notice that voids it are sent, heard and answered.
ghost use Rattle.iss_delivery.specs.Delivering.{IsAsking, IsTelling};

use iss_delivery::{deliver, input_given, is_gateways, put_sent};
use iss_exchange_laws::Sent;
use iss_gateway::{Given, Message};
use iss_model::{CallId, Currency, Entry, Input, Method, Notice, Opened, Outcome, Token};
use std::test::Fail;
use uuid::Uuid;

const INSTANCE: u64 = 7;

fn call(user: Token) -> Opened
    ensures { IsAsking result }
{
    Opened {
        call: CallId(1),
        event: user,
        txn: user,
        method: Method::Authorization,
        card: user,
        user,
        currency: Currency::Usd,
        mcc: 5411,
        mid: user,
        amount: 6000,
        partial: true,
        at: 0,
        deadline: 1000,
    }
}

fn void(user: Token) -> Notice
    ensures { IsTelling result }
{
    Notice {
        number: 1,
        method: Method::Void,
        txn: user,
        user,
        currency: Currency::Usd,
        call: Some(CallId(1)),
        amount: 6000,
        gateway: 6000,
    }
}

/// The token of an ask.
fn token_of(heard: &Option<Message>) -> Option<Uuid> {
    match heard {
        Some(Message::Ask { token, .. }) => Some(*token),
        Some(Message::Note { .. }) => None,
        None => None,
    }
}

#[test]
fn a_call_is_heard(rt: HostRuntime) -> Result<(), Fail> {
    let user = Token::new(b"u1").ok_or("no token")?;
    let sent = Sent::Request(call(user));
    let heard = deliver(rt.alloc(), INSTANCE, &sent)?;
    assert!(rt;
        matches!(
            &heard,
            Some(Message::Ask {
                amount: 6000,
                partial: true,
                ..
            })
        )
    );
    assert!(rt; token_of(&heard) == Some(CallId(1).uuid(INSTANCE)));
    Ok(())
}

#[test]
fn a_void_is_heard(rt: HostRuntime) -> Result<(), Fail> {
    let user = Token::new(b"u1").ok_or("no token")?;
    let sent = Sent::Notice(void(user));
    let heard = deliver(rt.alloc(), INSTANCE, &sent)?;
    let Some(
        Message::Note {
            number,
            token,
            gateway,
            ..
        },
    ) = heard
    else {
        return Err("no note".into());
    };
    assert_eq!(rt; number, 1);
    assert!(rt; token == Some(CallId(1).uuid(INSTANCE)));
    assert_eq!(rt; gateway, 6000);
    Ok(())
}

#[test]
fn entries_send_calls_and_notices(rt: HostRuntime) -> Result<(), Fail> {
    let user = Token::new(b"u1").ok_or("no token")?;
    let entries = [Entry::Opened(call(user)), Entry::Notice(void(user))];
    let mut sent = Vec::new(rt.alloc());
    put_sent(&mut sent, &entries)?;
    assert!(rt; matches!(sent.as_slice(), [Sent::Request(_), Sent::Notice(_)]));
    Ok(())
}

#[test]
fn what_is_given_is_an_answer(rt: HostRuntime) -> Result<(), Fail> {
    let user = Token::new(b"u1").ok_or("no token")?;
    let sent = Sent::Request(call(user));
    let whole = input_given(&sent, Given::Funded(6000));
    assert!(rt;
        matches!(
            &whole,
            Some(Input::Answer {
                outcome: Outcome::Funded,
                ..
            })
        )
    );
    let part = input_given(&sent, Given::Funded(4000));
    assert!(rt;
        matches!(
            &part,
            Some(Input::Answer {
                outcome: Outcome::Partial(Currency::Usd, 4000),
                ..
            })
        )
    );
    let Some(answer) = part else {
        return Err("no answer".into());
    };
    assert!(rt; is_gateways(&answer));
    assert!(rt; input_given(&sent, Given::Acked).is_none());
    Ok(())
}
