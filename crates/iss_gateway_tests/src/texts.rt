//! Texts that are read as messages, texts that aren't, and the bodies of answers.
use iss_gateway::{Given, Message, body, read_text, unread_body};
use iss_model::{CallId, Currency, Token};
use std::alloc::{AllocError, Global};
use std::test::Fail;

/// Whether a text is read as a message.
fn is_message(alloc: Global, text: &str) -> Result<bool, AllocError> {
    match read_text(alloc, text.as_bytes()) {
        Ok(Some(_)) => Ok(true),
        Ok(None) => Ok(false),
        Err(refused) => Err(refused),
    }
}

/// Whether all of these texts, a line each, are read as messages, or none of them.
fn all_read(alloc: Global, texts: &str, read: bool) -> Result<bool, AllocError> {
    for text in texts.split('\n') {
        if is_message(alloc, text)? != read {
            return Ok(false);
        }
    }
    Ok(true)
}

const MESSAGES: &str =
    r#"{"amount":"60.00","card":"c1","currency":"USD","event":"a1","mcc":"5411","method":"pgfs.authorization","mid":"m1","number":1,"token":"00000000-0000-8000-8000-000000000001","txn":"a1","user":"u1"}
{"amount":60,"card":"c1","currency":"USD","event":"a1","mcc":"5411","method":"pgfs.authorization.incremental","mid":"m1","number":4294967295,"partial":null,"token":"00000000000080008000000000000001","txn":"a1","user":"u1","x":[1]}
{"amount":"60.00","currency":"USD","gateway":"0.00","method":"x.void","notice":1,"token":"00000000-0000-8000-8000-000000000001","txn":"a1","user":"u1"}
{"amount":"10000000000.00","currency":"USD","gateway":"10000000000.00","method":"pgfs.refund","notice":2,"txn":"a1","user":"u1"}
{"amount":"38.20","currency":"USD","gateway":"11.80","method":"pgfs.authorization.capture","notice":2,"token":7,"txn":"a2","user":"u1"}"#;

const OTHERS: &str = r#"
{}
{"amount":"60.00","card":"c1","currency":"USD","event":"a1","mcc":"541","method":"pgfs.authorization","mid":"m1","number":1,"token":"00000000-0000-8000-8000-000000000001","txn":"a1","user":"u1"}
{"amount":"0.00","card":"c1","currency":"USD","event":"a1","mcc":"5411","method":"pgfs.authorization","mid":"m1","number":1,"token":"00000000-0000-8000-8000-000000000001","txn":"a1","user":"u1"}
{"amount":"60.00","card":"c1","currency":"USD","event":"a1","mcc":"5411","method":"pgfs.authorization","mid":"m1","number":0,"token":"00000000-0000-8000-8000-000000000001","txn":"a1","user":"u1"}
{"amount":"60.00","card":"c1","currency":"USD","event":"a1","mcc":"5411","method":"pgfs.authorization","mid":"m1","number":1,"partial":1,"token":"00000000-0000-8000-8000-000000000001","txn":"a1","user":"u1"}
{"amount":"60.00","currency":"USD","gateway":"0.00","method":"x.void","notice":1,"txn":"a1","user":"u1"}
{"amount":"10000000000.01","currency":"USD","gateway":"0.00","method":"pgfs.refund","notice":2,"txn":"a1","user":"u1"}
{"amount":"60.00","currency":"USD","gateway":"0.00","method":"x.other","notice":1,"txn":"a1","user":"u1"}"#;

#[test]
fn texts_that_are_messages(rt: HostRuntime) -> Result<(), Fail> {
    assert!(rt; all_read(rt.alloc(), MESSAGES, true)?);
    assert!(rt; all_read(rt.alloc(), OTHERS, false)?);
    Ok(())
}

/// The body that tells what is given for the request of call 1 of instance 0, for 60.00 USD.
fn told(alloc: Global, user: Token, given: Given) -> Result<Vec<u8>, AllocError> {
    let ask = Message::Ask {
        token: CallId(1).uuid(0),
        amount: 6000,
        currency: Currency::Usd,
        user,
        partial: false,
    };
    body(alloc, &ask, given)
}

#[test]
fn bodies_of_answers(rt: HostRuntime) -> Result<(), Fail> {
    let user = Token::new(b"u1").ok_or("no token")?;
    let funded = told(rt.alloc(), user, Given::Funded(6000))?;
    assert!(rt;
        funded.as_slice()
            == "{\"amount\":\"60.00\",\"token\":\"00000000-0000-8000-8000-000000000001\"}\n".as_bytes()
    );
    let refused = told(rt.alloc(), user, Given::Refused)?;
    assert!(rt; refused.as_slice() == "{\"reply\":\"refused\"}\n".as_bytes());
    let acked = told(rt.alloc(), user, Given::Acked)?;
    assert!(rt; acked.as_slice() == "{\"reply\":\"acked\"}\n".as_bytes());
    let unread = unread_body(rt.alloc())?;
    assert!(rt; unread.as_slice() == "{\"fault\":\"TEXT\",\"reply\":\"form\"}\n".as_bytes());
    assert_eq!(rt;
        (
            Given::Funded(1).status(),
            Given::Refused.status(),
            Given::Acked.status()
        ),
        (200, 402, 200)
    );
    Ok(())
}
