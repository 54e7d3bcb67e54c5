//! What a gateway's answers come to, and the tokens of calls.
use iss_jit::{answer, request_text};
use iss_model::{CallId, Currency, Method, Opened, Outcome, Token};
use std::alloc::{AllocError, Global};
use std::test::Fail;
use uuid::Uuid;

/// Call 1 of instance 0, for 60.00 USD.
fn purchase() -> Option<Opened> {
    let name = Token::new(b"a1")?;
    Some(Opened {
        call: CallId(1),
        event: name,
        txn: name,
        method: Method::Authorization,
        card: name,
        user: name,
        currency: Currency::Usd,
        mcc: 5411,
        mid: name,
        amount: 6000,
        partial: false,
        at: 1000,
        deadline: 4000,
    })
}

/// The first of these bodies, a line each, that with status 200 comes to another outcome.
fn first_other<'b>(
    alloc: Global,
    bodies: &'b str,
    asked: &Opened,
    outcome: Outcome,
) -> Result<Option<&'b str>, AllocError> {
    for body in bodies.split('\n') {
        if answer(alloc, 200, body.as_bytes(), asked, 0)? != outcome {
            return Ok(Some(body));
        }
    }
    Ok(None)
}

/// Bodies that fund the call.
const FUNDING: &str = r#"{"token":"00000000-0000-8000-8000-000000000001","amount":60,"x":1}
{"amount":"60.00","token":"00000000-0000-8000-8000-000000000001"}
 { "amount" : 60 , "token" : "00000000-0000-8000-8000-000000000001" } 
{"\u0061mount":"6\u0030.00","token":"00000000-0000-8000-8000-000000000001"}
{"amount":60,"token":"00000000000080008000000000000001"}
{"amount":60,"token":"{00000000-0000-8000-8000-000000000001}"}
{"amount":60,"token":"urn:uuid:00000000-0000-8000-8000-000000000001"}
{"amount":1,"token":7,"amount":60,"token":"00000000-0000-8000-8000-000000000001"}
{"amount":60,"token":"00000000-0000-8000-8000-000000000001","x":[{"amount":1,"token":null},[[[null]]]]}
{"amount":60,"token":"00000000-0000-8000-8000-000000000001","x":123456789012345678901234567890}"#;

/// Bodies that don't: of another token, of another amount, or no object. The first has no bytes.
const OTHERS: &str = r#"
{"amount":60,"token":"00000000-0000-8000-8000-000000000001","token":"00000000-0000-8000-8000-000000000002"}
{"token":"00000000-0000-8000-8000-000000000001","amount":60,"amount":"59.99"}
{"amount":60,"token":"00000000-0000-8000-8000-000000000001","x":1e999}
{"amount":60}
{"amount":60,"token":null}
{"amount":60,"token":1}
{"amount":60,"token":["00000000-0000-8000-8000-000000000001"]}
{"amount":60,"token":{"token":"00000000-0000-8000-8000-000000000001"}}
{"amount":60,"Token":"00000000-0000-8000-8000-000000000001"}
{"amount":60,"token":"00000000-0000-8000-8000-000000000002"}
{"amount":60,"token":"00000000-0001-8000-8000-000000000001"}
{"amount":60,"token":"00000000-0000-8000-8000-00000000001"}
{"amount":60,"token":"00000000-0000-8000-8000-000000000001 "}
{"amount":60,"token":""}
{"token":"00000000-0000-8000-8000-000000000001"}
{"token":"00000000-0000-8000-8000-000000000001","amount":null}
{"token":"00000000-0000-8000-8000-000000000001","amount":"59.99"}
{"token":"00000000-0000-8000-8000-000000000001","amount":"60"}
{"token":"00000000-0000-8000-8000-000000000001","amount":"60.000"}
{"token":"00000000-0000-8000-8000-000000000001","amount":"060.00"}
{"token":"00000000-0000-8000-8000-000000000001","amount":6000}
{"token":"00000000-0000-8000-8000-000000000001","amount":60.0}
{"token":"00000000-0000-8000-8000-000000000001","amount":6e1}
{"token":"00000000-0000-8000-8000-000000000001","amount":-60}
{"token":"00000000-0000-8000-8000-000000000001","amount":18446744073709551676}
{"token":"00000000-0000-8000-8000-000000000001","amount":[60]}
null
[{"amount":60,"token":"00000000-0000-8000-8000-000000000001"}]
{"amount":60,"token":"00000000-0000-8000-8000-000000000001"} 1
{"amount":60,"token":"00000000-0000-8000-8000-000000000001","#;

#[test]
fn bodies_with_their_outcomes(rt: HostRuntime) -> Result<(), Fail> {
    let asked = purchase().ok_or("no token")?;
    let other = first_other(rt.alloc(), FUNDING, &asked, Outcome::Funded)?;
    assert_eq!(rt; other, None);
    let other = first_other(rt.alloc(), OTHERS, &asked, Outcome::Application)?;
    assert_eq!(rt; other, None);
    let no_text =
        b"{\"amount\":60,\"token\":\"00000000-0000-8000-8000-000000000001\",\"x\":\"\xff\"}";
    let said = answer(rt.alloc(), 200, no_text, &asked, 0)?;
    assert_eq!(rt; said, Outcome::Application);
    Ok(())
}

/// Bodies that fund a part of the call, if it permits one.
const PARTS: &str = r#"{"token":"00000000-0000-8000-8000-000000000001","amount":40,"x":1}
{"amount":"40.00","token":"00000000-0000-8000-8000-000000000001"}
{"amount":60,"token":"00000000000080008000000000000001","amount":"40.00"}"#;

/// Bodies that fund nothing of it, though it permits a part: of too much, of nothing, or of another token.
const NO_PARTS: &str = r#"{"amount":"60.01","token":"00000000-0000-8000-8000-000000000001"}
{"amount":61,"token":"00000000-0000-8000-8000-000000000001"}
{"amount":"0.00","token":"00000000-0000-8000-8000-000000000001"}
{"amount":0,"token":"00000000-0000-8000-8000-000000000001"}
{"amount":-40,"token":"00000000-0000-8000-8000-000000000001"}
{"amount":"40","token":"00000000-0000-8000-8000-000000000001"}
{"amount":40,"token":"00000000-0000-8000-8000-000000000002"}
{"amount":40}
{"token":"00000000-0000-8000-8000-000000000001"}"#;

/// The texts of the call's request, without and with the permission of a part.
const REQUESTS: [&str; 2] = [
    r#"{"amount":"60.00","card":"a1","currency":"USD","event":"a1","mcc":"5411","method":"pgfs.authorization","mid":"a1","number":1,"token":"00000000-0000-8000-8000-000000000001","txn":"a1","user":"a1"}"#,
    r#"{"amount":"60.00","card":"a1","currency":"USD","event":"a1","mcc":"5411","method":"pgfs.authorization","mid":"a1","number":1,"partial":true,"token":"00000000-0000-8000-8000-000000000001","txn":"a1","user":"a1"}"#,
];

#[test]
fn requests_with_what_they_permit(rt: HostRuntime) -> Result<(), Fail> {
    let [without, with] = REQUESTS;
    let mut asked = purchase().ok_or("no token")?;
    let text = request_text(rt.alloc(), &asked, 0)?;
    assert!(rt; text.as_slice() == without.as_bytes());
    asked.partial = true;
    let text = request_text(rt.alloc(), &asked, 0)?;
    assert!(rt; text.as_slice() == with.as_bytes());
    Ok(())
}

#[test]
fn parts_with_their_outcomes(rt: HostRuntime) -> Result<(), Fail> {
    let mut asked = purchase().ok_or("no token")?;
    let other = first_other(rt.alloc(), PARTS, &asked, Outcome::Application)?;
    assert_eq!(rt; other, None);
    asked.partial = true;
    let part = Outcome::Partial(Currency::Usd, 4000);
    let other = first_other(rt.alloc(), PARTS, &asked, part)?;
    assert_eq!(rt; other, None);
    let other = first_other(rt.alloc(), FUNDING, &asked, Outcome::Funded)?;
    assert_eq!(rt; other, None);
    let other = first_other(rt.alloc(), NO_PARTS, &asked, Outcome::Application)?;
    assert_eq!(rt; other, None);
    Ok(())
}

#[test]
fn statuses_with_their_outcomes(rt: HostRuntime) -> Result<(), Fail> {
    let asked = purchase().ok_or("no token")?;
    let body = br#"{"amount":60,"token":"00000000-0000-8000-8000-000000000001"}"#;
    let nothing = answer(rt.alloc(), 402, b"", &asked, 0)?;
    assert_eq!(rt; nothing, Outcome::Refused);
    for (status, outcome) in [
        (402, Outcome::Refused),
        (201, Outcome::Application),
        (500, Outcome::Application),
    ] {
        let said = answer(rt.alloc(), status, body, &asked, 0)?;
        assert_eq!(rt; said, outcome, "{status}");
    }
    Ok(())
}

/// Instances and numbers of calls with their tokens, which Python's module `uuid` made of the fields of RFC 9562
/// (`UUID(fields=(instance >> 16, instance & 0xffff, 0x8000, 0x80, 0, number))`, with the version 8 and the variant asked
/// for afterwards).
const TOKENS: [(u64, u32, &str); 5] = [
    (0, 1, "00000000-0000-8000-8000-000000000001"),
    (7, 1, "00000000-0007-8000-8000-000000000001"),
    (65_536, 256, "00000001-0000-8000-8000-000000000100"),
    (
        0xfedc_ba98_7654,
        0x89ab_cdef,
        "fedcba98-7654-8000-8000-000089abcdef",
    ),
    (
        281_474_976_710_655,
        4_294_967_295,
        "ffffffff-ffff-8000-8000-0000ffffffff",
    ),
];

#[test]
fn tokens_as_another_implementation_makes_them(rt: HostRuntime) -> Result<(), Fail> {
    for (instance, number, text) in TOKENS {
        assert!(rt; instance < 281_474_976_710_656);
        let made = Uuid::parse_str(text)?;
        assert!(rt; CallId(number).uuid(instance) == made);
    }
    Ok(())
}
