//! Texts that no line of a script shows.
use iss_amount::write;
use iss_event::{acked_line, reply_line, time_line};
use iss_model::{Currency, Reply, Token, Verdict};
use std::test::Fail;

#[test]
fn texts_that_no_script_shows(rt: HostRuntime) -> Result<(), Fail> {
    let least = write(rt.alloc(), i64::MIN, Currency::Usd)?;
    assert_eq!(rt; least.as_str(), "-92233720368547758.08");
    let greatest = write(rt.alloc(), i64::MAX, Currency::Kwd)?;
    assert_eq!(rt; greatest.as_str(), "9223372036854775.807");
    let event = Token::new(b"a1").ok_or("no token")?;
    let part = Reply::Decided(Verdict::Partial(Currency::Usd, 4000));
    let part = reply_line(rt.alloc(), &event, &part)?;
    let text = b"{\"amount\":\"40.00\",\"event\":\"a1\",\"reply\":\"partial\"}\n";
    assert!(rt; part.as_slice() == text.as_slice());
    let acked = acked_line(rt.alloc(), 1)?;
    assert!(rt; acked.as_slice() == b"{\"notice\":1,\"reply\":\"acked\"}\n".as_slice());
    let time = time_line(rt.alloc())?;
    assert!(rt; time.as_slice() == b"{\"reply\":\"time\"}\n".as_slice());
    Ok(())
}
