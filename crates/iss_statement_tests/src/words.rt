//! Words of a statement, and whether they are taken.
use iss_model::Currency;
use iss_statement::statement_words;
use std::alloc::{AllocError, Global};
use std::test::Fail;

/// Words, and whether they ask for a statement.
const LISTS: [(&[&str], bool); 26] = [
    (&["u1", "USD", "1970-01-02", "1970-01-02"], true),
    (&["u1", "KWD", "1970-01-01", "9998-12-31"], true),
    (&["u1", "JPY", "2000-02-29", "2000-02-29"], true),
    (&["u1", "USD", "2024-02-29", "2024-03-01"], true),
    (&["u1", "USD", "1970-02-30", "1970-03-01"], false),
    (&["u1", "USD", "1970-01-02", "1970-01-01"], false),
    (&["u1", "USD", "1900-02-29", "1970-01-01"], false),
    (&["u1", "USD", "2100-02-29", "2100-03-01"], false),
    (&["u1", "USD", "1969-12-31", "1970-01-01"], false),
    (&["u1", "USD", "1970-01-01", "9999-01-01"], false),
    (&["u1", "USD", "1970-13-01", "1971-01-01"], false),
    (&["u1", "USD", "1970-00-01", "1971-01-01"], false),
    (&["u1", "USD", "1970-01-00", "1971-01-01"], false),
    (&["u1", "USD", "1970-1-2", "1971-01-01"], false),
    (&["u1", "USD", "19700102", "1971-01-01"], false),
    (&["u1", "USD", "1970/01/02", "1971-01-01"], false),
    (&["u1", "USD", "+970-01-02", "1971-01-01"], false),
    (&["u1", "USD", "1970-01-02T00:00", "1971-01-01"], false),
    (&["u1", "usd", "1970-01-01", "1971-01-01"], false),
    (&["u1", "CHF", "1970-01-01", "1971-01-01"], false),
    (&["u 1", "USD", "1970-01-01", "1971-01-01"], false),
    (&["u-1", "USD", "1970-01-01", "1971-01-01"], true),
    (&["-u1", "USD", "1970-01-01", "1971-01-01"], false),
    (&["-", "USD", "1970-01-01", "1971-01-01"], false),
    (&["u1", "USD", "1970-01-01"], false),
    (&["u1", "USD", "1970-01-01", "1971-01-01", "x"], false),
];

/// The same texts as the words of a run are given.
fn owned(alloc: Global, words: &[&str]) -> Result<Vec<String>, AllocError> {
    let mut texts = Vec::new(alloc);
    for word in words {
        texts.push(String::from_str(alloc, word)?)?;
    }
    Ok(texts)
}

#[test]
fn words_are_taken_or_refused(rt: HostRuntime) -> Result<(), Fail> {
    for (words, taken) in LISTS {
        let texts = owned(rt.alloc(), words)?;
        assert_eq!(rt; statement_words(texts.as_slice()).is_some(), taken);
    }
    Ok(())
}

#[test]
fn days_are_counted_from_1970(rt: HostRuntime) -> Result<(), Fail> {
    let texts = owned(rt.alloc(), &["u1", "EUR", "2000-03-01", "9998-12-31"])?;
    let asked = statement_words(texts.as_slice()).ok_or("no words")?;
    assert!(rt; asked.user.text() == b"u1".as_slice());
    assert!(rt; asked.currency == Currency::Eur);
    assert_eq!(rt; asked.from, 11_017);
    assert_eq!(rt; asked.to, 2_932_531);
    Ok(())
}
