//! The words of a state's lines.
use iss_model::{
    Account, CallState, CardState, Currency, Failure, How, Method, Reason, Span, Token, UserState,
    Verdict,
};

/// The first word of a text, and the rest.
pub(crate) fn word_of(text: &str) -> (&str, &str) {
    match text.split_once(' ') {
        Some((word, rest)) => (word, rest),
        None => (text, ""),
    }
}

/// What a text says after a prefix that ends in a colon.
fn after_colon(text: &str) -> Option<(&str, &str)> {
    text.split_once(':')
}

pub(crate) fn token(word: &str) -> Option<Token> {
    Token::new(word.as_bytes())
}

pub(crate) fn currency(word: &str) -> Option<Currency> {
    match word {
        "USD" => Some(Currency::Usd),
        "EUR" => Some(Currency::Eur),
        "GBP" => Some(Currency::Gbp),
        "CAD" => Some(Currency::Cad),
        "AUD" => Some(Currency::Aud),
        "JPY" => Some(Currency::Jpy),
        "KWD" => Some(Currency::Kwd),
        _ => None,
    }
}

pub(crate) fn method(word: &str) -> Option<Method> {
    match word {
        "authorization" => Some(Method::Authorization),
        "incremental" => Some(Method::Incremental),
        "void" => Some(Method::Void),
        "standin" => Some(Method::StandIn),
        "reversal" => Some(Method::Reversal),
        "capture" => Some(Method::Capture),
        "refund" => Some(Method::Refund),
        "expiry" => Some(Method::Expiry),
        _ => None,
    }
}

/// `user:TOKEN`, or one of the other three.
pub(crate) fn account(word: &str, currency: Currency) -> Option<Account> {
    match word {
        "gateway" => Some(Account::Gateway(currency)),
        "programme" => Some(Account::Programme(currency)),
        "network" => Some(Account::Network(currency)),
        _ => match after_colon(word)? {
            ("user", name) => Some(Account::User(token(name)?, currency)),
            _ => None,
        },
    }
}

/// `number:N` or `txn:TOKEN`.
pub(crate) fn span(word: &str) -> Option<Span> {
    match after_colon(word)? {
        ("number", number) => Some(Span::Number(number.parse::<i64>().ok()?)),
        ("txn", name) => Some(Span::Txn(token(name)?)),
        _ => None,
    }
}

/// `pending`, `done`, `approved`, `part:CURRENCY:AMOUNT`, or `declined:REASON`. The reasons that name nothing are all `other`.
pub(crate) fn verdict(word: &str) -> Option<Option<Verdict>> {
    match word {
        "pending" => Some(None),
        "done" => Some(Some(Verdict::Done)),
        "approved" => Some(Some(Verdict::Approved)),
        _ => match after_colon(word)? {
            ("declined", why) => Some(Some(Verdict::Declined(reason(why)?))),
            ("part", part) => {
                let (code, amount) = after_colon(part)?;
                let amount = amount.parse::<u64>().ok()?;
                Some(Some(Verdict::Partial(currency(code)?, amount)))
            }
            _ => None,
        },
    }
}

fn reason(word: &str) -> Option<Reason> {
    match word {
        "other" => Some(Reason::UserUnknown),
        "move_card" => Some(Reason::MoveCard(CardState::Active, CardState::Active)),
        "move_user" => Some(Reason::MoveUser(UserState::Active, UserState::Active)),
        _ => match after_colon(word)? {
            ("control", name) => Some(Reason::Control(token(name)?)),
            ("limit", name) => Some(Reason::StandInLimit(token(name)?)),
            _ => None,
        },
    }
}

pub(crate) fn mark(word: &str) -> Option<Option<CallState>> {
    match word {
        "none" => Some(None),
        "asked" => Some(Some(CallState::Asked)),
        "unknown" => Some(Some(CallState::Unknown)),
        _ => Some(Some(CallState::Closed(how(word)?))),
    }
}

fn how(word: &str) -> Option<How> {
    match word {
        "funded" => Some(How::Funded),
        "refused" => Some(How::Refused),
        "abandoned" => Some(How::Abandoned),
        "connection" => Some(How::Failed(Failure::Connection)),
        "timeout" => Some(How::Failed(Failure::Timeout)),
        "application" => Some(How::Failed(Failure::Application)),
        "switch" => Some(How::Failed(Failure::Switch)),
        _ => match after_colon(word)? {
            ("part", amount) => Some(How::Partial(amount.parse::<u64>().ok()?)),
            _ => None,
        },
    }
}
