//! The accounts that posts move money between, and the parts of a hold.
ghost use Rattle.std.specs.Prelude.{◌≡◌};
ghost use Rattle.iss_model.specs.Sums.{account_currency};

use crate::{Currency, Token};

/// An account of the ledger, in one currency.
#[derive(Clone, Copy)]
pub enum Account {
    /// What a user owns.
    User(Token, Currency),
    /// What the customer's funding gateway has paid in, as a negative balance.
    Gateway(Currency),
    /// The card programme's own money.
    Programme(Currency),
    /// What is owed to the card network.
    Network(Currency),
}

impl Account {
    /// The currency of its balance.
    pub fn currency(&self) -> Currency
        ensures { result ≡ account_currency self.now }
    {
        match self {
            Account::User(_, currency)
            | Account::Gateway(currency)
            | Account::Programme(currency)
            | Account::Network(currency) => *currency,
        }
    }
}

/// A part of a hold, by who funds it.
#[derive(Clone, Copy, Debug, PartialEq, Eq)]
pub enum Part {
    /// The gateway.
    G,
    /// The programme, which stood in for the gateway.
    P,
    /// The user's own balance.
    S,
}
