//! What a gateway has written down.
ghost use Rattle.std.specs.Prelude.{◌≡◌, true};
ghost use Rattle.iss_gateway.specs.Books.{amount_or_none};
ghost use Rattle.iss_gateway.specs.Tables.{is_low};

use iss_model::{Currency, Token};
use uuid::Uuid;

/// How many messages a gateway hears at most.
pub const MOST_HEARD: usize = 1_000_000;

/// What was given at the first ask of a token.
#[derive(Clone, Copy)]
pub struct Promise {
    pub token: Uuid,
    /// In minor units, `None` if it was refused.
    pub funded: Option<u64>,
    pub currency: Currency,
    pub user: Token,
}

/// A notice on which the gateway acted.
#[derive(Clone, Copy)]
pub struct Note {
    pub number: u32,
    /// The token that it voided, if it voided one.
    pub token: Option<Uuid>,
    pub currency: Currency,
    pub user: Token,
    /// What went back to the gateway, in minor units.
    pub gateway: u64,
}

impl Promise {
    /// What was funded, in minor units: 0 if it was refused.
    pub(crate) fn amount(&self) -> i64
        requires { is_low self.now.funded ≡ true }
        ensures { result ≡ amount_or_none self.now.funded }
    {
        match self.funded {
            Some(amount) => amount as i64,
            None => 0,
        }
    }
}
