//! What a gateway hears, and what it gives.
ghost use Rattle.std.specs.Prelude.{◌≡◌};
ghost use Rattle.iss_gateway.specs.Messages.{is_within, status_of};

use iss_model::limits::GREATEST_LIMIT;
use iss_model::{Currency, Token};
use uuid::Uuid;

/// A message of the issuer, as far as a gateway goes by it.
#[derive(Clone, Copy)]
pub enum Message {
    /// A request for the funds of a call.
    Ask {
        /// The call's token.
        token: Uuid,
        /// In minor units.
        amount: u64,
        currency: Currency,
        user: Token,
        /// Whether a part of the amount may be funded.
        partial: bool,
    },
    /// A notice, which wants to be acknowledged.
    Note {
        /// From 1, on a count of its own.
        number: u32,
        /// The call that it voids, if it voids one.
        token: Option<Uuid>,
        currency: Currency,
        user: Token,
        /// What goes back to the gateway, in minor units.
        gateway: u64,
    },
}

impl Message {
    /// Whether its amount, or what goes back to the gateway, is at most 10^12 minor units.
    pub fn is_within(&self) -> bool
        ensures { result ≡ is_within self.now }
    {
        match self {
            Message::Ask { amount, .. } => *amount <= GREATEST_LIMIT,
            Message::Note { gateway, .. } => *gateway <= GREATEST_LIMIT,
        }
    }
}

/// What a gateway gives for a message.
#[derive(Clone, Copy, Debug, PartialEq, Eq)]
pub enum Given {
    /// In minor units: the amount that was asked for, or a part of it.
    Funded(u64),
    Refused,
    /// It has acted on a notice.
    Acked,
}

impl Given {
    /// The HTTP status that tells it: 200, or 402 for a refusal.
    pub fn status(self) -> u16
        ensures { result ≡ status_of self }
    {
        match self {
            Given::Funded(_) | Given::Acked => 200,
            Given::Refused => 402,
        }
    }
}
