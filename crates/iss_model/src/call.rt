//! Calls to the customer's gateway, and the notices that it is sent.
ghost use Rattle.std.specs.Prelude.{◌≡◌, ◌<◌};
ghost use Rattle.iss_model.specs.declared.limits.TheConstants.{INSTANCES};
ghost use Rattle.iss_model.specs.texts.CallTokens.{call_uuid};

use crate::{Currency, Token};
use uuid::Uuid;

/// A call's number, from 1.
#[derive(Clone, Copy, Debug, PartialEq, Eq)]
pub struct CallId(pub u32);

impl CallId {
    /// The call's token: a UUID of RFC 9562, version 8, with the instance in its first 48 bits and the number in its last 62.
    pub fn uuid(self, instance: u64) -> Uuid
        requires { instance < INSTANCES }
        ensures { result ≡ call_uuid instance self.0 }
    {
        let [_, _, a, b, c, d, e, f] = instance.to_be_bytes();
        let [s, t, u, v, w, x, y, z] = ((1 << 63) + u64::from(self.0)).to_be_bytes();
        Uuid::from_bytes([a, b, c, d, e, f, 0x80, 0, s, t, u, v, w, x, y, z])
    }
}

/// What a message to the gateway is about.
#[derive(Clone, Copy, Debug, PartialEq, Eq)]
pub enum Method {
    Authorization,
    Incremental,
    Void,
    StandIn,
    Reversal,
    Capture,
    Refund,
    Expiry,
}

/// A call as it was opened.
#[derive(Clone, Copy)]
pub struct Opened {
    pub call: CallId,
    /// The event that waits for the answer.
    pub event: Token,
    pub txn: Token,
    pub method: Method,
    pub card: Token,
    pub user: Token,
    pub currency: Currency,
    pub mcc: u16,
    pub mid: Token,
    /// In minor units.
    pub amount: u64,
    /// Whether the gateway may fund a part of the amount.
    pub partial: bool,
    /// In milliseconds since 1970, like the deadline.
    pub at: u64,
    /// From then on the call has timed out.
    pub deadline: u64,
}

/// A notice to the gateway, which needs no answer but an acknowledgement.
#[derive(Clone, Copy)]
pub struct Notice {
    /// From 1, on a count of its own.
    pub number: u32,
    pub method: Method,
    pub txn: Token,
    pub user: Token,
    pub currency: Currency,
    /// The call that a void ends.
    pub call: Option<CallId>,
    /// In minor units, like the gateway's part.
    pub amount: u64,
    /// The part of the amount that goes back to the gateway.
    pub gateway: u64,
}

/// Why no answer of the gateway decides.
#[derive(Clone, Copy, Debug, PartialEq, Eq)]
pub enum Failure {
    /// It couldn't be reached.
    Connection,
    /// It was late.
    Timeout,
    /// What it said was no answer.
    Application,
    /// The product's switch is on, so it wasn't asked.
    Switch,
}

/// How a call was closed.
#[derive(Clone, Copy, Debug, PartialEq, Eq)]
pub enum How {
    Funded,
    /// The gateway funded a part of the amount, in minor units.
    Partial(u64),
    Refused,
    Failed(Failure),
    Abandoned,
}

#[derive(Clone, Copy, Debug, PartialEq, Eq)]
pub enum CallState {
    Unknown,
    Asked,
    Closed(How),
}
