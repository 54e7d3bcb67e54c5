//! Decisions on events, and the answers to inputs that make no record.
use crate::{CallId, CardState, Currency, How, Record, Token, UserState};

/// Why an event was declined.
#[derive(Clone, Copy)]
pub enum Reason {
    Exists,
    Limit,
    UserUnknown,
    ProductUnknown,
    CardUnknown,
    GroupUnknown,
    ControlFixed,
    SetFixed,
    MoveCard(CardState, CardState),
    MoveUser(UserState, UserState),
    CardState,
    UserState,
    Currency,
    TxnUnknown,
    TxnClosed,
    TxnPending,
    /// The control that the purchase would breach.
    Control(Token),
    InsufficientFunds,
    GatewayDeclined,
    GatewayConnection,
    GatewayTimeout,
    GatewayApplication,
    GatewaySwitch,
    /// The Commando Mode set that didn't allow the amount.
    StandInLimit(Token),
    Reversed,
    Cleared,
    Expired,
    RefundOver,
}

#[derive(Clone, Copy)]
pub enum Verdict {
    Done,
    Approved,
    /// Approved for a part of the amount, in minor units.
    Partial(Currency, u64),
    Declined(Reason),
}

/// The reply to an event.
#[derive(Clone, Copy)]
pub enum Reply {
    Decided(Verdict),
    /// Its gateway call is open.
    Pending,
}

/// The answer to an input that makes no record of its own.
#[derive(Clone, Copy)]
pub enum Answer {
    /// The event stands with the same contents.
    Repeat(Token, Reply),
    /// The event stands with other contents, by that record.
    Conflict(Token, u32),
    /// The call was closed before.
    Late(CallId, How),
    UnknownCall(CallId),
    /// The notice was acknowledged before.
    Already(u32),
    UnknownNotice(u32),
    /// A time at which nothing is due.
    Idle,
    /// The record doesn't fit the device, in bytes.
    Full { free: u64, need: u64 },
    /// As many records stand as there may be.
    Spent,
}

/// What judging an input returns.
#[derive(Drop)]
pub enum Judged {
    /// The input's own record.
    New(Record),
    /// The time record that goes before the answer of an input that isn't new.
    Clock(Record),
    Told(Answer),
}
