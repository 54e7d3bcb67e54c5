//! What a core keeps, as lists from which the same core can be made again.
use crate::{Account, CallState, Counter, Notice, Record, Stood, Token, Verdict};
use std::marker::Model;

/// An accepted event, with what came of it.
#[derive(Drop)]
pub struct Seen {
    /// The number of its record, from 1.
    pub number: u32,
    pub body: Record,
    /// `None` while the event is pending.
    pub verdict: Option<Verdict>,
    /// Whether its call is asked, or how it was closed. `None` if there is no call.
    pub mark: Option<CallState>,
}

/// The sums of a transaction, in minor units.
#[derive(Clone, Copy)]
pub struct TxnSums {
    /// Whether it has not ended.
    pub live: bool,
    /// What it holds of the gateway's money.
    pub g: u64,
    /// What it holds of the programme's money.
    pub p: u64,
    /// What it holds of its user's own balance.
    pub s: u64,
    /// What went from its user to the network.
    pub cleared: u64,
    /// What came back from the network to its user.
    pub refunded: u64,
    /// What the programme has paid to its user, less what came back.
    pub paid: u64,
}

/// A transaction with its sums.
#[derive(Clone, Copy)]
pub struct Carried {
    pub txn: Token,
    pub sums: TxnSums,
}

/// An account with its balance.
#[derive(Clone, Copy)]
pub struct Saldo {
    pub account: Account,
    /// In minor units.
    pub amount: i64,
}

/// Events in the order of their records. Contracts see their list.
#[derive(Drop)]
pub struct SeenList(pub Vec<Seen>);

impl Model for SeenList {
    ghost use Rattle.std.specs.Prelude.{List};
    ghost use Rattle.iss_model.specs.declared.state.Seen.{Seen};

    ghost Value = { List Seen };

    ghost view = { λ l. l.0.items };
}

/// Transactions in the order in which they began. Contracts see their list.
#[derive(Drop)]
pub struct CarriedList(pub Vec<Carried>);

impl Model for CarriedList {
    ghost use Rattle.std.specs.Prelude.{List};
    ghost use Rattle.iss_model.specs.declared.state.Carried.{Carried};

    ghost Value = { List Carried };

    ghost view = { λ l. l.0.items };
}

/// Balances in the order of their accounts. Contracts see their list.
#[derive(Drop)]
pub struct SaldoList(pub Vec<Saldo>);

impl Model for SaldoList {
    ghost use Rattle.std.specs.Prelude.{List};
    ghost use Rattle.iss_model.specs.declared.state.Saldo.{Saldo};

    ghost Value = { List Saldo };

    ghost view = { λ l. l.0.items };
}

/// Counters in the order of controls, then of users, then of spans. Contracts see their list.
#[derive(Drop)]
pub struct CounterList(pub Vec<Counter>);

impl Model for CounterList {
    ghost use Rattle.std.specs.Prelude.{List};
    ghost use Rattle.iss_model.specs.declared.counted.Counter.{Counter};

    ghost Value = { List Counter };

    ghost view = { λ l. l.0.items };
}

/// What the programme stood in with, in the order of products, then of users, then of days. Contracts see their list.
#[derive(Drop)]
pub struct StoodList(pub Vec<Stood>);

impl Model for StoodList {
    ghost use Rattle.std.specs.Prelude.{List};
    ghost use Rattle.iss_model.specs.declared.counted.Stood.{Stood};

    ghost Value = { List Stood };

    ghost view = { λ l. l.0.items };
}

/// Notices in the order of their numbers. Contracts see their list.
#[derive(Drop)]
pub struct NoticeList(pub Vec<Notice>);

impl Model for NoticeList {
    ghost use Rattle.std.specs.Prelude.{List};
    ghost use Rattle.iss_model.specs.declared.call.Notice.{Notice};

    ghost Value = { List Notice };

    ghost view = { λ l. l.0.items };
}

/// What a core keeps.
#[derive(Drop)]
pub struct State {
    /// How many records were taken up.
    pub records: u32,
    /// The time that stands, in milliseconds since 1970.
    pub now: u64,
    pub events: SeenList,
    pub txns: CarriedList,
    /// Of each account that a post has changed.
    pub balances: SaldoList,
    /// Of each control, user and span in which something was counted.
    pub counters: CounterList,
    /// Of each product, user and day on which the programme stood in.
    pub sums: StoodList,
    /// How many notices were made.
    pub made: u32,
    /// The notices that aren't acknowledged.
    pub notices: NoticeList,
}
