//! The entries that a record makes, and the rows of the book.
use crate::{
    Account, CallId, Currency, How, Input, Notice, Opened, Part, Token, Txn, UsageRow, Verdict,
};

/// An entry of the book. Amounts are in the currency's minor units.
#[derive(Drop)]
pub enum Entry {
    /// A setting took effect.
    Conf(Input),
    /// A transaction began.
    Began(Txn),
    /// A call to the gateway was opened.
    Opened(Opened),
    Closed(CallId, How),
    /// An event was decided.
    Decided(Token, Verdict),
    /// Money moved between two accounts, for a transaction if there is one.
    Post {
        from: Account,
        to: Account,
        amount: u64,
        txn: Option<Token>,
    },
    /// A part of what a transaction holds of its user changed.
    Hold {
        txn: Token,
        user: Token,
        currency: Currency,
        part: Part,
        amount: i64,
    },
    Usage(UsageRow),
    /// The programme stood in for the gateway, by a set.
    Stood {
        set: Token,
        product: Token,
        user: Token,
        amount: u64,
        at: u64,
    },
    Notice(Notice),
    /// A notice was acknowledged.
    Acked(u32),
    /// A transaction ended.
    Ended(Token),
}

/// A row of the book: an entry with the number of its record, from 1.
#[derive(Drop)]
pub struct Row {
    pub number: u32,
    pub entry: Entry,
}
