//! A row of the archive, and its head.

use iss_model::{Account, Token};

/// Of which device the archive is, and how far it goes.
#[derive(Clone, Copy, Debug)]
pub struct Head {
    pub instance: u64,
    /// How many records the postings are of.
    pub records: u32,
    /// How many postings these made.
    pub posts: u64,
}

/// A posting: money that moved between two accounts.
#[derive(Clone, Copy)]
pub struct PostRow {
    /// The posting's number, from 1.
    pub seq: u64,
    /// The number of its record.
    pub number: u32,
    /// The stamp of its record.
    pub at: u64,
    pub from: Account,
    pub to: Account,
    pub amount: u64,
    pub txn: Option<Token>,
}

/// Why a call on a keeper did nothing, or may have done nothing.
#[derive(Clone, Copy, Debug, PartialEq, Eq)]
pub enum KeepFault {
    Failed,
    OutOfMemory,
}
