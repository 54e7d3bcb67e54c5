//! Transactions, and the rows that velocity controls count.
use crate::{Currency, Funding, Token};

/// A card transaction, from its authorisation on. It is named by the authorisation's event token.
#[derive(Clone, Copy)]
pub struct Txn {
    pub token: Token,
    pub card: Token,
    pub user: Token,
    pub product: Token,
    pub currency: Currency,
    pub funding: Funding,
    /// The merchant category code of ISO 18245, 0 to 9999.
    pub mcc: u16,
    /// The merchant's id.
    pub mid: Token,
    /// The number of the authorisation's record.
    pub origin: u32,
    /// The authorisation's stamp, in milliseconds since 1970.
    pub at: u64,
    /// When what it holds is let go, in milliseconds since 1970.
    pub expires: u64,
}

/// A change of what velocity controls count, made at an ask or returned later.
#[derive(Clone, Copy)]
pub struct UsageRow {
    pub txn: Token,
    /// The number of the transaction's authorisation record.
    pub origin: u32,
    pub user: Token,
    pub product: Token,
    pub currency: Currency,
    pub mcc: u16,
    pub mid: Token,
    /// In minor units; negative if use is returned.
    pub amount: i64,
    /// 1 for an authorisation, 0 for what follows it, -1 if one is returned.
    pub count: i64,
    /// In milliseconds since 1970.
    pub at: u64,
}

/// What a control has counted of a user in a window.
#[derive(Clone, Copy)]
pub struct Used {
    /// In minor units.
    pub amount: i64,
    pub count: i64,
}
