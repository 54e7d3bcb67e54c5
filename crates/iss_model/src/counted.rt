//! What was counted for velocity controls, and what the programme stood in with: sums of whole spans.
use crate::{Token, Used};

/// The span that a counter adds up over.
#[derive(Clone, Copy)]
pub enum Span {
    /// A day, a week, a month or the lifetime, by its number.
    Number(i64),
    /// A single transaction, by its token.
    Txn(Token),
}

/// What a control has counted of a user in a span.
#[derive(Clone, Copy)]
pub struct Counter {
    pub control: Token,
    pub user: Token,
    pub span: Span,
    pub used: Used,
}

/// What the programme stood in with for a product's user on a day.
#[derive(Clone, Copy)]
pub struct Stood {
    pub product: Token,
    pub user: Token,
    /// A day of UTC, from 1970-01-01 as day 0.
    pub day: i64,
    /// In minor units.
    pub amount: u64,
}
