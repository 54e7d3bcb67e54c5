//! How a transaction stands.

/// Whether a transaction is known, and whether it has ended.
#[derive(Clone, Copy, Debug, PartialEq, Eq)]
pub enum TxnState {
    Unknown,
    Live,
    Ended,
}
