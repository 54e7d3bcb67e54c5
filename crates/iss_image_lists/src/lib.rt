//! What a core keeps beside its events, as bytes: transactions, balances, counters, sums of stand-ins and notices.
//!
//! Each list comes after its length in four bytes. All numbers are big-endian, and a token is its place in a table.
//! `specs/Spelling.antt` is the definition.
//!
//! It may cite `iss_model` and `iss_codec`, and `iss_index` for the places of tokens. It must not cite a state's rules: it knows
//! the bytes of its lists alone.
#![tactic(auto)]

mod balances;
mod counters;
mod laws;
mod notices;
mod parts;
mod sums;
mod things;
mod txns;

pub use balances::{put_balances, take_balances};
pub use counters::{Windows, put_counters, take_counters};
pub use laws::lists_are_read_again;
pub use notices::{Holder, Holders, put_notices, take_notices};
pub use parts::put_length;
pub use sums::{put_sums, take_sums};
pub use txns::{put_txns, take_txns};
