//! The model of the issuer: its types, and the definitions of its book that every contract cites.
//!
//! A *record* is an accepted input with its stamp. A *row* of the *book* is an entry with the number of its record.
//! What a record does to the book, and what is sent, are definitions in `specs/`.
//!
//! It may cite `uuid`.
//! It must not cite any other crate of the workspace, and nothing of files, lines or HTTP.
#![tactic(auto)]

mod account;
mod call;
mod counted;
mod currency;
mod decision;
mod entry;
mod input;
pub mod layout;
pub mod limits;
mod mccs;
mod named;
mod numbered;
mod setting;
mod state;
mod token;
mod txn;
mod words;

pub use account::{Account, Part};
pub use call::{CallId, CallState, Failure, How, Method, Notice, Opened};
pub use counted::{Counter, Span, Stood};
pub use currency::Currency;
pub use decision::{Answer, Judged, Reason, Reply, Verdict};
pub use entry::{Entry, Row};
pub use input::{Input, Outcome, Record, copies_are_equal};
pub use mccs::Mccs;
pub use named::Named;
pub use numbered::Numbered;
pub use setting::{
    Association, Card, CardState, Control, Funding, Moved, Product, Scope, Set, User, UserState,
    Window,
};
pub use state::{
    Carried, CarriedList, CounterList, NoticeList, Saldo, SaldoList, Seen, SeenList, State,
    StoodList, TxnSums,
};
pub use token::Token;
pub use txn::{Txn, UsageRow, Used};
