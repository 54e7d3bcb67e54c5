//! The laws of the book: what holds of it whatever inputs were taken.
//! Below them are laws of a step: how the calls to the gateway are paid, and what each record decides.
//!
//! It may cite `iss_model`, `iss_acts` and the crates of laws over them, and `iss_book_examples` for the books on which laws are computed.
//! It must not cite any body of the program.
#![tactic(auto)]

mod balances;
mod books;
mod calls;
mod decisions;
mod events;
mod holds;
mod payments;
mod prices;
mod rulings;
mod uses;

pub use balances::{balances_add_up, balances_are_owned};
pub use books::laws_of_worked_books;
pub use calls::calls_are_paid_once;
pub use decisions::records_decide_by_the_rules;
pub use events::events_are_decided;
pub use holds::holds_are_well;
pub use payments::{
    calls_are_closed_once, calls_stay_payable, funded_calls_are_paid, only_purchases_open_calls,
};
pub use prices::{asks_are_paid, operations_are_paid};
pub use rulings::records_rule_as_due;
pub use uses::uses_are_well;
