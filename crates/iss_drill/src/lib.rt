//! The drill: a long input that is made from a number, and goes through a store on a device in memory.
//!
//! It may cite every crate below the top call.
//! It must not cite lines that come in, nor the real outside: its one text goes out on any `Edge`.
#![tactic(auto)]

mod blank;
mod device;
mod events;
mod fault;
mod generator;
mod giving;
pub mod limits;
mod names;
mod report;
mod run;
mod setup;
mod tally;

pub use fault::DrillFault;
pub use run::drill;
