//! The top call: all that the program does, over an outside that is given to it.
//!
//! It may cite every crate below.
//! It must not cite the real outside: it works over any `Edge`.
#![tactic(auto)]

mod answer;
mod balances;
mod buffer;
mod command;
mod drilling;
mod dry;
mod format;
mod laws;
mod piece;
mod reader;
mod replay;
mod replying;
mod serving;
mod stop;
mod taking;
mod words;
mod workspace;

pub use command::run;
pub use laws::transcripts_continue;
pub use words::{Command, Usage, command_of};
