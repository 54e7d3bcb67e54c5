//! The decision engine of the issuer: what stands, whether an input is new, and what a record does.
//!
//! An amount is a whole number of minor units, a stamp a number of milliseconds since 1970.
//!
//! A record's entries are made once, as one list, by what mirrors the rules, and each entry is entered once (`entering`).
//! First come those of each due thing (`due`), and then the record's own (`entries`).
//!
//! A core is made again from what it keeps as lists (`restoring`): settings are judged and taken up from the events
//! (`settings_again`), and all other parts are made again by crates below.
//!
//! It may cite `iss_model`, its parts, `iss_restored` and `iss_restored_lists`, which make these again, `iss_known`, `iss_sound`,
//! and definitions and laws of the crates of laws. It must not cite bytes: lines, texts, the outside.
#![tactic(auto)]

mod answers;
mod asks;
mod configuring;
mod due;
mod engine;
mod entering;
mod entries;
mod judging;
mod looking;
mod operations;
mod pieces;
mod purchases;
mod reasons;
mod restoring;
mod settings;
mod settings_again;
mod showing;
mod state;
mod stepping;
mod views;

pub use engine::Core;
