//! Event lines: the inputs that lines spell, and the lines that are sent.
//!
//! A line is one JSON object. What its bytes mean, and which fault a bad line has, are definitions in `specs/`,
//! apart from the code.
//!
//! It may cite `iss_model`, `iss_amount`, `iss_field`, `itoa`, `json` and `serde_json`.
//! It must not cite the core: it reads and writes lines, and decides nothing.
#![tactic(auto)]

mod inputs;
mod kind;
mod line;
mod payments;
mod plain;
mod reading;
mod reason;
mod report;
mod settings;
mod writing;

pub use iss_field::{Name, Scratch};
pub use line::{FormFault, Line, LineFault, Mode};
pub use reading::{read_line, read_line_in};
pub use report::{balance_line, count_line};
pub use writing::{
    acked_line, form_line, put_acked, put_form, put_reply, put_time, put_told, reply_line,
    time_line, told_line,
};
