//! Fields of a line: bytes as one JSON object, its members by name, and what their values hold by their forms.
//!
//! A field is required or may be left out, and has a form. What each form takes is a definition in `specs/`.
//!
//! It may cite `iss_model`, `iss_amount`, `fast_float`, `json` and `serde_json`.
//! It must not cite types of line: which fields a line has, and in which order, is for the crates above.
#![tactic(auto)]

mod amounts;
mod codes;
mod fields;
mod fitting;
mod found;
mod members;
mod name;
mod numbers;
mod object;
mod offsets;
mod plain;
mod texts;
mod words;

pub use amounts::{AmountForm, LimitForm};
pub use codes::MccForm;
pub use fields::{Form, FormIf};
pub use found::text;
pub use json::{Scratch, Value};
pub use members::{Whole, flag_member, is_end, number_member, text_member};
pub use name::Name;
pub use numbers::{FlagForm, NumberForm, WholeForm};
pub use object::Object;
pub use offsets::OffsetForm;
pub use texts::{amount_in, currency_in, mcc_in, token_in};
pub use words::{
    CardStateForm, CurrencyForm, FundingForm, OutcomeForm, OutcomeWord, TokenForm, UserStateForm,
    WindowForm,
};
