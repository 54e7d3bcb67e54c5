//! Records as bytes: each record has one spelling, and what is read was spelled so.
//!
//! A record is its kind (one byte), its stamp (eight bytes) and the fields of its kind in a row. All numbers are
//! big-endian. `spelling` in `iss_model` is the definition. The reader and the writers of fields serve other spellings too.
//!
//! It may cite `iss_model`, `iss_index` for the places of tokens, and `byteorder`.
//! It must not cite the journal: it knows one record's bytes alone.
#![tactic(auto)]

mod contents;
mod decoding;
mod encoding;
mod groups;
mod kinds;
mod mentioned;
mod parts;
mod places;
mod reader;
mod spelled;
mod tokens;
mod writing;

pub use contents::contents_are_their_spelling;
pub use decoding::{decode, decode_in};
pub use encoding::{encode, encode_in, put_record, put_record_in};
pub use mentioned::{put_tokens, tokens_of};
pub use places::{Places, put_place};
pub use reader::Reader;
pub use spelled::{fields_are_read_again, records_are_read_again};
pub use writing::{put_currency, put_flag, put_token, put_u16, put_u32, put_u64};
