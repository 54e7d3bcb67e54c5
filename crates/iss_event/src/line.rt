//! What reading a line returns.
use crate::kind::Kind;
use iss_field::{Name, Object};
use iss_model::Input;

/// Where a line comes from.
#[derive(Clone, Copy, Debug, PartialEq, Eq)]
pub enum Mode {
    /// Standard input.
    Lines,
    /// A client's request, which tells neither when it happens nor what a gateway answered.
    Client,
}

/// What a line spells.
#[derive(Drop)]
pub struct Line {
    pub input: Input,
    /// Its stamp, in milliseconds since 1970.
    pub at: Option<u64>,
}

/// A line's object with its type and its stamp. Its other fields aren't read yet.
#[derive(Drop)]
pub(crate) struct OpenLine<'a> {
    pub(crate) kind: Kind,
    /// Its stamp, or that this field is bad.
    pub(crate) stamp: Result<Option<u64>, Name>,
    pub(crate) object: Object<'a>,
}

/// What is wrong with a line.
#[derive(Clone, Copy, Debug, PartialEq, Eq)]
pub enum FormFault {
    /// It has more than 16384 bytes.
    Long,
    /// It isn't one JSON object.
    Json,
    /// The first field that is missing or not of its form.
    Field(Name),
}

/// Why a line wasn't read.
#[derive(Clone, Copy, Debug, PartialEq, Eq)]
pub enum LineFault {
    Form(FormFault),
    OutOfMemory,
}
