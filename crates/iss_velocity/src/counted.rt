//! A counter, as it is shown.

use iss_model::{Token, Used, Window};

/// What a control has counted of a user in a span.
#[derive(Clone, Copy)]
pub struct Counted {
    /// The name of the control.
    pub control: Token,
    pub user: Token,
    pub window: Window,
    /// The number of the window. For a control of single transactions it is that of the authorisation's record.
    pub number: i64,
    pub used: Used,
}
