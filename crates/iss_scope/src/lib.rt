//! Merchant scopes: the groups of merchant category codes, and whether a control's scope covers a merchant.
//!
//! It may cite `iss_model` and `iss_index`.
//! It must not cite controls, or the other parts of the core.
#![tactic(auto)]

mod groups;
mod scopes;

pub use groups::{GroupFault, Groups};
pub use scopes::covers;
