//! The archive of postings: what a keeper of it promises, and what the postings of records are.
//!
//! A keeper holds a head, which says of which device and how many records the postings are, and the postings.
//!
//! It may cite `iss_model`, and of `iss_agreement` the law that book and state agree. It must not cite the core, the store or a
//! database.
#![tactic(auto)]

mod archiving;
mod keeper;
mod law;
mod map_keeper;
mod post;
mod source;
mod stating;
mod stepping;

pub use archiving::{ArchiveFault, keep_up, postings};
pub use keeper::Keeper;
pub use law::{one_record_more_adds_its_own, postings_come_to_the_balance};
pub use map_keeper::MapKeeper;
pub use post::{Head, KeepFault, PostRow};
pub use source::{Source, Stepped};
pub use stating::{added, is_of_user, is_statable, is_users, signed_amount};
pub use stepping::{are_next, keep_steps};
