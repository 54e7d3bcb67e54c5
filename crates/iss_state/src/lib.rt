//! What holds of every state that records make: what entries do to its sums, their bounds, its numbers, its docket, and
//! what transactions hold. The docket is of transactions, calls and decisions.
//!
//! It may cite `iss_model`, `iss_acts`, and `iss_agreement` for what legal records are on a core.
//! It must not cite any body: its laws are of definitions.
//!
//! `IsWell s` holds of each state that legal records leave, and a step keeps it. What `well : IsWell s` says is cited by its
//! fields: `well.accounted event accepted`, and those of its docket. These are `well.docket.live n c asked`,
//! `well.docket.waits n c asked`, `well.docket.calls.{numbers, once, alone, events}`,
//! `well.docket.txns.{tokens, events, products}` and `well.docket.decisions.{once, events}`.
//! `specs/Well.antt` has a sentence on each. There `asked` is
//! `record { stands = ..; asked = .. }`, of the call of a number.
//!
//! `IsHeldWell s` is kept likewise. What `held : IsHeldWell s` says is `held.not_negative token part`,
//! `held.ended token dead` and `held.pending number call asked first`. `specs/Holdings.antt` has a sentence on each.
//!
//! Whoever enters entries one by one carries `HasTakenUp` from the record that is taken up through what is due
//! (`entries_are_allowed`). What each entry needs is read off `AreAllowed` and `AllKeepHeld`: a new token, or a field of
//! `MayOpen`, `MayClose`, `MayDecide` or `MayEnd`.
#![tactic(auto)]

mod costs;
mod dockets;
mod entering;
mod entries;
mod few;
mod forms;
mod holdings;
mod names;
mod numbers;
mod pending;
mod pieces;
mod states;
mod sweeps;

pub use costs::inputs_are_paid;
pub use dockets::{allowed_entries_keep_dockets_well, events_of_a_docket_are_decided_once};
pub use entering::entries_can_be_entered;
pub use entries::{entries_move_sums, entries_move_what_is_at_stake};
pub use few::few_numbers_are_given;
pub use forms::{entries_are_in_form, parts_are_small, states_stay_in_form};
pub use holdings::{entries_keep_holdings, holdings_are_well, transactions_end_once};
pub use names::transactions_are_found_by_name;
pub use numbers::{calls_are_numbered, notices_are_numbered, transactions_have_names};
pub use pending::{
    accepted_events_are_decided, calls_are_well, entries_are_allowed, events_are_decided_once,
};
pub use pieces::pieces_are_paid;
pub use states::{
    due_items_keep_what_is_sound, states_are_sound, steps_keep_what_is_sound, sums_are_small,
};
pub use sweeps::{answers_are_judged, due_items_close_calls};
