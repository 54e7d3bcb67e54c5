//! The image of a state.
ghost use Rattle.std.specs.Prelude.{◌≡◌, ◌++◌, OnOk, IfOk};
ghost use Rattle.iss_image.specs.States.{has_none, are_bare, is_bare, lists_by_place, lists_of, parts_bytes, image_of_state};

use crate::events::{put_events, put_table};
use crate::tokens::tokens_first;
use iss_codec::{Places, put_u32, put_u64};
use iss_image_lists::{put_balances, put_counters, put_notices, put_sums, put_txns};
use iss_index::Names;
use iss_model::State;
use std::alloc::{AllocError, Global};

/// The image of a state: the bytes that spell it. `read` reads it again if the state is in image form.
#[tactic(auto, unfolding(crate::specs::States::image_of_state))]
pub fn spell(alloc: Global, state: &State) -> Result<Vec<u8>, AllocError>
    ensures spelled { IfOk result (λ bytes. bytes.items ≡ image_of_state state.entry.now) }
{
    let mut out = Vec::new(alloc);
    if is_bare(state) {
        return Ok(out);
    }
    let names = tokens_first(alloc, &state.events.0, state.events.0.len())?;
    put_parts(&mut out, state, &names)?;
    Ok(out)
}

/// The parts of a state, with each token as its place among these names.
fn put_parts(out: &mut Vec<u8>, state: &State, names: &Names) -> Result<(), AllocError>
    ensures { OnOk result (out.new.items ≡ out.old.items ++ parts_bytes names.now state.entry.now) }
{
    put_u32(out, state.records)?;
    put_u64(out, state.now)?;
    put_table(out, names)?;
    put_events(out, &state.events.0, names)?;
    put_lists(out, state, names)
}

/// What a state has beside its events.
fn put_lists<P: Places>(out: &mut Vec<u8>, state: &State, places: &P) -> Result<(), AllocError>
    ensures { OnOk result (out.new.items ≡ out.old.items ++ lists_by_place (P.tokens places.now) state.entry.now) }
{
    put_txns(out, &state.txns.0, places)?;
    put_balances(out, &state.balances.0, places)?;
    put_counters(out, &state.counters.0, places)?;
    put_sums(out, &state.sums.0, places)?;
    put_u32(out, state.made)?;
    put_notices(out, &state.notices.0, places)
}

/// Whether it is the state without a record.
pub(crate) fn is_bare(state: &State) -> bool
    ensures { result ≡ is_bare state.entry.now }
{
    state.records == 0 && state.now == 0 && has_none(&state.events.0) && are_bare(state)
}

/// Whether its lists but its events have nothing, and no notice was made.
fn are_bare(state: &State) -> bool
    ensures { result ≡ are_bare (lists_of state.entry.now) }
{
    has_none(&state.txns.0)
        && has_none(&state.balances.0)
        && has_none(&state.counters.0)
        && has_none(&state.sums.0)
        && state.made == 0
        && has_none(&state.notices.0)
}

fn has_none<T>(things: &[T]) -> bool
    ensures { result ≡ has_none things.now }
{
    things.is_empty()
}
