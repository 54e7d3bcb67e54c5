//! The state that bytes spell.
ghost use Rattle.std.specs.Prelude.{◌≡◌, IfOk, IfSome, Some, None};
ghost use Rattle.iss_model.specs.declared.state.State.{State};
ghost use Rattle.iss_codec.specs.Readers.{taken_field};
ghost use Rattle.iss_image_lists.specs.ByPlace.{ListTaken, counters_in, notices_in};
ghost use Rattle.iss_states.specs.Showing.{no_state};
ghost use Rattle.iss_codec.specs.Taking.{take_number};
ghost use Rattle.iss_image.specs.Lookups.{window_in, holder_in, is_zero_taken};
ghost use Rattle.iss_image.specs.States.{lists_in, take_state, state_spelled, IsImageOf};

use crate::events::{take_events, take_table};
use crate::lists::Lists;
use crate::lookups::{ControlWindows, TxnHolders};
use crate::spelling::is_bare;
use iss_codec::Reader;
use iss_image_lists::{take_balances, take_counters, take_notices, take_sums, take_txns};
use iss_model::{
    CarriedList, Counter, CounterList, Notice, NoticeList, SaldoList, Seen, SeenList, State,
    StoodList, Token,
};
use std::alloc::{AllocError, Global};

/// The state that these bytes spell, all of them, or `None` exactly if they spell none.
///
/// No bytes spell the state without a record.
pub fn read(alloc: Global, bytes: &[u8]) -> Result<Option<State>, AllocError>
    ensures exact { IfOk result (λ found. found ≡ state_spelled bytes.now) }
    // A state that is read is in image form, and these bytes are its image.
    ensures found { IfOk result (λ found. IfSome found (λ s. IsImageOf s bytes.now)) }
    // A state of which these bytes are the image is read.
    ensures only { (s : State) → IsImageOf s bytes.now → IfOk result (λ found. found ≡ Some s) }
    // If nothing is read, these bytes are the image of no state in image form.
    ensures none { IfOk result (λ found. found ≡ None → (s : State) → IsImageOf s bytes.now → ⊥) }
{
    state_spelled(alloc, bytes)
}

#[tactic(auto, unfolding(crate::specs::States::state_spelled))]
fn state_spelled(alloc: Global, bytes: &[u8]) -> Result<Option<State>, AllocError>
    ensures { IfOk result (λ found. found ≡ state_spelled bytes.now) }
{
    if bytes.is_empty() {
        return Ok(Some(no_state(alloc)));
    }
    let mut reader = Reader::new(bytes);
    let Some(state) = take_state(&mut reader, alloc)? else {
        return Ok(None);
    };
    match reader.is_at_end() && !is_bare(&state) {
        true => Ok(Some(state)),
        false => Ok(None),
    }
}

/// The state without a record.
fn no_state(alloc: Global) -> State
    ensures { result ≡ no_state }
{
    State {
        records: 0,
        now: 0,
        events: SeenList(Vec::new(alloc)),
        txns: CarriedList(Vec::new(alloc)),
        balances: SaldoList(Vec::new(alloc)),
        counters: CounterList(Vec::new(alloc)),
        sums: StoodList(Vec::new(alloc)),
        made: 0,
        notices: NoticeList(Vec::new(alloc)),
    }
}

#[tactic(auto, unfolding(crate::specs::States::take_state))]
fn take_state(reader: &mut Reader<'_>, alloc: Global) -> Result<Option<State>, AllocError>
    ensures { IfOk result (λ found. taken_field found reader.new.bytes.now ≡ take_state reader.old.bytes.now) }
{
    let Some(records) = reader.take_u32() else {
        return Ok(None);
    };
    let Some(now) = reader.take_u64() else {
        return Ok(None);
    };
    let Some(tokens) = take_table(reader, alloc)? else {
        return Ok(None);
    };
    let Some(events) = take_events(reader, alloc, &tokens)? else {
        return Ok(None);
    };
    let Some(lists) = take_lists(reader, alloc, &tokens, &events)? else {
        return Ok(None);
    };
    Ok(Some(State {
        records,
        now,
        events: SeenList(events),
        txns: lists.txns,
        balances: lists.balances,
        counters: lists.counters,
        sums: lists.sums,
        made: lists.made,
        notices: lists.notices,
    }))
}

/// What a state has beside these events.
#[tactic(auto, unfolding(crate::specs::States::take_lists))]
fn take_lists(
    reader: &mut Reader<'_>,
    alloc: Global,
    tokens: &[Token],
    events: &[Seen],
) -> Result<Option<Lists>, AllocError>
    ensures { IfOk result (λ found. taken_field found reader.new.bytes.now ≡ lists_in tokens.now events.now reader.old.bytes.now) }
{
    let Some(txns) = take_txns(reader, alloc, tokens)? else {
        return Ok(None);
    };
    let Some(balances) = take_balances(reader, alloc, tokens)? else {
        return Ok(None);
    };
    let Some(counters) = take_their_counters(reader, alloc, tokens, events)? else {
        return Ok(None);
    };
    let Some(sums) = take_sums(reader, alloc, tokens)? else {
        return Ok(None);
    };
    let Some(made) = reader.take_u32() else {
        return Ok(None);
    };
    let Some(notices) = take_their_notices(reader, alloc, tokens, events)? else {
        return Ok(None);
    };
    Ok(Some(Lists {
        txns: CarriedList(txns),
        balances: SaldoList(balances),
        counters: CounterList(counters),
        sums: StoodList(sums),
        made,
        notices: NoticeList(notices),
    }))
}

/// The counters that come next, with the windows that these events set.
fn take_their_counters(
    reader: &mut Reader<'_>,
    alloc: Global,
    tokens: &[Token],
    events: &[Seen],
) -> Result<Option<Vec<Counter>>, AllocError>
    ensures { IfOk result (ListTaken (counters_in tokens.now (window_in events.now)) reader.old reader.new) }
{
    let windows = ControlWindows::of(alloc, events)?;
    take_counters(reader, alloc, tokens, &windows)
}

/// The notices that come next, with the holders of the transactions that these events ask for. They are looked up only if a
/// notice comes.
fn take_their_notices(
    reader: &mut Reader<'_>,
    alloc: Global,
    tokens: &[Token],
    events: &[Seen],
) -> Result<Option<Vec<Notice>>, AllocError>
    ensures { IfOk result (ListTaken (notices_in tokens.now (holder_in events.now)) reader.old reader.new) }
{
    if has_no_thing(reader.bytes) {
        return take_notices(reader, alloc, tokens, &TxnHolders::none(alloc));
    }
    let holders = TxnHolders::of(alloc, events)?;
    take_notices(reader, alloc, tokens, &holders)
}

/// Whether a list without things comes next.
fn has_no_thing(bytes: &[u8]) -> bool
    ensures { result ≡ is_zero_taken (take_number 4 bytes.now) }
{
    match Reader::new(bytes).take_u32() {
        Some(count) => count == 0,
        None => false,
    }
}
