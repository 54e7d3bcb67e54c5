//! Events in order: numbers rise, stamps don't fall, records are in form, and tokens are their own.
ghost use Rattle.std.specs.Prelude.{◌≡◌, [], IfOk};
ghost use Rattle.std.specs.List.{list_all};
ghost use Rattle.iss_model.specs.Forms.{is_stamp};
ghost use Rattle.iss_model.specs.texts.Spelling.{is_record};
ghost use Rattle.iss_states.specs.Order.{do_numbers_rise, do_stamps_rise, is_event_record};
ghost use Rattle.iss_sound_events.specs.Alone.{are_in_order};
ghost use Rattle.iss_sound_events.specs.Named.{are_named_apart};

use crate::forms::is_in_form;
use crate::names::are_tokens;
use iss_index::Names;
use iss_model::limits::{LAST_STAMP, MOST_RECORDS};
use iss_model::{Record, Seen, State};
use std::alloc::{AllocError, Global};

/// Whether the events of a state are in order, within its records and its time.
pub(crate) fn are_in_order(alloc: Global, state: &State) -> Result<bool, AllocError>
    ensures { IfOk result (λ ordered. ordered ≡ are_in_order state.entry.now) }
{
    let events = &state.events.0;
    if state.records > MOST_RECORDS || !is_stamp(state.now) {
        return Ok(false);
    }
    if !do_numbers_rise(state.records, events) || !do_stamps_rise(state.now, events) {
        return Ok(false);
    }
    if !are_event_records(events) {
        return Ok(false);
    }
    are_named_apart(alloc, events)
}

fn is_stamp(at: u64) -> bool
    ensures { result ≡ is_stamp at }
{
    at <= LAST_STAMP
}

/// Whether the numbers of events rise from 1 on, up to this number of records.
fn do_numbers_rise(records: u32, events: &[Seen]) -> bool
    ensures { result ≡ do_numbers_rise 0 records events.now }
{
    let mut last = 0;
    for event in events {
        if event.number <= last || event.number > records {
            return false;
        }
        last = event.number;
    }
    true
}

/// Whether the stamps of events don't fall, up to this time.
fn do_stamps_rise(now: u64, events: &[Seen]) -> bool
    ensures { result ≡ do_stamps_rise 0 now events.now }
{
    let mut last = 0;
    for event in events {
        if event.body.at < last || event.body.at > now {
            return false;
        }
        last = event.body.at;
    }
    true
}

fn are_event_records(events: &[Seen]) -> bool
    ensures { result ≡ list_all is_event_record events.now }
{
    events.iter().all(is_event_record)
}

/// Whether the record of an event is in form, and is of an event.
fn is_event_record(event: &Seen) -> bool
    ensures { result ≡ is_event_record event.now }
{
    event.body.input.event().is_some() && is_record(&event.body)
}

fn is_record(body: &Record) -> bool
    ensures { result ≡ is_record body.now }
{
    is_stamp(body.at) && is_in_form(&body.input) && are_tokens(&body.input)
}

/// Whether each event has a token, none two the same.
fn are_named_apart(alloc: Global, events: &[Seen]) -> Result<bool, AllocError>
    ensures { IfOk result (λ apart. apart ≡ are_named_apart [] events.now) }
{
    let mut names = Names::with_room(alloc, events.len())?;
    for event in events {
        let Some(token) = event.body.input.event() else {
            return Ok(false);
        };
        if names.find(&token).is_some() {
            return Ok(false);
        }
        names.add(&token)?;
    }
    Ok(true)
}
