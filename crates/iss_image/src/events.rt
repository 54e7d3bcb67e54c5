//! The events of a state: how they are written, and how they are read again.
ghost use Rattle.std.specs.Prelude.{◌≡◌, ◌++◌, OnOk, IfOk};
ghost use Rattle.std.specs.List.{flat_map};
ghost use Rattle.iss_model.specs.Inputs.{with_length};
ghost use Rattle.iss_codec.specs.Places.{place_bytes, take_place};
ghost use Rattle.iss_codec.specs.Readers.{taken_field};
ghost use Rattle.iss_codec.specs.Taking.{take_token};
ghost use Rattle.iss_image_lists.specs.ByPlace.{ListTaken};
ghost use Rattle.iss_image_lists.specs.Readers.{taken_things};
ghost use Rattle.iss_image_lists.specs.Spelling.{list_bytes};
ghost use Rattle.iss_image_lists.specs.Taking.{take_things, take_list};
ghost use Rattle.iss_image.specs.Images.{seen_bytes};
ghost use Rattle.iss_image.specs.TakingEvents.{take_seen};
ghost use Rattle.iss_image.specs.States.{take_events};

use crate::tokens::have_tokens;
use crate::verdicts::{put_mark, put_verdict, take_mark, take_verdict};
use iss_codec::{Places, Reader, put_record_in, put_token, put_u32};
use iss_image_lists::put_length;
use iss_index::Names;
use iss_model::{Seen, Token};
use std::alloc::{AllocError, Global};

/// Appends the table of tokens, each after its length.
pub(crate) fn put_table(out: &mut Vec<u8>, names: &Names) -> Result<(), AllocError>
    ensures { OnOk result (out.new.items ≡ out.old.items ++ list_bytes with_length names.now) }
{
    put_length(out, names.len())?;
    put_names(out, names)
}

fn put_names(out: &mut Vec<u8>, names: &Names) -> Result<(), AllocError>
    ensures { OnOk result (out.new.items ≡ out.old.items ++ flat_map with_length names.now) }
{
    for place in 0..names.len() {
        put_token(out, names.at(place))?;
    }
    Ok(())
}

/// Appends the events after their number, with each token as its place.
pub(crate) fn put_events<P: Places>(
    out: &mut Vec<u8>,
    events: &[Seen],
    places: &P,
) -> Result<(), AllocError>
    ensures { OnOk result (out.new.items ≡ out.old.items ++ list_bytes (seen_bytes (place_bytes (P.tokens places.now))) events.now) }
{
    put_length(out, events.len())?;
    for event in events {
        put_event(out, event, places)?;
    }
    Ok(())
}

fn put_event<P: Places>(out: &mut Vec<u8>, event: &Seen, places: &P) -> Result<(), AllocError>
    ensures { OnOk result (out.new.items ≡ out.old.items ++ seen_bytes (place_bytes (P.tokens places.now)) event.now) }
{
    put_u32(out, event.number)?;
    put_record_in(out, event.body.at, &event.body.input, places)?;
    put_verdict(out, &event.verdict, places)?;
    put_mark(out, event.mark)
}

/// The table of tokens that comes next, each after its length.
#[tactic(auto, unfolding(iss_image_lists::specs::Taking::take_list))]
pub(crate) fn take_table(
    reader: &mut Reader<'_>,
    alloc: Global,
) -> Result<Option<Vec<Token>>, AllocError>
    ensures { IfOk result (λ found. taken_things found reader.new.bytes.now ≡ take_list take_token reader.old.bytes.now) }
{
    match reader.take_u32() {
        Some(count) => take_tokens(reader, alloc, count),
        None => Ok(None),
    }
}

fn take_tokens(
    reader: &mut Reader<'_>,
    alloc: Global,
    count: u32,
) -> Result<Option<Vec<Token>>, AllocError>
    ensures { IfOk result (λ found. taken_things found reader.new.bytes.now ≡ take_things take_token count reader.old.bytes.now) }
{
    let mut tokens = Vec::new(alloc);
    for _ in 0..count {
        match reader.take_token() {
            Some(token) => tokens.push(token)?,
            None => return Ok(None),
        }
    }
    Ok(Some(tokens))
}

/// The events that come next, after their number, if the tokens of their records are these, in the order in which they first
/// stand.
#[tactic(auto, unfolding(crate::specs::States::take_events))]
pub(crate) fn take_events(
    reader: &mut Reader<'_>,
    alloc: Global,
    tokens: &[Token],
) -> Result<Option<Vec<Seen>>, AllocError>
    ensures { IfOk result (λ found. taken_things found reader.new.bytes.now ≡ take_events tokens.now reader.old.bytes.now) }
{
    let Some(events) = take_event_list(reader, alloc, tokens)? else {
        return Ok(None);
    };
    match have_tokens(alloc, tokens, &events)? {
        true => Ok(Some(events)),
        false => Ok(None),
    }
}

#[tactic(auto, unfolding(iss_image_lists::specs::Taking::take_list))]
fn take_event_list(
    reader: &mut Reader<'_>,
    alloc: Global,
    tokens: &[Token],
) -> Result<Option<Vec<Seen>>, AllocError>
    ensures { IfOk result (ListTaken (take_list (take_seen (take_place tokens.now))) reader.old reader.new) }
{
    match reader.take_u32() {
        Some(count) => take_each_event(reader, alloc, tokens, count),
        None => Ok(None),
    }
}

fn take_each_event(
    reader: &mut Reader<'_>,
    alloc: Global,
    tokens: &[Token],
    count: u32,
) -> Result<Option<Vec<Seen>>, AllocError>
    ensures { IfOk result (ListTaken (take_things (take_seen (take_place tokens.now)) count) reader.old reader.new) }
{
    let mut events = Vec::new(alloc);
    for _ in 0..count {
        match take_event(reader, alloc, tokens)? {
            Some(event) => events.push(event)?,
            None => return Ok(None),
        }
    }
    Ok(Some(events))
}

#[tactic(auto, unfolding(crate::specs::TakingEvents::take_seen))]
fn take_event(
    reader: &mut Reader<'_>,
    alloc: Global,
    tokens: &[Token],
) -> Result<Option<Seen>, AllocError>
    ensures { IfOk result (λ found. taken_field found reader.new.bytes.now ≡ take_seen (take_place tokens.now) reader.old.bytes.now) }
{
    let Some(number) = reader.take_u32() else {
        return Ok(None);
    };
    let Some(body) = reader.take_record_in(alloc, tokens)? else {
        return Ok(None);
    };
    let Some(verdict) = take_verdict(reader, tokens, &body.input) else {
        return Ok(None);
    };
    let Some(mark) = take_mark(reader) else {
        return Ok(None);
    };
    Ok(Some(Seen {
        number,
        body,
        verdict,
        mark,
    }))
}
