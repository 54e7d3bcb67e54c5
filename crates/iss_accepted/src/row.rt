//! The row of an accepted event.
ghost use Rattle.std.specs.Prelude.{◌≡◌, ◌++◌, ◌∷◌, [], ◌≤◌, IsTrue, IfOk, OnOk, OnErr, length, map};
ghost use Rattle.std.specs.BTreeMap.{get};
ghost use Rattle.std.specs.Cmp.Lexicographic.{slice_cmp};
ghost use Rattle.std.specs.List.{AllByRecursion, list_all};
ghost use Rattle.std.specs.Option.{option_and_then};
ghost use Rattle.std.specs.Ordering.{nat_cmp};
ghost use Rattle.std.specs.Str.{bytes_eq};
ghost use Rattle.std.specs.Vec.{vec_len, vec_capacity};
ghost use Rattle.iss_model.specs.Inputs.{event_token};
ghost use Rattle.iss_model.specs.Tokens.{is_token};
ghost use Rattle.iss_model.specs.rules.Facts.{reply_of_verdict};
ghost use Rattle.iss_model.specs.texts.Spelling.{spelling, tokens_of};
ghost use Rattle.iss_accepted.specs.Kept.{IsSpelledIn, row_answer, row_seen, stamp_taken};
ghost use Rattle.iss_accepted.specs.Short.{rows_of};

use crate::short::{ShortRow, whole_row};
use iss_codec::{Reader, decode, put_record};
use iss_model::{Answer, CallState, Input, Reply, Seen, Token, Verdict};
use std::alloc::{AllocError, Global};
use std::collections::BTreeMap;

/// An accepted event: its record's number, where its record's bytes begin and end, and its verdict if it is decided.
#[derive(Clone, Copy)]
pub(crate) struct EventRow {
    pub(crate) number: u32,
    pub(crate) start: usize,
    pub(crate) end: usize,
    pub(crate) verdict: Option<Verdict>,
}

impl EventRow {
    /// The verdict, or that the event's call is open.
    pub(crate) fn reply(&self) -> Reply
        ensures { result ≡ reply_of_verdict self.now.verdict }
    {
        match self.verdict {
            None => Reply::Pending,
            Some(verdict) => Reply::Decided(verdict),
        }
    }

    /// The answer of an input of this event's token.
    pub(crate) fn answer(
        &self,
        alloc: Global,
        bytes: &[u8],
        token: &Token,
        input: &Input,
    ) -> Result<Answer, AllocError>
        requires { IsSpelledIn bytes.now self.now }
        ensures told { IfOk result (λ told. told ≡ row_answer bytes.now self.now token.now input.now) }
        ensures tokens { OnOk result (IsTrue (list_all is_token (tokens_of input.now))) }
    {
        let spelled = &bytes[self.start..self.end];
        let Some(at) = stamp_of(spelled) else {
            unreachable!()
        };
        if is_spelling(alloc, spelled, at, input)? {
            Ok(Answer::Repeat(*token, self.reply()))
        } else {
            Ok(Answer::Conflict(*token, self.number))
        }
    }

    /// The event as it stands, with the mark of its call among `marks`.
    fn seen(
        &self,
        alloc: Global,
        bytes: &[u8],
        marks: &BTreeMap<Token, CallState>,
    ) -> Result<Seen, AllocError>
        requires { IsSpelledIn bytes.now self.now }
        ensures { IfOk result (λ seen. seen ≡ row_seen bytes.now marks.now self.now) }
    {
        let Some(body) = decode(alloc, &bytes[self.start..self.end])? else {
            unreachable!()
        };
        let mark = mark_of(marks, &body.input);
        Ok(Seen {
            number: self.number,
            body,
            verdict: self.verdict,
            mark,
        })
    }
}

/// The mark of an input's event among `marks`, if it is an event that has one.
fn mark_of(marks: &BTreeMap<Token, CallState>, input: &Input) -> Option<CallState>
    ensures { result ≡ option_and_then (get (slice_cmp nat_cmp) marks.now) (event_token input.now) }
{
    let event = input.event()?;
    marks.get(&event).copied()
}

/// The events of rows as they stand, each with the mark of its call among `marks`.
pub(crate) fn seen_rows(
    alloc: Global,
    rows: &[ShortRow],
    others: &[Verdict],
    bytes: &[u8],
    marks: &BTreeMap<Token, CallState>,
) -> Result<Vec<Seen>, AllocError>
    requires { AllByRecursion (IsSpelledIn bytes.now) (rows_of others.now (length bytes.now) rows.now) }
    ensures { IfOk result (λ v. v.items ≡ map (row_seen bytes.now marks.now) (rows_of others.now (length bytes.now) rows.now)) }
{
    let mut seen = Vec::new(alloc);
    for place in 0..rows.len() {
        let row = whole_row(rows, place, others, bytes.len());
        seen.push(row.seen(alloc, bytes, marks)?)?;
    }
    Ok(seen)
}

/// The stamp at the start of a record's bytes, after its kind.
fn stamp_of(spelled: &[u8]) -> Option<u64>
    ensures { result ≡ stamp_taken spelled.now }
{
    let mut reader = Reader::new(spelled);
    reader.take_byte()?;
    reader.take_stamp()
}

/// Whether these bytes are the spelling of the record of that stamp and input.
fn is_spelling(alloc: Global, bytes: &[u8], at: u64, input: &Input) -> Result<bool, AllocError>
    ensures same { IfOk result (λ same. same ≡ bytes_eq bytes.now (spelling (record { at = at; input = input.now }))) }
    ensures tokens { OnOk result (IsTrue (list_all is_token (tokens_of input.now))) }
{
    let mut again = Vec::new(alloc);
    put_record(&mut again, at, input)?;
    Ok(bytes == again.as_slice())
}

/// Adds a thing after the others. With room for it, it can't fail.
pub(crate) fn push<T: Copy + Drop>(things: &mut Vec<T>, thing: &T) -> Result<(), AllocError>
    ensures pushed { OnOk result (things.new.items ≡ things.old.items ++ thing.now ∷ []) }
    ensures refused { OnErr result (things.new.items ≡ things.old.items) }
    ensures full { OnErr result (vec_capacity things.old ≤ vec_len things.old) }
{
    things.push(*thing)?;
    Ok(())
}
