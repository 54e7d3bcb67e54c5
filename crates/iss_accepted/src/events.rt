//! The accepted events.
ghost use Rattle.std.specs.Prelude.{◌≡◌, Some, None, IsTrue, IsSome, IfOk, OnOk, OnErr, is_some, find, map};
ghost use Rattle.std.specs.Str.{bytes_eq};
ghost use Rattle.iss_model.specs.Forms.{is_stamp, is_in_form};
ghost use Rattle.iss_model.specs.Inputs.{is_event};
ghost use Rattle.iss_model.specs.rules.Facts.{event_reply};
ghost use Rattle.iss_accepted.specs.Values.{IsUnknown, no_events, events_facts, answer_in, seen_among, with_decision, with_input};

use crate::row::{push, seen_rows};
use crate::short::{ShortRow, ShortVerdict, shortened, whole_row};
use iss_codec::put_record;
use iss_index::Names;
use iss_model::{Answer, CallState, Input, Reply, Seen, Token, Verdict};
use std::alloc::{AllocError, Global};
use std::collections::BTreeMap;
use std::marker::Model;

/// Accepted events in the order of their records, each with its input and its decision. Contracts see the list of the
/// events, and that of the decisions in the order in which they were made.
///
/// The row of an event stands at the place of its name.
#[derive(Drop)]
pub struct Events {
    rows: Vec<ShortRow>,
    // The verdicts that a row's code tells by their place here.
    others: Vec<Verdict>,
    bytes: Vec<u8>,
    names: Names,
    decided: Vec<u32>,
    spelled: Vec<u8>,
}

impl Model for Events {
    ghost use Rattle.iss_accepted.specs.Values.{EventsNow};

    ghost Value = { EventsNow };

    ghost use Rattle.iss_accepted.specs.Kept.{events_now};
    ghost use Rattle.iss_accepted.specs.Short.{standings_in, IsKeptShort};

    ghost view = { λ e. events_now (standings_in e.bytes.items e.others.items e.rows.items) e.decided.items };

    ghost invariant = { λ e. IsKeptShort e.bytes.items e.others.items e.rows.items e.names e.decided.items };
}

impl Events {
    /// No event. Nothing is allocated.
    pub fn new(alloc: Global) -> Events
        ensures { result ≡ no_events }
    {
        Events {
            rows: Vec::new(alloc),
            others: Vec::new(alloc),
            bytes: Vec::new(alloc),
            names: Names::new(alloc),
            decided: Vec::new(alloc),
            spelled: Vec::new(alloc),
        }
    }

    /// No event, with room for this number of them. More may be added too.
    pub fn with_room(alloc: Global, count: usize) -> Result<Events, AllocError>
        ensures { IfOk result (λ events. events ≡ no_events) }
    {
        Ok(Events {
            rows: Vec::with_capacity(alloc, count)?,
            others: Vec::new(alloc),
            bytes: Vec::new(alloc),
            names: Names::with_room(alloc, count)?,
            decided: Vec::with_capacity(alloc, count)?,
            spelled: Vec::new(alloc),
        })
    }

    /// Whether the event is accepted.
    pub fn has(&self, event: &Token) -> bool
        ensures { result ≡ is_some (find (λ a. is_event event.now a.input) self.now.accepted) }
    {
        self.names.find(event).is_some()
    }

    /// The reply to an event that is accepted.
    pub fn reply(&self, event: &Token) -> Option<Reply>
        ensures { result ≡ event_reply (events_facts self.now) event.now }
    {
        let Some(place) = self.names.find(event) else {
            return None;
        };
        let row = whole_row(&self.rows, place as usize, &self.others, self.bytes.len());
        Some(row.reply())
    }

    /// The answer of an input if it is an event that stands. If all its fields are the same, it is the reply again.
    /// Otherwise it is the number of its first record.
    pub fn answer(&self, alloc: Global, input: &Input) -> Result<Option<Answer>, AllocError>
        requires form { IsTrue (is_in_form input.now) }
        ensures { IfOk result (λ told. told ≡ answer_in (events_facts self.now) input.now) }
    {
        let Some(token) = input.event() else {
            return Ok(None);
        };
        let Some(place) = self.names.find(&token) else {
            return Ok(None);
        };
        let row = whole_row(&self.rows, place as usize, &self.others, self.bytes.len());
        let told = row.answer(alloc, &self.bytes, &token, input)?;
        Ok(Some(told))
    }

    /// The events as they stand, in the order of their records, each with the mark of its call among `marks`.
    pub fn seen(
        &self,
        alloc: Global,
        marks: &BTreeMap<Token, CallState>,
    ) -> Result<Vec<Seen>, AllocError>
        ensures { IfOk result (λ v. v.items ≡ map (seen_among self.now marks.now) self.now.accepted) }
    {
        seen_rows(alloc, &self.rows, &self.others, &self.bytes, marks)
    }

    /// Adds the input of a record, if it is an event. If an allocation fails, all stays as it was, and so if
    /// 2^32 - 1 events stand, as many as places are kept for.
    #[inline(always)]
    pub fn add(&mut self, number: u32, at: u64, input: &Input) -> Result<(), AllocError>
        requires form { IsTrue (is_in_form input.now) }
        requires stamp { IsTrue (is_stamp at) }
        requires new { IsUnknown self.old input.now }
        ensures added { OnOk result (self.new ≡ with_input self.old number at input.now) }
        ensures refused { OnErr result (self.new ≡ self.old) }
    {
        let Some(token) = input.event() else {
            return Ok(());
        };
        self.spelled.clear();
        put_record(&mut self.spelled, at, input)?;
        self.rows.reserve(1)?;
        self.bytes.reserve(self.spelled.len())?;
        self.names.add(&token)?;
        let start = self.bytes.len();
        self.bytes.extend_from_slice(&self.spelled)?;
        push(
            &mut self.rows,
            &ShortRow {
                start,
                number,
                verdict: ShortVerdict::undecided(),
            },
        )?;
        Ok(())
    }

    /// Notes how an accepted event is decided. If an allocation fails, all stays as it was, and so if 2^32 - 3 verdicts other
    /// than the two that are frequent stand, as many as codes are kept for.
    pub fn decide(&mut self, event: &Token, verdict: Verdict) -> Result<(), AllocError>
        requires accepted { IsSome (find (λ a. is_event event.now a.input) self.old.accepted) }
        requires undecided { find (λ d. bytes_eq d.event event.now) self.old.decisions ≡ None }
        ensures decided { OnOk result (self.new ≡ with_decision self.old event.now verdict) }
        ensures refused { OnErr result (self.new ≡ self.old) }
    {
        let Some(place) = self.names.find_last(event) else {
            return Ok(());
        };
        let verdict = shortened(&mut self.others, &verdict)?;
        self.decided.push(place)?;
        self.rows[place as usize].verdict = verdict;
        Ok(())
    }
}
