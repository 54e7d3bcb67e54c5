//! Counters in runs of one control each, written and read.
ghost use Rattle.std.specs.Prelude.{◌≡◌, ◌++◌, ℕ, List, length, Option, OnOk, IfOk};
ghost use Rattle.std.specs.List.{flat_map};
ghost use Rattle.iss_codec.specs.Readers.{taken_field};
ghost use Rattle.iss_model.specs.declared.setting.Window.{Window};
ghost use Rattle.iss_image_lists.specs.Along.{is_other, number_first};
ghost use Rattle.iss_codec.specs.Places.{place_bytes, take_place};
ghost use Rattle.iss_image_lists.specs.ByPlace.{ListTaken, RunTaken, counters_in, own_bytes, run_by_place, runs_in};
ghost use Rattle.iss_image_lists.specs.Runs.{runs_of};
ghost use Rattle.iss_image_lists.specs.Spelling.{counted_bytes, counters_bytes, span_bytes};
ghost use Rattle.iss_image_lists.specs.Taking.{counts_txns, take_counted, take_number_span, take_span, take_txn_span};

use crate::parts::{put_length, put_signed, put_used, take_signed, take_used};
use crate::things::{Takes, take_things};
use iss_codec::{Places, Reader, put_place, put_u32};
use iss_model::{Counter, Span, Token, Window};
use std::alloc::{AllocError, Global};

/// What is known of the windows of controls.
pub trait Windows {
    ghost window_of: { Self → List ℕ → Option Window };

    /// The window of a control, or `None` if there is no such control.
    fn window_of(&self, control: &Token) -> Option<Window>
        ensures { result ≡ window_of self.now control.now };
}

/// Appends counters run by run, after how many runs they are: a run is those next to each other that have one control. Each
/// token is its place.
pub fn put_counters<P: Places>(
    out: &mut Vec<u8>,
    counters: &[Counter],
    places: &P,
) -> Result<(), AllocError>
    ensures spelled { OnOk result (out.new.items ≡ out.old.items ++ counters_bytes (place_bytes (P.tokens places.now)) counters.now) }
{
    put_length(out, count_runs(counters))?;
    put_runs(out, counters, places)
}

fn count_runs(counters: &[Counter]) -> usize
    ensures { result ≡ length (runs_of counters.now) }
{
    let mut left = counters;
    let mut count = 0;
    'runs: while let Some(first) = left.first() {
        let (_, others) = left.split_at(number_first(left, &first.control));
        left = others;
        count += 1;
    }
    count
}

fn put_runs<P: Places>(
    out: &mut Vec<u8>,
    counters: &[Counter],
    places: &P,
) -> Result<(), AllocError>
    ensures { OnOk result (out.new.items ≡ out.old.items ++ flat_map (run_by_place (P.tokens places.now)) (runs_of counters.now)) }
{
    let mut left = counters;
    'runs: while let Some(first) = left.first() {
        let (run, others) = left.split_at(number_first(left, &first.control));
        put_place(out, &first.control, places)?;
        put_run(out, run, places)?;
        left = others;
    }
    Ok(())
}

/// How many counters at the front are of this control.
fn number_first(counters: &[Counter], control: &Token) -> usize
    ensures { result ≡ number_first control.now counters.now }
{
    counters
        .iter()
        .take_while(|counter| counter.control == *control)
        .count()
}

/// The counters of a run.
fn put_run<P: Places>(out: &mut Vec<u8>, counters: &[Counter], places: &P) -> Result<(), AllocError>
    ensures { OnOk result (out.new.items ≡ out.old.items ++ own_bytes (P.tokens places.now) counters.now) }
{
    put_length(out, counters.len())?;
    for counter in counters {
        put_counted(out, counter, places)?;
    }
    Ok(())
}

/// A counter but its control.
fn put_counted<P: Places>(
    out: &mut Vec<u8>,
    counter: &Counter,
    places: &P,
) -> Result<(), AllocError>
    ensures { OnOk result (out.new.items ≡ out.old.items ++ counted_bytes (place_bytes (P.tokens places.now)) counter.now) }
{
    put_place(out, &counter.user, places)?;
    put_span(out, &counter.span, places)?;
    put_used(out, &counter.used)
}

fn put_span<P: Places>(out: &mut Vec<u8>, span: &Span, places: &P) -> Result<(), AllocError>
    ensures { OnOk result (out.new.items ≡ out.old.items ++ span_bytes (place_bytes (P.tokens places.now)) span.now) }
{
    match span {
        Span::Number(number) => put_signed(out, *number),
        Span::Txn(txn) => {
            put_u32(out, 0)?;
            put_place(out, txn, places)
        }
    }
}

/// The counters that come next, with tokens by their places among these. `None` if what comes next is no list of them.
pub fn take_counters<W: Windows>(
    reader: &mut Reader<'_>,
    alloc: Global,
    tokens: &[Token],
    windows: &W,
) -> Result<Option<Vec<Counter>>, AllocError>
    ensures read { IfOk result (ListTaken (counters_in tokens.now (W.window_of windows.now)) reader.old reader.new) }
{
    let Some(count) = reader.take_u32() else {
        return Ok(None);
    };
    take_runs(reader, alloc, count, tokens, windows)
}

/// The counters of that many runs.
fn take_runs<W: Windows>(
    reader: &mut Reader<'_>,
    alloc: Global,
    count: u32,
    tokens: &[Token],
    windows: &W,
) -> Result<Option<Vec<Counter>>, AllocError>
    ensures { IfOk result (ListTaken (runs_in tokens.now (W.window_of windows.now) count) reader.old reader.new) }
{
    let mut counters = Vec::new(alloc);
    let mut before = None;
    for _ in 0..count {
        match take_run(reader, &mut counters, before, tokens, windows)? {
            Some(control) => before = Some(control),
            None => return Ok(None),
        }
    }
    Ok(Some(counters))
}

/// The counters of a run, after those that are there. Its control, or `None` if it is that of the run before it, or if what
/// comes next is no run.
#[tactic(auto, unfolding(crate::specs::Along::take_run_onto))]
fn take_run<W: Windows>(
    reader: &mut Reader<'_>,
    counters: &mut Vec<Counter>,
    before: Option<Token>,
    tokens: &[Token],
    windows: &W,
) -> Result<Option<Token>, AllocError>
    ensures { IfOk result (RunTaken tokens.now (W.window_of windows.now) before counters.old counters.new reader.old reader.new) }
{
    let Some(control) = reader.take_place(tokens) else {
        return Ok(None);
    };
    if !is_other(before, &control) {
        return Ok(None);
    }
    let Some(window) = windows.window_of(&control) else {
        return Ok(None);
    };
    let Some(count) = reader.take_u32() else {
        return Ok(None);
    };
    if count == 0 {
        return Ok(None);
    }
    let taker = CounterTaker {
        control,
        window,
        tokens,
    };
    let done = take_things(reader, counters, count, &taker)?;
    Ok(done.then_some(control))
}

fn is_other(before: Option<Token>, control: &Token) -> bool
    ensures { result ≡ is_other before control.now }
{
    match before {
        Some(before) => before != *control,
        None => true,
    }
}

/// Takes the counters of a control.
#[derive(Drop)]
struct CounterTaker<'a> {
    control: Token,
    window: Window,
    tokens: &'a [Token],
}

impl Takes for CounterTaker<'_> {
    type Thing = Counter;

    ghost take_thing = { λ taker. take_counted (take_place taker.tokens.now) taker.control taker.window };

    #[tactic(auto, unfolding(crate::specs::Taking::take_counted))]
    fn take(&self, reader: &mut Reader<'_>) -> Option<Counter> {
        Some(Counter {
            control: self.control,
            user: reader.take_place(self.tokens)?,
            span: take_span(reader, self.window, self.tokens)?,
            used: take_used(reader)?,
        })
    }
}

/// The span of a counter whose control has this window.
fn take_span(reader: &mut Reader<'_>, window: Window, tokens: &[Token]) -> Option<Span>
    ensures { taken_field result reader.new.bytes.now ≡ take_span (take_place tokens.now) window reader.old.bytes.now }
{
    if counts_txns(window) {
        return take_txn_span(reader, tokens);
    }
    take_number_span(reader)
}

fn counts_txns(window: Window) -> bool
    ensures { result ≡ counts_txns window }
{
    match window {
        Window::Transaction => true,
        Window::Day | Window::Week | Window::Month | Window::Lifetime => false,
    }
}

#[tactic(auto, unfolding(crate::specs::Taking::take_txn_span, iss_codec::specs::Taking::take_formed))]
fn take_txn_span(reader: &mut Reader<'_>, tokens: &[Token]) -> Option<Span>
    ensures { taken_field result reader.new.bytes.now ≡ take_txn_span (take_place tokens.now) reader.old.bytes.now }
{
    let zeros = reader.take_u32()?;
    if zeros != 0 {
        return None;
    }
    Some(Span::Txn(reader.take_place(tokens)?))
}

#[tactic(auto, unfolding(crate::specs::Taking::take_number_span))]
fn take_number_span(reader: &mut Reader<'_>) -> Option<Span>
    ensures { taken_field result reader.new.bytes.now ≡ take_number_span reader.old.bytes.now }
{
    Some(Span::Number(take_signed(reader)?))
}
