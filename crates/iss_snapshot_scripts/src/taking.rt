//! Taking a line: what it is told, and the core that is written and made again after it.
ghost use Rattle.std.specs.Prelude.{◌<◌, IsTrue};
ghost use Rattle.iss_model.specs.declared.limits.TheConstants.{MOST_RECORDS};
ghost use Rattle.iss_model.specs.Forms.{is_in_form, is_stamp, is_stamp_or_none};
ghost use Rattle.iss_core.specs.Values.{IsNext};

use iss_core::Core;
use iss_event::{Line, LineFault, Mode, read_line};
use iss_model::limits::MOST_RECORDS;
use iss_model::{Input, Judged, Record};
use iss_snapshot::{image_of, load};
use iss_texts::Texts;
use std::alloc::{AllocError, Global};

/// The instance of a dry run.
pub(crate) const INSTANCE: u64 = 0;

/// Takes a line, and makes the core again that stands after it. `None` if its image doesn't load, or no record is left.
pub(crate) fn take_line(
    alloc: Global,
    core: Core,
    line: &[u8],
    texts: &mut Texts,
) -> Result<Option<Core>, AllocError> {
    if matches!(line, [b'#']) {
        return Ok(Some(Core::new(alloc, INSTANCE)?));
    }
    if core.count() >= MOST_RECORDS {
        return Ok(None);
    }
    let next = answer(alloc, core, line, texts)?;
    let image = image_of(alloc, &next)?;
    load(alloc, &image, INSTANCE)
}

/// Writes what a line is told, and returns the core after it. A blank line is told nothing.
fn answer(alloc: Global, core: Core, line: &[u8], texts: &mut Texts) -> Result<Core, AllocError>
    requires { core.state.count < MOST_RECORDS }
{
    if line.trim_ascii().is_empty() {
        return Ok(core);
    }
    match read_line(alloc, line, Mode::Lines) {
        Ok(said) => decide(alloc, core, &said, texts),
        Err(LineFault::Form(fault)) => {
            texts.put_form(&fault)?;
            Ok(core)
        }
        Err(LineFault::OutOfMemory) => Err(AllocError),
    }
}

/// Takes an input up if it is new, and else writes its answer, after the time if something is due.
fn decide(alloc: Global, core: Core, said: &Line, texts: &mut Texts) -> Result<Core, AllocError>
    requires room { core.state.count < MOST_RECORDS }
    requires input_form { IsTrue (is_in_form said.now.input) }
    requires stamp_form { IsTrue (is_stamp_or_none said.now.at) }
{
    let at = said.at.unwrap_or(0);
    match core.judge(alloc, &said.input, at)? {
        Judged::New(accepted) => {
            let next = take_up(alloc, core, &accepted, texts)?;
            put_time_taken(&said.input, texts)?;
            Ok(next)
        }
        Judged::Clock(clock) => {
            let next = take_up(alloc, core, &clock, texts)?;
            put_answer_left(alloc, &next, &said.input, at, texts)?;
            Ok(next)
        }
        Judged::Told(answer) => {
            texts.put_told(&answer)?;
            Ok(core)
        }
    }
}

/// Takes up a record that is next, and writes the texts of its entries.
fn take_up(
    alloc: Global,
    core: Core,
    accepted: &Record,
    texts: &mut Texts,
) -> Result<Core, AllocError>
    requires room { core.state.count < MOST_RECORDS }
    requires next { IsNext core accepted.now }
    requires input_form { IsTrue (is_in_form accepted.now.input) }
    requires stamp_form { IsTrue (is_stamp accepted.now.at) }
{
    let (next, entries) = core.step(alloc, accepted)?;
    texts.put_entries(&entries, INSTANCE)?;
    Ok(next)
}

/// Writes that a time was taken, if the input is one.
fn put_time_taken(input: &Input, texts: &mut Texts) -> Result<(), AllocError> {
    match input {
        Input::Time => texts.put_time(),
        _ => Ok(()),
    }
}

/// Writes the answer of an input that isn't new once the time is taken up.
fn put_answer_left(
    alloc: Global,
    core: &Core,
    input: &Input,
    at: u64,
    texts: &mut Texts,
) -> Result<(), AllocError>
    requires input_form { IsTrue (is_in_form input.now) }
    requires stamp_form { IsTrue (is_stamp at) }
{
    match core.judge(alloc, input, at)? {
        Judged::Told(answer) => texts.put_told(&answer),
        Judged::New(_) => Ok(()),
        Judged::Clock(_) => Ok(()),
    }
}
