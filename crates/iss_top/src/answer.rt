//! What a line is told.
ghost use Rattle.std.specs.Prelude.{◌<◌, map, IfOk, OnOk, IsTrue};
ghost use Rattle.iss_model.specs.declared.limits.TheConstants.{MOST_RECORDS};
ghost use Rattle.iss_model.specs.Forms.{is_in_form, is_stamp, is_stamp_or_none};
ghost use Rattle.iss_model.specs.rules.Judging.{judge};
ghost use Rattle.iss_model.specs.state.Cores.{core_keeper};
ghost use Rattle.iss_model.specs.run.Sayings.{answer_left, said_of_time};
ghost use Rattle.iss_model.specs.run.Transcripts.{sound, said_text, after_line};
ghost use Rattle.iss_core.specs.Values.{IsNext};
ghost use Rattle.iss_top.specs.Dry.{reply_of_line};
ghost use Rattle.iss_texts.specs.TextRows.{Gains, HasNone};
ghost use Rattle.iss_top.specs.Tells.{Replies, Records};

use iss_core::Core;
use iss_event::{Line, LineFault, Mode, Scratch, read_line_in};
use iss_model::{Input, Judged, Record};
use iss_texts::Texts;
use std::alloc::{AllocError, Global};

/// The instance whose tokens stand in the texts of a dry run.
pub(crate) const DRY_INSTANCE: u64 = 0;

/// Takes a line that is not blank, writes what it is told into empty texts, and returns the core after it.
pub(crate) fn answer(
    alloc: Global,
    core: Core,
    line: &[u8],
    scratch: &mut Scratch,
    texts: &mut Texts,
) -> Result<Core, AllocError>
    requires room { core.state.count < MOST_RECORDS }
    requires empty { HasNone texts.old }
    ensures { IfOk result (λ next. Replies (reply_of_line core.state line.now) next.state texts.new) }
{
    match read_line_in(scratch, alloc, line, Mode::Lines) {
        Ok(said) => decide(alloc, core, &said, texts),
        Err(LineFault::Form(fault)) => {
            texts.put_form(&fault)?;
            Ok(core)
        }
        Err(LineFault::OutOfMemory) => Err(AllocError),
    }
}

/// Judges the input of a line at its stamp. If it is new, it is a record. Else it gets its answer, after the record of its
/// time if something is due by then.
fn decide(alloc: Global, core: Core, said: &Line, texts: &mut Texts) -> Result<Core, AllocError>
    requires room { core.state.count < MOST_RECORDS }
    requires input_form { IsTrue (is_in_form said.now.input) }
    requires stamp_form { IsTrue (is_stamp_or_none said.now.at) }
    requires empty { HasNone texts.old }
    ensures { IfOk result (λ next. Replies (after_line core_keeper core.state (sound said.now.input said.now.at)) next.state texts.new) }
{
    let at = said.at.unwrap_or(0);
    match core.judge(alloc, &said.input, at)? {
        Judged::New(accepted) => {
            let next = take_up(alloc, core, &accepted, texts)?;
            put_time_taken(&said.input, texts)?;
            Ok(next)
        }
        Judged::Clock(clock) => {
            let next = take_up(alloc, core, &clock, texts)?;
            put_answer_left(alloc, &next, &said.input, at, texts)?;
            Ok(next)
        }
        Judged::Told(answer) => {
            texts.put_told(&answer)?;
            Ok(core)
        }
    }
}

/// Takes up a record that is next, adds the texts of its entries, and returns the core after it.
fn take_up(
    alloc: Global,
    core: Core,
    accepted: &Record,
    texts: &mut Texts,
) -> Result<Core, AllocError>
    requires room { core.state.count < MOST_RECORDS }
    requires next { IsNext core accepted.now }
    requires input_form { IsTrue (is_in_form accepted.now.input) }
    requires stamp_form { IsTrue (is_stamp accepted.now.at) }
    ensures { IfOk result (λ next. Records core.state accepted.now next.state texts.old texts.new) }
{
    let (next, entries) = core.step(alloc, accepted)?;
    texts.put_entries(&entries, DRY_INSTANCE)?;
    Ok(next)
}

/// Adds that a time was taken, if the input is one.
#[tactic(auto, using(iss_texts::proofs::Rows::none_more))]
fn put_time_taken(input: &Input, texts: &mut Texts) -> Result<(), AllocError>
    ensures { OnOk result (Gains (map said_text (said_of_time input.now)) texts.old texts.new) }
{
    match input {
        Input::Time => texts.put_time(),
        _ => Ok(()),
    }
}

/// Adds the answer of an input that isn't new once the time is taken up.
fn put_answer_left(
    alloc: Global,
    core: &Core,
    input: &Input,
    at: u64,
    texts: &mut Texts,
) -> Result<(), AllocError>
    requires input_form { IsTrue (is_in_form input.now) }
    requires stamp_form { IsTrue (is_stamp at) }
    ensures { OnOk result (Gains (map said_text (answer_left (judge core_keeper core.now.state input.now at))) texts.old texts.new) }
{
    match core.judge(alloc, input, at)? {
        Judged::Told(answer) => texts.put_told(&answer),
        Judged::New(_) => Ok(()),
        Judged::Clock(_) => Ok(()),
    }
}
