//! Reading a line.
ghost use Rattle.std.specs.Prelude.{◌≡◌, ◌≤◌, length, IfOk, IsTrue};
ghost use Rattle.iss_model.specs.Forms.{is_in_form, is_stamp_or_none};
ghost use Rattle.iss_field.specs.Seen.{seen};
ghost use Rattle.iss_event.specs.Kinds.{may_lack_stamp};
ghost use Rattle.iss_event.specs.Readings.{IsReadAsLine, Opens, opened_as, as_fault, stamp_said, opened_line, said_line, line_read};

use crate::inputs::input_of_kind;
use crate::kind::{Kind, KindForm};
use crate::line::OpenLine;
use crate::plain::plain_line;
use crate::{FormFault, Line, LineFault, Mode};
use iss_field::{Name, Object, Scratch, WholeForm};
use iss_model::limits::{LAST_STAMP, LONGEST_LINE};
use std::alloc::Global;

/// What a line spells, without the line feed that ends it, or its first fault. That is `Long`, `Json`, or the first bad
/// field in the order `type`, `at` and then that of its type. A line is one JSON object (RFC 8259).
pub fn read_line(alloc: Global, line: &[u8], mode: Mode) -> Result<Line, LineFault>
    ensures read { IsReadAsLine (line_read mode line.now) result }
    ensures input_form { IfOk result (λ said. IsTrue (is_in_form said.input)) }
    ensures stamp_form { IfOk result (λ said. IsTrue (is_stamp_or_none said.at)) }
    ensures least { IfOk result (λ said. 4 ≤ length line.now) }
{
    let mut scratch = Scratch::new(alloc);
    read_line_in(&mut scratch, alloc, line, mode)
}

/// What a line spells, read over a scratch that is kept from line to line.
pub fn read_line_in(
    scratch: &mut Scratch,
    alloc: Global,
    line: &[u8],
    mode: Mode,
) -> Result<Line, LineFault>
    ensures read { IsReadAsLine (line_read mode line.now) result }
    ensures input_form { IfOk result (λ said. IsTrue (is_in_form said.input)) }
    ensures stamp_form { IfOk result (λ said. IsTrue (is_stamp_or_none said.at)) }
    ensures least { IfOk result (λ said. 4 ≤ length line.now) }
{
    if let Some(said) = plain_line(mode, line) {
        return line_or_fault(said);
    }
    match open_line(scratch, alloc, line, mode) {
        Ok(open) => open.read(alloc),
        Err(fault) => Err(fault),
    }
}

fn line_or_fault(said: Result<Line, Name>) -> Result<Line, LineFault>
    ensures { IsReadAsLine (as_fault said) result }
{
    match said {
        Ok(line) => Ok(line),
        Err(name) => Err(LineFault::Form(FormFault::Field(name))),
    }
}

/// The object of a line, with its type and its stamp, or the first fault before its other fields.
#[tactic(auto, unfolding(crate::specs::Readings::opened_line, crate::specs::Readings::opened_object))]
fn open_line<'a>(
    scratch: &'a mut Scratch,
    alloc: Global,
    line: &'a [u8],
    mode: Mode,
) -> Result<OpenLine<'a>, LineFault>
    ensures { Opens (opened_line mode line.now) result }
{
    if line.len() > LONGEST_LINE {
        return Err(LineFault::Form(FormFault::Long));
    }
    match Object::read(alloc, scratch, line) {
        Ok(Some(object)) => match object.required(Name::Kind, KindForm(mode)) {
            Ok(kind) => Ok(OpenLine {
                kind,
                stamp: stamp_said(mode, kind, &object),
                object,
            }),
            Err(name) => Err(LineFault::Form(FormFault::Field(name))),
        },
        Ok(None) => Err(LineFault::Form(FormFault::Json)),
        Err(_) => Err(LineFault::OutOfMemory),
    }
}

fn stamp_said(mode: Mode, kind: Kind, line: &Object<'_>) -> Result<Option<u64>, Name>
    ensures { result ≡ stamp_said mode kind (seen line.now.value) }
{
    match mode {
        Mode::Lines => line.required_unless(
            may_lack_stamp(kind),
            Name::At,
            WholeForm(0, LAST_STAMP),
        ),
        Mode::Client => Ok(None),
    }
}

fn may_lack_stamp(kind: Kind) -> bool
    ensures { result ≡ may_lack_stamp kind }
{
    !matches!(kind, Kind::Time)
}

impl OpenLine<'_> {
    /// What the line spells, or its first bad field after its type.
    #[tactic(auto, unfolding(crate::specs::Readings::said_line))]
    fn read(&self, alloc: Global) -> Result<Line, LineFault>
        ensures { IsReadAsLine (as_fault (said_line (opened_as self.now))) result }
    {
        let at = match self.stamp {
            Ok(at) => at,
            Err(name) => return Err(LineFault::Form(FormFault::Field(name))),
        };
        match input_of_kind(alloc, self.kind, &self.object) {
            Ok(Ok(input)) => Ok(Line { input, at }),
            Ok(Err(name)) => Err(LineFault::Form(FormFault::Field(name))),
            Err(_) => Err(LineFault::OutOfMemory),
        }
    }
}
