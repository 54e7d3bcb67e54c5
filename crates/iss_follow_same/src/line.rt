//! The line that tells whether two devices stand for the same.
ghost use Rattle.std.specs.Prelude.{◌≡◌, IfOk};
ghost use Rattle.iss_follow_same.specs.Lines.{truth_text, same_line};

use itoa::Buffer;
use std::alloc::{AllocError, Global};

/// How many records the first device stands for, and whether the second stands for the same.
#[tactic(auto, unfolding(crate::specs::Lines::same_line))]
pub(crate) fn line_of(alloc: Global, records: u32, same: bool) -> Result<Vec<u8>, AllocError>
    ensures { IfOk result (λ line. line.items ≡ same_line records same) }
{
    let mut line = Vec::new(alloc);
    line.extend_from_slice(b"{\"records\":")?;
    line.extend_from_slice(Buffer::new().format(records).as_bytes())?;
    line.extend_from_slice(b",\"same\":")?;
    line.extend_from_slice(text_of(same))?;
    line.extend_from_slice(b"}\n")?;
    Ok(line)
}

/// A truth value as JSON has it.
fn text_of(same: bool) -> &'static [u8]
    ensures { result.now ≡ truth_text same }
{
    if same { b"true" } else { b"false" }
}
