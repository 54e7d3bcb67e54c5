//! The row of an accepted event in few bytes.
ghost use Rattle.std.specs.Prelude.{◌≡◌, ◌+◌, ◌<◌, ◌++◌, IfOk, OnOk, OnErr, Some, length};
ghost use Rattle.std.specs.List.{slice_get};
ghost use Rattle.iss_accepted.specs.Short.{code_of, next_start, other_of, rows_of, verdict_of};

use crate::row::{EventRow, push};
use iss_model::Verdict;
use std::alloc::AllocError;

/// A verdict, or that there is none yet, by a code: 0 is none, 1 is `Done`, 2 is `Approved`, and 3 + n is the verdict at
/// place n in a list of the others.
#[derive(Clone, Copy)]
pub(crate) struct ShortVerdict {
    pub(crate) code: u32,
}

/// An accepted event: where its record's bytes begin, its record's number, and its verdict. Its bytes end where those of the
/// next row begin, or at the buffer's end.
#[derive(Clone, Copy)]
pub(crate) struct ShortRow {
    pub(crate) start: usize,
    pub(crate) number: u32,
    pub(crate) verdict: ShortVerdict,
}

/// The row at a place among all rows of a buffer of this size. Its verdict is among `others` if it is neither of the frequent
/// two.
pub(crate) fn whole_row(
    rows: &[ShortRow],
    place: usize,
    others: &[Verdict],
    size: usize,
) -> EventRow
    requires { place < length rows.now }
    ensures { slice_get (rows_of others.now size rows.now) place ≡ Some result }
{
    let row = &rows[place];
    EventRow {
        number: row.number,
        start: row.start,
        end: next_start(&rows[place + 1..], size),
        verdict: row.verdict.verdict(others),
    }
}

/// Where the first of these rows begins, or the size of the buffer if there is none.
fn next_start(rows: &[ShortRow], size: usize) -> usize
    ensures { result ≡ next_start size rows.now }
{
    match rows.first() {
        Some(row) => row.start,
        None => size,
    }
}

impl ShortVerdict {
    /// No verdict yet.
    pub(crate) fn undecided() -> ShortVerdict
        ensures { result.code ≡ 0 }
    {
        ShortVerdict { code: 0 }
    }

    /// The verdict, which is among these if it is neither of the frequent two.
    fn verdict(&self, others: &[Verdict]) -> Option<Verdict>
        ensures { result ≡ verdict_of others.now self.now.code }
    {
        match self.code {
            0 => None,
            1 => Some(Verdict::Done),
            2 => Some(Verdict::Approved),
            code => others.get(code as usize - 3).copied(),
        }
    }
}

/// A verdict in few bytes. It is added to these if it is neither of the frequent two. If an allocation fails, they stay as
/// they were, and so if 2^32 - 3 of them stand, as many as codes are kept for.
pub(crate) fn shortened(
    others: &mut Vec<Verdict>,
    verdict: &Verdict,
) -> Result<ShortVerdict, AllocError>
    ensures short { IfOk result (λ short. short.code ≡ code_of (length others.old.items) verdict.now) }
    ensures added { OnOk result (others.new.items ≡ others.old.items ++ other_of verdict.now) }
    ensures refused { OnErr result (others.new.items ≡ others.old.items) }
{
    match verdict {
        Verdict::Done => Ok(ShortVerdict { code: 1 }),
        Verdict::Approved => Ok(ShortVerdict { code: 2 }),
        Verdict::Partial(_, _) | Verdict::Declined(_) => {
            let code = code_after(others.len())?;
            push(others, verdict)?;
            Ok(ShortVerdict { code })
        }
    }
}

/// The code of a verdict that is added to this many other ones.
fn code_after(count: usize) -> Result<u32, AllocError>
    ensures { IfOk result (λ code. code ≡ count + 3) }
{
    let place = u32::try_from(count).map_err(|_| AllocError)?;
    place.checked_add(3).ok_or(AllocError)
}
