//! The sums of the transactions that a post was made for, by their places in the order in which they began.
ghost use Rattle.std.specs.Prelude.{◌≡◌, ◌<◌, ℕ, slice_get, Some, IsSome, OnOk};
ghost use Rattle.iss_chain.specs.Rows.{row_in, row_sums, PutsRow};

use crate::sums::PostSums;
use std::alloc::AllocError;

/// The sums at a place: all 0 if no post was made for it.
pub(crate) fn sums_of(sums: &[Option<PostSums>], place: usize) -> PostSums
    ensures { result ≡ row_sums (row_in sums.now place) }
{
    let row = sums.get(place).copied().unwrap_or(None);
    row.unwrap_or(PostSums::none())
}

/// Makes room for the sums at a place, and at each before it.
pub(crate) fn make_room(sums: &mut Vec<Option<PostSums>>, place: usize) -> Result<(), AllocError>
    ensures same { (at : ℕ) → row_in sums.new.items at ≡ row_in sums.old.items at }
    ensures later { (at : ℕ) → place < at → slice_get sums.new.items at ≡ slice_get sums.old.items at }
    ensures stands { OnOk result (IsSome (slice_get sums.new.items place)) }
{
    while sums.len() <= place {
        sums.push(None)?;
    }
    Ok(())
}

/// Writes the sums at a place that there is room for.
pub(crate) fn set_sums(sums: &mut Vec<Option<PostSums>>, place: usize, put: PostSums)
    requires { IsSome (slice_get sums.old.items place) }
    ensures { PutsRow sums.old.items sums.new.items place put }
{
    sums[place] = Some(put);
}

/// Writes the sums at a place, whether or not there is room.
pub(crate) fn add_sums(
    sums: &mut Vec<Option<PostSums>>,
    place: usize,
    put: PostSums,
) -> Result<(), AllocError>
    ensures { OnOk result (PutsRow sums.old.items sums.new.items place put) }
{
    make_room(sums, place)?;
    set_sums(sums, place, put);
    Ok(())
}
