//! What the programme stood in with, written and read.
ghost use Rattle.std.specs.Prelude.{◌≡◌, ◌++◌, OnOk, IfOk};
ghost use Rattle.iss_codec.specs.Places.{place_bytes, take_place};
ghost use Rattle.iss_image_lists.specs.Spelling.{sum_bytes, sums_bytes};
ghost use Rattle.iss_image_lists.specs.Taking.{take_sum, take_sums};
ghost use Rattle.iss_image_lists.specs.ByPlace.{ListTaken};

use crate::parts::{put_length, put_signed, take_signed};
use crate::things::{Takes, take_list};
use iss_codec::{Places, Reader, put_place, put_u64};
use iss_model::{Stood, Token};
use std::alloc::{AllocError, Global};

/// Appends sums of stand-ins, after how many they are. Each token is its place.
pub fn put_sums<P: Places>(out: &mut Vec<u8>, sums: &[Stood], places: &P) -> Result<(), AllocError>
    ensures spelled { OnOk result (out.new.items ≡ out.old.items ++ sums_bytes (place_bytes (P.tokens places.now)) sums.now) }
{
    put_length(out, sums.len())?;
    for sum in sums {
        put_sum(out, sum, places)?;
    }
    Ok(())
}

fn put_sum<P: Places>(out: &mut Vec<u8>, sum: &Stood, places: &P) -> Result<(), AllocError>
    ensures { OnOk result (out.new.items ≡ out.old.items ++ sum_bytes (place_bytes (P.tokens places.now)) sum.now) }
{
    put_place(out, &sum.product, places)?;
    put_place(out, &sum.user, places)?;
    put_signed(out, sum.day)?;
    put_u64(out, sum.amount)
}

/// The sums that come next, with tokens by their places among these. `None` if what comes next is no list of them.
pub fn take_sums(
    reader: &mut Reader<'_>,
    alloc: Global,
    tokens: &[Token],
) -> Result<Option<Vec<Stood>>, AllocError>
    ensures read { IfOk result (ListTaken (take_sums (take_place tokens.now)) reader.old reader.new) }
{
    take_list(reader, alloc, &SumTaker { tokens })
}

/// Takes sums of stand-ins.
#[derive(Drop)]
struct SumTaker<'a> {
    tokens: &'a [Token],
}

impl Takes for SumTaker<'_> {
    type Thing = Stood;

    ghost take_thing = { λ taker. take_sum (take_place taker.tokens.now) };

    #[tactic(auto, unfolding(crate::specs::Taking::take_sum))]
    fn take(&self, reader: &mut Reader<'_>) -> Option<Stood> {
        Some(Stood {
            product: reader.take_place(self.tokens)?,
            user: reader.take_place(self.tokens)?,
            day: take_signed(reader)?,
            amount: reader.take_u64()?,
        })
    }
}
