//! Reading things one after the other, each as its taker takes it.
ghost use Rattle.std.specs.Prelude.{◌≡◌, ℕ, List, Option, IfOk};
ghost use Rattle.iss_codec.specs.Readers.{taken_field};
ghost use Rattle.iss_image_lists.specs.Taking.{take_things, take_list};
ghost use Rattle.iss_image_lists.specs.Readers.{taken_things, taken_onto, with_prefix};

use iss_codec::Reader;
use std::alloc::{AllocError, Global};

/// How a thing of a list is taken.
pub(crate) trait Takes {
    type Thing: Drop;

    ghost take_thing: { Self → List ℕ → Option (Self.Thing × List ℕ) };

    /// The next thing, or `None` if none comes next.
    fn take(&self, reader: &mut Reader<'_>) -> Option<Self::Thing>
        ensures { taken_field result reader.new.bytes.now ≡ take_thing self.now reader.old.bytes.now };
}

/// The things of a list, after how many they are. No more room is made than for things that are there.
#[tactic(auto, unfolding(crate::specs::Taking::take_list), using(crate::proofs::OneByOne::no_prefix))]
pub(crate) fn take_list<T: Takes>(
    reader: &mut Reader<'_>,
    alloc: Global,
    taker: &T,
) -> Result<Option<Vec<T::Thing>>, AllocError>
    ensures { IfOk result (λ found. taken_things found reader.new.bytes.now ≡ take_list (T.take_thing taker.now) reader.old.bytes.now) }
{
    let Some(count) = reader.take_u32() else {
        return Ok(None);
    };
    let mut things = Vec::new(alloc);
    let done = take_things(reader, &mut things, count, taker)?;
    if !done {
        return Ok(None);
    }
    Ok(Some(things))
}

/// That many things, after those that are there. Whether all of them came.
pub(crate) fn take_things<T: Takes>(
    reader: &mut Reader<'_>,
    things: &mut Vec<T::Thing>,
    count: u32,
    taker: &T,
) -> Result<bool, AllocError>
    ensures { IfOk result (λ done. taken_onto done things.new.items reader.new.bytes.now ≡ with_prefix things.old.items (take_things (T.take_thing taker.now) count reader.old.bytes.now)) }
{
    for _ in 0..count {
        match taker.take(reader) {
            Some(thing) => things.push(thing)?,
            None => return Ok(false),
        }
    }
    Ok(true)
}
