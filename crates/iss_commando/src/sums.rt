//! What stood in, by product, user and day.
ghost use Rattle.std.specs.Prelude.{◌≡◌, ◌+ℤ◌, pos, None, map, true, IfOk, OnOk, OnErr};
ghost use Rattle.std.specs.List.{list_all};
ghost use Rattle.std.specs.FinMap as finite;
ghost use Rattle.iss_model.specs.state.Kept.{kept_at, after_change, IsSmall};
ghost use Rattle.iss_commando.specs.Trees.{kept_in};
ghost use Rattle.iss_commando.specs.Sums.{stood_entry, is_plain};

use crate::day::DayKey;
use iss_model::Stood;
use std::alloc::{AllocError, Global};
use std::collections::BTreeMap;

/// The sum at a key, 0 if there is none.
#[tactic(auto, using(crate::proofs::TreeSums::sum_in))]
pub(crate) fn sum_at(sums: &BTreeMap<DayKey, u64>, key: &DayKey) -> u64
    ensures { pos result ≡ kept_at (kept_in sums.now) key.now }
{
    sums.get(key).copied().unwrap_or(0)
}

/// Adds to the sum at a key. Only a new key takes memory; if an allocation fails, the sums stay as they were.
pub(crate) fn add_to(
    sums: &mut BTreeMap<DayKey, u64>,
    key: DayKey,
    amount: u64,
) -> Result<(), AllocError>
    requires { IsSmall (kept_at (kept_in sums.old) key +ℤ pos amount) }
    ensures added { OnOk result (kept_in sums.new ≡ after_change (kept_in sums.old) (record { key = key; by = pos amount })) }
    ensures unchanged { OnErr result (kept_in sums.new ≡ kept_in sums.old) }
    ensures absent { OnErr result (finite.get (kept_in sums.old) key ≡ None) }
{
    let sum = sum_at(sums, &key) + amount;
    sums.insert(key, sum)?;
    Ok(())
}

/// All sums, in the order of their keys.
pub(crate) fn list(sums: &BTreeMap<DayKey, u64>, alloc: Global) -> Result<Vec<Stood>, AllocError>
    ensures sums { IfOk result (λ v. map stood_entry v.items ≡ finite.entries (kept_in sums.now)) }
    ensures named { IfOk result (λ v. list_all is_plain v.items ≡ true) }
{
    let mut list = Vec::new(alloc);
    for (key, sum) in sums.iter() {
        list.push(key.stood(*sum))?;
    }
    Ok(list)
}
