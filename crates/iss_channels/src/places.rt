//! The places of things, by a key.
ghost use Rattle.std.specs.Prelude.{◌≡◌, ◌<◌, ◌^◌, ℕ, [], true, false, IfSome, IfNone, OnOk, OnErr};
ghost use Rattle.iss_channels.specs.Places.{has, Puts, IsFirst};

use std::alloc::{AllocError, Global};
use std::cmp::Ord;
use std::collections::BTreeSet;
use std::marker::Model;

/// The places of things by their keys; a key may have many. Contracts see each key with each of its places, in order.
#[derive(Drop)]
pub struct Places<K: Ord> {
    places: BTreeSet<(K, u64)>,
}

impl<K: Ord> Model for Places<K> {
    ghost use Rattle.std.specs.Prelude.{List, ℕ};

    ghost Value = { List (K × ℕ) };

    ghost view = { λ p. p.places.keys };
}

impl<K: Ord + Copy + Drop> Places<K> {
    /// No place. Nothing is allocated.
    pub fn new(alloc: Global) -> Places<K>
        ensures { result ≡ [] }
    {
        Places {
            places: BTreeSet::new(alloc),
        }
    }

    /// The first place of a key.
    pub fn first(&self, key: &K) -> Option<u64>
        ensures first { IfSome result (IsFirst K.cmp self.now key.now) }
        ensures none { IfNone result ((place : ℕ) → place < 2 ^ 64 → has K.cmp self.now key.now place ≡ false) }
    {
        let (_, place) = self.places.range((*key, 0)..=(*key, u64::MAX)).next()?;
        Some(*place)
    }

    /// A key has this place too. If an allocation fails, all stays as it was.
    pub fn add(&mut self, key: &K, place: u64) -> Result<(), AllocError>
        ensures added { OnOk result (Puts K.cmp key.now place true self.old self.new) }
        ensures unchanged { OnErr result (self.new ≡ self.old) }
    {
        self.places.insert((*key, place))?;
        Ok(())
    }

    /// A key doesn't have this place any more.
    pub fn remove(&mut self, key: &K, place: u64)
        ensures { Puts K.cmp key.now place false self.old self.new }
    {
        self.places.remove(&(*key, place));
    }
}
