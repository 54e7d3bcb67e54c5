//! The places of names, found by hash.
ghost use Rattle.std.specs.Prelude.{◌≡◌, ◌+◌, ◌<◌, ◌^◌, [], false, IfOk, OnOk, OnErr, length, replicate};
ghost use Rattle.std.specs.Bool.{OnTrue, OnFalse};
ghost use Rattle.std.specs.List.{IsDistinct};
ghost use Rattle.std.specs.Str.{bytes_eq};
ghost use Rattle.iss_index.specs.Places.{place_of};
ghost use Rattle.iss_index.specs.Hashing.{group_of, has_room_for, Finds, StaysFound, PutsPlace, FillsGroup, free_group};

use crate::groups::{FREE, Group, hash_of};
use iss_model::Token;
use std::alloc::{AllocError, Global};
use std::collections::BTreeMap;

/// How many names a group holds on average before there are more groups.
const LOAD: usize = 8;
/// How many times as many groups there are then.
const GROWTH: usize = 3;
/// How many names a group holds on average if their number is known beforehand. Few groups are full then.
const SPARE_LOAD: usize = 6;
/// How many groups the first names have.
const FIRST_GROUPS: usize = 12;

/// The places of names in a list that stands elsewhere.
#[derive(Drop)]
pub(crate) struct NamePlaces {
    groups: Vec<Group>,
    others: BTreeMap<Token, u32>,
}

impl NamePlaces {
    /// No place. Nothing is allocated.
    pub(crate) fn new(alloc: Global) -> NamePlaces
        ensures { Finds result [] }
    {
        NamePlaces {
            groups: Vec::new(alloc),
            others: BTreeMap::new(alloc),
        }
    }

    /// No place, with groups for this number of names.
    pub(crate) fn with_room(alloc: Global, count: usize) -> Result<NamePlaces, AllocError>
        ensures { IfOk result (λ places. Finds places []) }
    {
        Ok(NamePlaces {
            groups: free_groups(alloc, (count / SPARE_LOAD).max(FIRST_GROUPS))?,
            others: BTreeMap::new(alloc),
        })
    }

    /// The places of these names, in more groups than now.
    pub(crate) fn widened(&self, alloc: Global, names: &[Token]) -> Result<NamePlaces, AllocError>
        requires few { length names.now < 2 ^ 32 }
        requires apart { IsDistinct bytes_eq names.now }
        ensures { IfOk result (λ places. Finds places names.now) }
    {
        let count = self.groups.len().saturating_mul(GROWTH).max(FIRST_GROUPS);
        let mut places = NamePlaces {
            groups: free_groups(alloc, count)?,
            others: BTreeMap::new(alloc),
        };
        for (place, name) in names.iter().enumerate() {
            places.put(name, place as u32)?;
        }
        Ok(places)
    }

    /// Whether one name more is to have more groups first. It decides how soon names are found and what memory their places
    /// take, and nothing of what is found, so no clause speaks of it.
    pub(crate) fn is_full(&self, count: usize) -> bool {
        count / LOAD >= self.groups.len()
    }

    /// The place of a name.
    pub(crate) fn find(&self, names: &[Token], name: &Token) -> Option<u32>
        requires { Finds self.now names.now }
        ensures { result ≡ place_of name.now names.now }
    {
        if self.groups.is_empty() {
            return self.others.get(name).copied();
        }
        let hash = hash_of(name);
        let group = &self.groups[group_of(self.groups.len(), hash)];
        if let Some(place) = group.place_of(hash, names, name) {
            return Some(place);
        }
        if group.has_room() {
            return None;
        }
        self.others.get(name).copied()
    }

    /// Notes the place of a name that has none. If an allocation fails, all stays as it was.
    pub(crate) fn put(&mut self, name: &Token, place: u32) -> Result<(), AllocError>
        requires few { place + 1 < 2 ^ 32 }
        ensures put { OnOk result (PutsPlace self.old self.new name.now place) }
        ensures refused { OnErr result (StaysFound self.old self.new) }
    {
        if self.put_in_group(name, place) {
            return Ok(());
        }
        self.put_in_tree(name, place)
    }

    /// Puts the place of a name whose group is full into the tree. Few names come to this, so it is kept out of `put`.
    #[cold]
    #[inline(never)]
    fn put_in_tree(&mut self, name: &Token, place: u32) -> Result<(), AllocError>
        requires full { has_room_for self.old.groups.items name.now ≡ false }
        ensures put { OnOk result (PutsPlace self.old self.new name.now place) }
        ensures refused { OnErr result (StaysFound self.old self.new) }
    {
        self.others.insert(*name, place)?;
        Ok(())
    }

    /// Puts the place of a name into a free slot of its group. Returns whether there was one.
    fn put_in_group(&mut self, name: &Token, place: u32) -> bool
        requires few { place + 1 < 2 ^ 32 }
        ensures filled { OnTrue result (FillsGroup self.old.groups.items self.new.groups.items name.now place) }
        ensures full { OnFalse result (self.new.groups.items ≡ self.old.groups.items) }
        ensures no_room { OnFalse result (has_room_for self.old.groups.items name.now ≡ false) }
        ensures others { self.new.others ≡ self.old.others }
    {
        if self.groups.is_empty() {
            return false;
        }
        let hash = hash_of(name);
        let at = group_of(self.groups.len(), hash);
        self.groups[at].put(hash, place)
    }
}

/// The group, of `count`, that a hash points to.
fn group_of(count: usize, hash: u64) -> usize
    requires { 0 < count }
    ensures value { result ≡ group_of count hash }
    ensures within { result < count }
{
    (hash / (1 << 32)) as usize % count
}

/// This number of groups whose slots are free.
#[tactic(auto, unfolding(crate::specs::Hashing::free_group))]
fn free_groups(alloc: Global, count: usize) -> Result<Vec<Group>, AllocError>
    ensures { IfOk result (λ groups. groups.items ≡ replicate count free_group) }
{
    Ok(vec![in alloc; FREE; count]?)
}
