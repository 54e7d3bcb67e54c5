//! Groups of slots, each with the place of a name.
ghost use Rattle.std.specs.Prelude.{◌≡◌, ◌+◌, ◌<◌, ◌^◌, ◌==◌, false, IfSome, IfNone, Some, find, option_map, option_copied, slice_get};
ghost use Rattle.std.specs.Bool.{OnTrue, OnFalse};
ghost use Rattle.std.specs.List.{AllByRecursion};
ghost use Rattle.iss_index.specs.Hashing.{hash_of, tag_of, rank_of, is_at, slot_has, in_slots, has_room, FillsSlot};

use iss_model::Token;
use std::hash::{FoldHasher, Hasher};

/// How many slots a group has.
const SLOTS: usize = 12;

/// A part of a name's hash, and its place counted from 1. A free slot has 0 there.
///
/// The place is kept as its bytes, the lowest first. So a slot takes five bytes, and not eight as with a number.
#[derive(Clone, Copy)]
pub(crate) struct Slot {
    tag: u8,
    rank: [u8; 4],
}

/// Slots for names whose hashes point here.
#[derive(Clone, Copy)]
pub(crate) struct Group {
    slots: [Slot; SLOTS],
}

/// A group whose slots are free.
pub(crate) const FREE: Group = Group {
    slots: [Slot {
        tag: 0,
        rank: [0; 4],
    }; SLOTS],
};

/// The hash of a name.
#[tactic(auto, unfolding(crate::specs::Hashing::hash_of))]
pub(crate) fn hash_of(name: &Token) -> u64
    ensures { result ≡ hash_of name.now }
{
    let mut hasher = FoldHasher::default();
    hasher.write(name.text());
    hasher.finish()
}

/// The part of a hash that a slot keeps.
fn tag_of(hash: u64) -> u8
    ensures { result ≡ tag_of hash }
{
    (hash % (1 << 8)) as u8
}

/// Whether the name at a place is this one.
pub(crate) fn is_at(names: &[Token], place: usize, name: &Token) -> bool
    ensures { result ≡ is_at names.now place name.now }
{
    match names.get(place) {
        Some(found) => found == name,
        None => false,
    }
}

impl Slot {
    /// A slot with the place of a name of that hash.
    #[tactic(auto, unfolding(crate::specs::Hashing::rank_of))]
    fn new(hash: u64, place: u32) -> Slot
        requires { place + 1 < 2 ^ 32 }
        ensures tag { result.tag ≡ tag_of hash }
        ensures rank { rank_of result ≡ place + 1 }
    {
        Slot {
            tag: tag_of(hash),
            rank: (place + 1).to_le_bytes(),
        }
    }

    /// The place counted from 1, or 0 if the slot is free.
    #[tactic(auto, unfolding(crate::specs::Hashing::rank_of))]
    fn rank(&self) -> u32
        ensures { result ≡ rank_of self.now }
    {
        u32::from_le_bytes(self.rank)
    }

    /// Whether this slot has the place of a name.
    fn has(&self, tag: u8, names: &[Token], name: &Token) -> bool
        ensures { result ≡ slot_has tag names.now name.now self.now }
    {
        self.tag == tag && self.rank() != 0 && is_at(names, self.rank() as usize - 1, name)
    }
}

/// The slot that has the place of a name.
fn slot_of<'a>(slots: &'a [Slot], tag: u8, names: &[Token], name: &Token) -> Option<&'a Slot>
    ensures { option_copied result ≡ find (slot_has tag names.now name.now) slots.now }
{
    slots.iter().find(|slot| slot.has(tag, names, name))
}

/// The first free slot.
fn free_slot(slots: &[Slot]) -> Option<usize>
    ensures free { IfSome result (λ i. option_map (λ s. rank_of s) (slice_get slots.now i) ≡ Some 0) }
    ensures none { IfNone result (AllByRecursion (λ s. (rank_of s == 0) ≡ false) slots.now) }
{
    slots.iter().position(|slot| slot.rank() == 0)
}

impl Group {
    /// The place of the name of that hash, if it has a slot here.
    pub(crate) fn place_of(&self, hash: u64, names: &[Token], name: &Token) -> Option<u32>
        ensures { result ≡ in_slots (tag_of hash) names.now name.now self.now.slots }
    {
        let slot = slot_of(&self.slots, tag_of(hash), names, name)?;
        Some(slot.rank().saturating_sub(1))
    }

    /// Whether a slot is free, which tells that no name of this group has its place elsewhere.
    pub(crate) fn has_room(&self) -> bool
        ensures { result ≡ has_room self.now.slots }
    {
        self.slots[SLOTS - 1].rank() == 0
    }

    /// Puts the place of a name of that hash into a free slot. Returns whether there was one.
    pub(crate) fn put(&mut self, hash: u64, place: u32) -> bool
        requires { place + 1 < 2 ^ 32 }
        ensures filled { OnTrue result (FillsSlot self.old.slots self.new.slots (tag_of hash) place) }
        ensures full { OnFalse result (has_room self.old.slots ≡ false) }
        ensures same { OnFalse result (self.new ≡ self.old) }
    {
        let Some(free) = free_slot(&self.slots) else {
            return false;
        };
        self.slots[free] = Slot::new(hash, place);
        true
    }
}
