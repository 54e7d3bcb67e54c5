//! Things by their channels.
ghost use Rattle.std.specs.Prelude.{◌≡◌, ◌<◌, ◌++◌, ◌∷◌, [], Some, false, not, map, find, filter, length, IfOk, IfSome, IfNone, OnOk, OnErr};
ghost use Rattle.std.specs.List.{AllByRecursion};
ghost use Rattle.std.specs.Option.{option_copied};
ghost use Rattle.iss_channels.specs.Placed.{things_of, thing_at, is_on, one_more, ArePlaced, Takes, FirstReceives};

use crate::{OnChannel, Places, Receives};
use iss_edge::Channel;
use std::alloc::{AllocError, Global};
use std::collections::BTreeMap;
use std::marker::Model;

/// Things in the order in which they came, each at a place of its own and found by its channel. Contracts see them with their places.
#[derive(Drop)]
pub struct ByChannel<T: OnChannel> {
    next: u64,
    things: BTreeMap<u64, T>,
    places: Places<u32>,
}

impl<T: OnChannel> Model for ByChannel<T> {
    ghost use Rattle.iss_channels.specs.Placed.{Placed, IsKept};

    ghost Value = { Placed T };

    ghost view = { λ b. record { next = b.next; entries = b.things.entries } };

    ghost invariant = { λ b. IsKept T.channel_of b.next b.things b.places };
}

impl<T: OnChannel + Drop> ByChannel<T> {
    /// Nothing. Nothing is allocated.
    pub fn new(alloc: Global) -> ByChannel<T>
        ensures { result ≡ record { next = 0; entries = [] } }
    {
        ByChannel {
            next: 0,
            things: BTreeMap::new(alloc),
            places: Places::new(alloc),
        }
    }

    /// The place that the next thing will have.
    pub fn next(&self) -> u64
        ensures { result ≡ self.now.next }
    {
        self.next
    }

    /// One thing more, after the others. If an allocation fails, all stays as it was.
    pub fn push(&mut self, thing: T) -> Result<(), AllocError>
        ensures pushed { OnOk result (self.new ≡ one_more self.old thing) }
        ensures things { OnOk result (things_of self.new ≡ things_of self.old ++ thing ∷ []) }
        ensures unchanged { OnErr result (self.new ≡ self.old) }
        ensures placed { ArePlaced self.new }
    {
        let place = self.next;
        // There are never 2^64 things: a missing place counts as a failed allocation.
        let Some(next) = place.checked_add(1) else {
            return Err(AllocError);
        };
        let ch = thing.channel();
        self.places.add(&ch.0, place)?;
        match self.things.insert(place, thing) {
            Ok(_) => {
                self.next = next;
                Ok(())
            }
            Err(_) => {
                self.places.remove(&ch.0, place);
                Err(AllocError)
            }
        }
    }

    /// The first thing on a channel.
    pub fn find(&self, ch: Channel) -> Option<&T>
        ensures { option_copied result ≡ find (is_on T.channel_of ch) (things_of self.now) }
    {
        let place = self.places.first(&ch.0)?;
        self.things.get(&place)
    }

    /// The thing at a place.
    pub fn at(&self, place: u64) -> Option<&T>
        ensures { option_copied result ≡ thing_at self.now place }
    {
        self.things.get(&place)
    }

    /// Takes out the first thing on a channel, and tells its place.
    pub fn take(&mut self, ch: Channel) -> Option<(u64, T)>
        ensures first { IfSome result (λ taken. find (is_on T.channel_of ch) (things_of self.old) ≡ Some taken.1) }
        ensures taken { IfSome result (λ taken. Takes (is_on T.channel_of ch) taken.0 taken.1 self.old self.new) }
        ensures fewer { IfSome result (λ taken. length self.new.entries < length self.old.entries) }
        ensures none { IfNone result (AllByRecursion (λ x. is_on T.channel_of ch x ≡ false) (things_of self.old)) }
        ensures unchanged { IfNone result (self.new ≡ self.old) }
        ensures placed { ArePlaced self.new }
    {
        let place = self.places.first(&ch.0)?;
        let thing = self.things.remove(&place)?;
        self.places.remove(&ch.0, place);
        Some((place, thing))
    }

    /// Takes out all things on a channel.
    pub fn remove(&mut self, ch: Channel)
        ensures { things_of self.new ≡ filter (λ x. not (is_on T.channel_of ch x)) (things_of self.old) }
    {
        while self.take(ch).is_some() {}
    }

    /// The channels, in the order in which the things came.
    pub fn channels(&self, alloc: Global) -> Result<Vec<Channel>, AllocError>
        ensures { IfOk result (λ v. v.items ≡ map T.channel_of (things_of self.now)) }
    {
        let mut channels = Vec::new(alloc);
        for thing in self.things.values() {
            channels.push(thing.channel())?;
        }
        Ok(channels)
    }
}

impl<T: Receives + Drop> ByChannel<T> {
    /// Has the first thing on a channel receive the next bytes. `None` exactly if nothing is on it.
    pub fn receive(&mut self, alloc: Global, ch: Channel, piece: &[u8]) -> Option<T::Told>
        ensures received { IfSome result (FirstReceives T.channel_of T.receives ch piece.now (things_of self.old) (things_of self.new)) }
        ensures none { IfNone result (AllByRecursion (λ x. is_on T.channel_of ch x ≡ false) (things_of self.old)) }
        ensures unchanged { IfNone result (self.new ≡ self.old) }
    {
        let place = self.places.first(&ch.0)?;
        let thing = self.things.get_mut(&place)?;
        Some(thing.receive(alloc, piece))
    }
}
