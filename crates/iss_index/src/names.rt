//! Names, each once, found by hash.
ghost use Rattle.std.specs.Prelude.{◌≡◌, ◌+◌, ◌<◌, ◌^◌, ◌∷◌, ◌++◌, [], true, None, Some, IfSome, IfOk, OnOk, OnErr, length, slice_get};
ghost use Rattle.std.specs.List.{IsDistinct};
ghost use Rattle.std.specs.Str.{bytes_eq};
ghost use Rattle.iss_index.specs.Hashing.{is_at};
ghost use Rattle.iss_index.specs.Places.{place_of};
ghost use Rattle.iss_index.specs.Grown.{IsGrown, names_with};

use crate::groups::is_at;
use crate::places::NamePlaces;
use iss_model::Token;
use std::alloc::{AllocError, Global};
use std::marker::Model;

/// Names in the order in which they were added, no two alike. Contracts see their list.
///
/// A name's hash points to a group of twelve slots, one of which has its place. Names come from outside, and the hash is
/// known to everybody. So a name whose group is full has its place in a tree. There no choice of names makes a look-up
/// slow.
#[derive(Drop)]
pub struct Names {
    names: Vec<Token>,
    places: NamePlaces,
    alloc: Global,
}

impl Model for Names {
    ghost use Rattle.std.specs.Prelude.{List, ℕ};

    ghost Value = { List (List ℕ) };

    ghost use Rattle.iss_index.specs.Hashing.{AreNamesKept};

    ghost view = { λ n. n.names.items };

    ghost invariant = { λ n. AreNamesKept n.places.groups.items n.places.others n.names.items };
}

impl Names {
    /// No name. Nothing is allocated.
    pub fn new(alloc: Global) -> Names
        ensures { result ≡ [] }
    {
        Names {
            names: Vec::new(alloc),
            places: NamePlaces::new(alloc),
            alloc,
        }
    }

    /// No name, with room for this number of them. A greater number may be added too.
    pub fn with_room(alloc: Global, count: usize) -> Result<Names, AllocError>
        ensures { IfOk result (λ names. names ≡ []) }
    {
        Ok(Names {
            names: Vec::with_capacity(alloc, count)?,
            places: NamePlaces::with_room(alloc, count)?,
            alloc,
        })
    }

    /// How many names there are.
    pub fn len(&self) -> usize
        ensures { result ≡ length self.now }
    {
        self.names.len()
    }

    /// The name at a place.
    pub fn at(&self, place: usize) -> &Token
        requires { place < length self.now }
        ensures { slice_get self.now place ≡ Some result.now }
    {
        &self.names[place]
    }

    /// The place of a name, counted from 0, or `None` if it wasn't added.
    pub fn find(&self, name: &Token) -> Option<u32>
        ensures value { result ≡ place_of name.now self.now }
        ensures apart { IsDistinct bytes_eq self.now }
    {
        self.places.find(&self.names, name)
    }

    /// The place of a name that is likely to be this one, or `None` if it wasn't added.
    pub fn find_near(&self, name: &Token, near: usize) -> Option<u32>
        ensures value { result ≡ place_of name.now self.now }
        ensures apart { IsDistinct bytes_eq self.now }
    {
        match known_place(&self.names, near, name) {
            Some(place) => Some(place),
            None => self.find(name),
        }
    }

    /// The place of a name that is likely to be the last one, or `None` if it wasn't added.
    pub fn find_last(&self, name: &Token) -> Option<u32>
        ensures value { result ≡ place_of name.now self.now }
        ensures apart { IsDistinct bytes_eq self.now }
    {
        match last_place(&self.names, name) {
            Some(place) => Some(place),
            None => self.find(name),
        }
    }

    /// Adds a new name after the others, and returns its place. If an allocation fails, all stays as it was, and so if
    /// 2^32 - 1 names stand, as many as places are kept for.
    pub fn add(&mut self, name: &Token) -> Result<u32, AllocError>
        requires { place_of name.now self.old ≡ None }
        ensures added { OnOk result (self.new ≡ self.old ++ name.now ∷ []) }
        ensures place { IfOk result (λ place. place ≡ length self.old) }
        ensures refused { OnErr result (self.new ≡ self.old) }
    {
        let place = place_after(self.names.len())?;
        self.widen()?;
        self.names.reserve(1)?;
        self.places.put(name, place)?;
        self.names.push(*name)?;
        Ok(place)
    }

    /// The place of a name that is likely to be this one. A name that has none is added after the others.
    ///
    /// If an allocation fails, all stays as it was, and so if 2^32 - 1 names stand and this isn't one of them.
    pub fn place_or_add(&mut self, name: &Token, near: usize) -> Result<u32, AllocError>
        ensures there { IfOk result (λ place. slice_get self.new place ≡ Some name.now) }
        ensures found { IfSome (place_of name.now self.old) (λ place. result ≡ Ok place) }
        ensures with { OnOk result (self.new ≡ names_with name.now self.old) }
        ensures grown { IsGrown self.old self.new }
        ensures refused { OnErr result (self.new ≡ self.old) }
    {
        match self.find_near(name, near) {
            Some(place) => Ok(place),
            None => self.add(name),
        }
    }

    /// Makes more groups if one name more is to have them.
    fn widen(&mut self) -> Result<(), AllocError>
        requires { length self.old + 1 < 2 ^ 32 }
        ensures { self.new ≡ self.old }
    {
        if self.places.is_full(self.names.len()) {
            self.places = self.places.widened(self.alloc, &self.names)?;
        }
        Ok(())
    }
}

/// The place of one name more after `count` of them.
fn place_after(count: usize) -> Result<u32, AllocError>
    ensures value { IfOk result (λ place. place ≡ count) }
    ensures few { IfOk result (λ place. place + 1 < 2 ^ 32) }
{
    match u32::try_from(count) {
        Ok(place) if place < u32::MAX => Ok(place),
        _ => Err(AllocError),
    }
}

/// The last place, if the name there is this one.
fn last_place(names: &[Token], name: &Token) -> Option<u32>
    ensures { IfSome result (λ place. is_at names.now place name.now ≡ true) }
{
    let last = names.len().checked_sub(1)?;
    known_place(names, last, name)
}

/// This place, if the name there is this one.
fn known_place(names: &[Token], place: usize, name: &Token) -> Option<u32>
    ensures { IfSome result (λ place. is_at names.now place name.now ≡ true) }
{
    match u32::try_from(place) {
        Ok(place) if is_at(names, place as usize, name) => Some(place),
        _ => None,
    }
}
