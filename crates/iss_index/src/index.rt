//! A list of named things, each found by its name.
ghost use Rattle.std.specs.Prelude.{◌≡◌, [], ◌∷◌, ◌++◌, None, map, find, option_map, IfOk, OnOk, OnErr};
ghost use Rattle.std.specs.Str.{bytes_eq};
ghost use Rattle.iss_index.specs.Places.{MakesThis, changed_at};

use crate::Names;
use iss_model::{Named, Token};
use std::alloc::{AllocError, Global};
use std::marker::Model;

/// Named things in the order in which they were added, no two of one name. Contracts see their list.
#[derive(Drop)]
pub struct Index<T: Named> {
    things: Vec<T>,
    names: Names,
}

impl<T: Named> Model for Index<T> {
    ghost use Rattle.std.specs.Prelude.{◌≡◌, List, map};

    ghost Value = { List T };

    ghost view = { λ index. index.things.items };

    ghost invariant = { λ index. index.names ≡ map T.name_of index.things.items };
}

impl<T: Named + Drop> Index<T> {
    /// An index without things. Nothing is allocated.
    pub fn new(alloc: Global) -> Index<T>
        ensures { result ≡ [] }
    {
        Index {
            things: Vec::new(alloc),
            names: Names::new(alloc),
        }
    }

    /// An index without things, with room for this number of them. A greater number may be added too.
    pub fn with_room(alloc: Global, count: usize) -> Result<Index<T>, AllocError>
        ensures { IfOk result (λ index. index ≡ []) }
    {
        Ok(Index {
            things: Vec::with_capacity(alloc, count)?,
            names: Names::with_room(alloc, count)?,
        })
    }

    /// The thing of that name, or `None` if there is none.
    pub fn get(&self, name: &Token) -> Option<&T>
        ensures { option_map (λ found. found.now) result ≡ find (λ t. bytes_eq (T.name_of t) name.now) self.now }
    {
        let place = self.names.find(name)?;
        Some(&self.things[place as usize])
    }

    /// The thing of that name, which is likely to stand at this place, or `None` if there is none.
    pub fn get_near(&self, name: &Token, near: usize) -> Option<&T>
        ensures { option_map (λ found. found.now) result ≡ find (λ t. bytes_eq (T.name_of t) name.now) self.now }
    {
        let found = self.names.find_near(name, near)?;
        Some(&self.things[found as usize])
    }

    /// Adds a thing of a new name after the others. If an allocation fails, all stays as it was.
    pub fn add(&mut self, thing: T) -> Result<(), AllocError>
        requires { find (λ t. bytes_eq (T.name_of t) (T.name_of thing)) self.old ≡ None }
        ensures added { OnOk result (self.new ≡ self.old ++ thing ∷ []) }
        ensures refused { OnErr result (self.new ≡ self.old) }
    {
        let name = *thing.name();
        self.things.reserve(1)?;
        self.names.add(&name)?;
        self.things.push(thing)?;
        Ok(())
    }

    /// Puts a thing in the place of the one of its name. Does nothing if there is none.
    ///
    /// Names are distinct. So any change that makes `thing` of what is found leads to the same list if it is made to each
    /// thing of that name.
    pub fn set(&mut self, thing: T)
        ensures placed { self.new ≡ changed_at T.name_of (T.name_of thing) (λ t. thing) self.old }
        ensures changed { (change : T → T) → MakesThis T.name_of change thing self.old
            → self.new ≡ changed_at T.name_of (T.name_of thing) change self.old }
    {
        let Some(place) = self.names.find(thing.name()) else {
            return;
        };
        self.things[place as usize] = thing;
    }
}
