//! The sets of a programme, and what it stood in for by them.
ghost use Rattle.std.specs.Prelude.{◌≡◌, ◌↔◌, ◌&&◌, [], map, find, true, None, IsTrue, IfOk, OnOk, OnErr, IsErrOf};
ghost use Rattle.std.specs.List.{list_all};
ghost use Rattle.std.specs.Option.{option_map, is_none};
ghost use Rattle.std.specs.FinMap as finite;
ghost use Rattle.iss_model.specs.Sums.{stood_key};
ghost use Rattle.iss_model.specs.Forms.{is_stamp};
ghost use Rattle.iss_model.specs.rules.Facts.{Facts};
ghost use Rattle.iss_model.specs.rules.Asks.{Ask};
ghost use Rattle.iss_model.specs.rules.StandIns.{stand};
ghost use Rattle.iss_model.specs.rules.Controls.{set_named, set_replaced};
ghost use Rattle.iss_model.specs.rules.Reasons.{is_full, is_some_with};
ghost use Rattle.iss_model.specs.state.Kept.{nothing_kept, kept_at, AreSmall};
ghost use Rattle.iss_model.specs.state.Cores.{with_set, set_after_put};
ghost use Rattle.iss_commando.specs.Trees.{after_stood};
ghost use Rattle.iss_commando.specs.Puts.{is_fixed};
ghost use Rattle.iss_commando.specs.Sums.{stood_entry, is_plain};
ghost use Rattle.iss_commando.specs.Stands.{IfAsks, is_for, stand_on, stand_named};

use crate::day::DayKey;
use crate::stand::{SetStand, is_for, stand_by};
use crate::sums::{add_to, list, sum_at};
use iss_model::limits::MOST_OF_A_KIND;
use iss_model::{Failure, Set, Stood, Token};
use std::alloc::{AllocError, Global};
use std::collections::BTreeMap;
use std::marker::Model;

/// Why a set wasn't put.
#[derive(Clone, Copy, Debug, PartialEq, Eq)]
pub enum SetFault {
    /// The set of that name is of another product, or in another currency.
    Fixed,
    /// There are 256 sets.
    Limit,
    OutOfMemory,
}

/// The sets that stand, in the order in which they were made, and what stood in for a product's user on each day.
///
/// A question goes through the sets in their order, so a name is found in the same way: there are at most 256.
#[derive(Drop)]
pub struct Sets {
    sets: Vec<Set>,
    stood: BTreeMap<DayKey, u64>,
}

impl Model for Sets {
    ghost use Rattle.iss_model.specs.state.Kept.{AreSmall};
    ghost use Rattle.iss_model.specs.state.Cores.{StandIns};
    ghost use Rattle.iss_commando.specs.Codes.{stand_ins_code};
    ghost use Rattle.iss_commando.specs.Trees.{kept_in};

    ghost Value = { StandIns };

    ghost coded = { stand_ins_code };

    ghost view = { λ s. record { sets = s.sets.items; stood = kept_in s.stood } };

    ghost invariant = { λ s. AreSmall (kept_in s.stood) };
}

impl Sets {
    /// No set, and nothing stood in.
    pub fn new(alloc: Global) -> Result<Sets, AllocError>
        ensures { IfOk result (λ sets. sets ≡ record { sets = []; stood = nothing_kept }) }
    {
        Ok(Sets {
            sets: Vec::new(alloc),
            stood: BTreeMap::new(alloc),
        })
    }

    /// Puts a set. A new one stands after the others. Otherwise it takes the place of the one of its name, which keeps
    /// its product and currency. Only a new one takes memory.
    pub fn put(&mut self, set: &Set) -> Result<(), SetFault>
        ensures put { OnOk result (self.new ≡ record self.old { sets = with_set self.old.sets set.now }) }
        ensures refused { OnErr result (self.new ≡ self.old) }
        ensures fixed { IsErrOf result SetFault.Fixed
            ↔ IsTrue (is_some_with (is_fixed set.now) (set_named set.now.name self.old.sets)) }
        ensures limit { IsErrOf result SetFault.Limit
            ↔ IsTrue (is_none (set_named set.now.name self.old.sets) && is_full self.old.sets) }
        ensures absent { IsErrOf result SetFault.OutOfMemory → set_named set.now.name self.old.sets ≡ None }
    {
        match self.get(&set.name) {
            Some(standing) if is_fixed(standing, set) => return Err(SetFault::Fixed),
            Some(_) => replace(&mut self.sets, set),
            None if self.is_full() => return Err(SetFault::Limit),
            None => self.push(set)?,
        }
        Ok(())
    }

    /// Notes that an amount stood in for a product's user on a stamp's day. Only the first one of a day takes memory.
    pub fn note(
        &mut self,
        product: &Token,
        user: &Token,
        amount: u64,
        at: u64,
    ) -> Result<(), AllocError>
        requires stamp { IsTrue (is_stamp at) }
        requires small { AreSmall (after_stood self.old.stood product.now user.now amount at) }
        ensures noted { OnOk result (self.new ≡ record self.old { stood = after_stood self.old.stood product.now user.now amount at }) }
        ensures unchanged { OnErr result (self.new ≡ self.old) }
        ensures absent { OnErr result (finite.get self.old.stood (stood_key product.now user.now at) ≡ None) }
    {
        add_to(&mut self.stood, DayKey::new(product, user, at), amount)
    }

    /// The set of that name, or `None` if there is none.
    pub fn get(&self, name: &Token) -> Option<&Set>
        ensures { option_map (λ found. found.now) result ≡ set_named name.now self.now.sets }
    {
        self.sets.iter().find(|set| set.name == *name)
    }

    /// Whether there are as many sets as there may be.
    pub fn is_full(&self) -> bool
        ensures { result ≡ is_full self.now.sets }
    {
        self.sets.len() >= MOST_OF_A_KIND
    }

    /// What the sets decide of an amount that the gateway didn't decide, for a product's user on a stamp's day. The first
    /// active set of the product that covers the failure decides.
    pub fn stands(
        &self,
        product: &Token,
        user: &Token,
        amount: u64,
        failure: Failure,
        at: u64,
    ) -> SetStand
        requires { IsTrue (is_stamp at) }
        ensures answer { result ≡ stand_named (stand_on self.now.sets (kept_at self.now.stood) product.now user.now amount failure at) }
        ensures by_rule { (f : Facts) → (ask : Ask) → f.sets ≡ self.now.sets → f.stood ≡ kept_at self.now.stood
            → IfAsks ask product.now user.now amount (result ≡ stand_named (stand f ask failure at)) }
    {
        let Some(set) = deciding(&self.sets, product, failure) else {
            return SetStand::No;
        };
        let stood = sum_at(&self.stood, &DayKey::new(product, user, at));
        stand_by(set, stood, amount)
    }

    /// All that stood in: one sum for each product, user and day of which anything was noted, in this order. Their names
    /// have no byte 0, so a key is read again.
    pub fn sums(&self, alloc: Global) -> Result<Vec<Stood>, AllocError>
        ensures sums { IfOk result (λ v. map stood_entry v.items ≡ finite.entries self.now.stood) }
        ensures named { IfOk result (λ v. list_all is_plain v.items ≡ true) }
    {
        list(&self.stood, alloc)
    }

    /// Adds a set of a new name after the others.
    fn push(&mut self, set: &Set) -> Result<(), AllocError>
        requires { set_named set.now.name self.old.sets ≡ None }
        ensures added { OnOk result (self.new ≡ record self.old { sets = with_set self.old.sets set.now }) }
        ensures refused { OnErr result (self.new ≡ self.old) }
    {
        self.sets.push(*set)?;
        Ok(())
    }
}

/// The first active set of the product that covers the failure.
fn deciding<'a>(sets: &'a [Set], product: &Token, failure: Failure) -> Option<&'a Set>
    ensures { option_map (λ found. found.now) result ≡ find (is_for product.now failure) sets.now }
{
    sets.iter().find(|set| is_for(set, product, failure))
}

/// Whether the set that stands has another product or currency than the set that is put.
fn is_fixed(standing: &Set, put: &Set) -> bool
    ensures { result ≡ is_fixed put.now standing.now }
{
    standing.product != put.product || standing.currency != put.currency
}

/// Replaces what may be replaced of the set of that name.
fn replace(sets: &mut [Set], put: &Set)
    ensures { sets.new ≡ map (set_after_put put.now) sets.old }
{
    for standing in sets.iter_mut() {
        if put.name == standing.name {
            *standing = replaced(standing, put);
        }
    }
}

/// A set with what may be replaced of it.
fn replaced(first: &Set, last: &Set) -> Set
    ensures { result ≡ set_replaced first.now last.now }
{
    Set {
        name: first.name,
        product: first.product,
        currency: first.currency,
        ..*last
    }
}

impl From<AllocError> for SetFault {
    ghost use Rattle.iss_commando.specs.declared.sets.SetFault.TheVariants.{OutOfMemory};

    ghost from_gives = { λ _ fault. fault ≡ OutOfMemory };

    fn from(_: AllocError) -> SetFault {
        SetFault::OutOfMemory
    }
}
