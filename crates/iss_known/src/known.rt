//! What the events of a state make known.
ghost use Rattle.std.specs.Prelude.{◌≡◌, ◌↔◌, IsSome, IfOk, IfSome, find, is_some, option_map};
ghost use Rattle.std.specs.Str.{bytes_eq};
ghost use Rattle.iss_index.specs.Places.{place_of};
ghost use Rattle.iss_model.specs.rules.Activity.{txn_named, call_numbered};
ghost use Rattle.iss_model.specs.rules.Settings.{card_named, product_named};
ghost use Rattle.iss_states.specs.Order.{AreInOrder};
ghost use Rattle.iss_states.specs.Rebuilding.{rebuilt};
ghost use Rattle.iss_well_formed.specs.Events.{AreMarkedWell};
ghost use Rattle.iss_known.specs.Known.{IsKnownOf, IsReadAgain};

use crate::calls::CallKnown;
use crate::controls::ControlKnown;
use crate::parts::{DEFAULT_PLACE, Parts};
use crate::reading::read_again;
use crate::txns::TxnKnown;
use iss_model::{CallId, Card, Product, State, Token, Window};
use std::alloc::{AllocError, Global};
use std::marker::Model;

/// What is known of a state by its events: users, cards, products, controls and sets, each the first of its name, and the
/// transactions and the calls, each in the order of its event.
#[derive(Drop)]
pub struct Known {
    parts: Parts,
}

impl Model for Known {
    ghost use Rattle.iss_known.specs.Known.{KnownNow};
    ghost use Rattle.iss_known.specs.Reading.{known_in};

    ghost Value = { KnownNow };

    ghost view = { λ k. known_in k.parts };
}

impl Known {
    /// What the events of a state make known. `None` exactly if its events aren't shown again by the core that is made from it,
    /// or its transactions aren't those that its events begin.
    pub fn of(alloc: Global, state: &State) -> Result<Option<Known>, AllocError>
        requires order { AreInOrder state.now }
        requires marks { AreMarkedWell state.now }
        ensures read { IfOk result (λ known. IsSome known ↔ IsReadAgain state.entry.now) }
        ensures known { IfOk result (λ known. IfSome known (λ k. IsKnownOf k (rebuilt state.entry.now))) }
    {
        let Some(parts) = read_again(alloc, &state.events.0, &state.txns.0)? else {
            return Ok(None);
        };
        Ok(Some(Known { parts }))
    }

    /// Whether there is a user of that name.
    pub fn has_user(&self, user: &Token) -> bool
        ensures { result ≡ is_some (place_of user.now self.now.users) }
    {
        self.parts.users.find(user).is_some()
    }

    /// The card of that name as it was made, or `None` if there is none.
    pub fn card(&self, card: &Token) -> Option<&Card>
        ensures { option_map (λ found. found.now) result ≡ card_named card.now self.now.cards }
    {
        self.parts.cards.get(card)
    }

    /// The product of that name, or `None` if there is none.
    pub fn product(&self, product: &Token) -> Option<&Product>
        ensures { option_map (λ found. found.now) result ≡ product_named product.now self.now.products }
    {
        let sold = self.parts.products.get_near(product, DEFAULT_PLACE)?;
        Some(sold.product())
    }

    /// The controls, in the order in which they were made.
    pub fn controls(&self) -> &[ControlKnown]
        ensures { result.now ≡ self.now.controls }
    {
        self.parts.controls.as_slice()
    }

    /// The window of the control of that name, or `None` if there is none.
    pub fn window_of(&self, control: &Token) -> Option<Window>
        ensures { result ≡ option_map (λ k. k.window) (find (λ k. bytes_eq k.name control.now) self.now.controls) }
    {
        self.parts.controls.window_of(control)
    }

    /// Whether there is a Commando Mode set of that name.
    pub fn has_set(&self, set: &Token) -> bool
        ensures { result ≡ is_some (place_of set.now self.now.sets) }
    {
        self.parts.sets.find(set).is_some()
    }

    /// The transaction of that token, or `None` if there is none.
    pub fn txn(&self, txn: &Token) -> Option<&TxnKnown>
        ensures { option_map (λ found. found.now) result ≡ txn_named txn.now self.now.txns }
    {
        self.parts.txns.get(txn)
    }

    /// The transaction of that token, which is likely to stand at this place among `txns`, or `None` if there is none.
    pub fn txn_near(&self, txn: &Token, near: usize) -> Option<&TxnKnown>
        ensures { option_map (λ found. found.now) result ≡ txn_named txn.now self.now.txns }
    {
        self.parts.txns.get_near(txn, near)
    }

    /// The transactions, in the order in which they began.
    pub fn txns(&self) -> &[TxnKnown]
        ensures { result.now ≡ self.now.txns }
    {
        self.parts.txns.as_slice()
    }

    /// The transactions, in the order in which they began. All else that is known is let go.
    pub fn into_txns(self) -> Vec<TxnKnown>
        ensures { result.items ≡ self.txns }
    {
        self.parts.txns.into_list()
    }

    /// The calls, in the order of their numbers.
    pub fn calls(&self) -> &[CallKnown]
        ensures { result.now ≡ self.now.calls }
    {
        self.parts.calls.as_slice()
    }

    /// The call of that number, or `None` if there is none.
    pub fn call(&self, call: CallId) -> Option<&CallKnown>
        ensures { option_map (λ found. found.now) result ≡ call_numbered call.0 self.now.calls }
    {
        self.parts.calls.get(call)
    }
}
