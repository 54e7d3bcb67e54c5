//! The reference gateway.
ghost use Rattle.std.specs.Prelude.{◌≡◌, ◌≤◌, ◌<◌, ◌+◌, nat_le, IsTrue, IfOk, OnOk, OnErr, option_and_then};
ghost use Rattle.iss_gateway.specs.declared.books.TheConstants.{MOST_HEARD};
ghost use Rattle.iss_gateway.specs.Messages.{is_within};
ghost use Rattle.iss_gateway.specs.Books.{count_of, is_noted, is_voided, promise_of, total};
ghost use Rattle.iss_gateway.specs.Rules.{new_reference, wish_for, after_hearing, given_for};

use crate::books::MOST_HEARD;
use crate::table::Table;
use crate::{Given, Message};
use iss_model::Currency;
use std::alloc::{AllocError, Global};
use std::marker::Model;
use uuid::Uuid;

/// A gateway that answers by fixed rules. Contracts see its two limits and its books: what it first gave for each token, and
/// the notices on which it acted.
///
/// It funds an ask whole if that is within the most for a call, and within the user's limit less what the user has in the
/// currency. Else it funds what is within both, if a part may be funded and it is at least 1. Else it refuses. A token that
/// was voided is refused, and a repeat is given the first answer.
#[derive(Drop)]
pub struct Gateway {
    most: u64,
    limit: u64,
    table: Table,
}

impl Model for Gateway {
    ghost use Rattle.iss_gateway.specs.Rules.{Reference};
    ghost use Rattle.iss_gateway.specs.Tables.{IsIndexed, books_of};

    ghost Value = { Reference };

    ghost view = { λ g. record { most = g.most; limit = g.limit; books = books_of g.table } };

    ghost invariant = { λ g. IsIndexed g.table };
}

impl Gateway {
    /// A gateway that has heard nothing. It funds at most `most` minor units for a call, and at most `limit` to a user in a
    /// currency.
    pub fn new(alloc: Global, most: u64, limit: u64) -> Result<Gateway, AllocError>
        ensures { IfOk result (λ gateway. gateway ≡ new_reference most limit) }
    {
        Ok(Gateway {
            most,
            limit,
            table: Table::new(alloc),
        })
    }

    /// Hears a message, and says what it gives for it. If an allocation fails, all stays as it was.
    ///
    /// A gateway hears up to 1000000 messages, with amounts up to 10^12 minor units, so that its sums fit.
    pub fn hear(&mut self, message: &Message) -> Result<Given, AllocError>
        requires room { count_of self.old.books < MOST_HEARD }
        requires within { IsTrue (is_within message.now) }
        ensures heard { OnOk result (self.new ≡ after_hearing self.old message.now) }
        ensures given { IfOk result (λ given. given ≡ given_for self.old message.now) }
        ensures unchanged { OnErr result (self.new ≡ self.old) }
        ensures few { count_of self.new.books ≤ count_of self.old.books + 1 }
    {
        let wish = self.wish_for(message);
        self.table.hear(wish, message)
    }

    /// Whether it has heard as much as it may: it hears no more then.
    pub fn is_full(&self) -> bool
        ensures { result ≡ nat_le MOST_HEARD (count_of self.now.books) }
    {
        self.table.promises.len() + self.table.notes.len() >= MOST_HEARD
    }

    /// What it has funded and not undone in a currency, less the gateway parts of the notices that acted, in minor units.
    pub fn total(&self, currency: Currency) -> i64
        ensures { result ≡ total self.now.books currency }
    {
        self.table.total(currency)
    }

    /// What it funded at the first ask of a token, in minor units. `None` exactly if it funded nothing.
    pub fn funded(&self, token: Uuid) -> Option<u64>
        ensures { result ≡ option_and_then (λ p. p.funded) (promise_of self.now.books token) }
    {
        self.table.promise(&token)?.funded
    }

    /// Whether a notice on which it acted voided a token.
    pub fn is_voided(&self, token: Uuid) -> bool
        ensures { result ≡ is_voided self.now.books token }
    {
        self.table.is_voided(&token)
    }

    /// Whether it acted on the notice of this number.
    pub fn is_noted(&self, number: u32) -> bool
        ensures { result ≡ is_noted self.now.books number }
    {
        self.table.is_noted(number)
    }

    /// How much it would fund for a message.
    fn wish_for(&self, message: &Message) -> u64
        ensures { result ≡ wish_for self.now message.now }
    {
        match message {
            Message::Ask { currency, user, .. } => {
                let room = self.limit.saturating_sub(self.table.has(user, *currency));
                self.most.min(room)
            }
            Message::Note { .. } => 0,
        }
    }
}
