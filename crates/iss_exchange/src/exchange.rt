//! The processor and a gateway together.
ghost use Rattle.std.specs.Prelude.{◌≡◌, ◌<◌, map, nat_le, IfOk};
ghost use Rattle.iss_model.specs.declared.account.Account.TheVariants.{Gateway as GatewayOf};
ghost use Rattle.iss_model.specs.declared.limits.TheConstants.{INSTANCES};
ghost use Rattle.iss_model.specs.rules.Facts.{balance_in};
ghost use Rattle.iss_gateway.specs.declared.books.TheConstants.{MOST_HEARD};
ghost use Rattle.iss_gateway.specs.Books.{count_of, total};
ghost use Rattle.iss_exchange_laws.specs.Laws.{facts_of};
ghost use Rattle.iss_exchange.specs.Standing.{answered};
ghost use Rattle.iss_exchange.specs.Values.{EmptyIfSettled, Meets, asked_of, moved_on, noted_of, start_of, voided_of};

use crate::cores::calls_of;
use crate::gaps::{Gap, asked_gap, noted_gap, voided_gap};
use crate::sides::{Answer, Sides};
use iss_core::Core;
use iss_exchange_laws::{Move, Sent};
use iss_gateway::{Gateway, Message};
use iss_model::{Account, Currency, Record};
use std::alloc::{AllocError, Global};
use std::marker::Model;

/// The processor of an instance and a reference gateway, with all that was sent, given and heard. Contracts see the instance,
/// the gateway's two limits, and the exchange of the definitions, which some list of moves led to.
#[derive(Drop)]
pub struct Exchange {
    sides: Sides,
}

impl Model for Exchange {
    ghost use Rattle.iss_exchange.specs.Values.{ExchangeNow, IsReached};
    ghost use Rattle.iss_exchange.specs.Standing.{AreStanding, shown};

    ghost Value = { ExchangeNow };

    ghost view = { λ x. shown x.sides };

    ghost invariant = { λ x. AreStanding x.sides × IsReached (shown x.sides) };
}

impl Exchange {
    /// Nothing has happened. The gateway funds at most `most` minor units for a call, and at most `limit` to a user in a
    /// currency.
    pub fn new(alloc: Global, instance: u64, most: u64, limit: u64) -> Result<Exchange, AllocError>
        requires { instance < INSTANCES }
        ensures { IfOk result (λ x. x ≡ start_of instance most limit) }
    {
        Ok(Exchange {
            sides: Sides {
                instance,
                core: Core::new(alloc, instance)?,
                released_core: Core::new(alloc, instance)?,
                records: Vec::new(alloc),
                released: 0,
                sent: Vec::new(alloc),
                given: Vec::new(alloc),
                heard: Vec::new(alloc),
                gateway: Gateway::new(alloc, most, limit)?,
            },
        })
    }

    /// Makes a move, exactly by the rules. If an allocation fails, the exchange is gone.
    ///
    /// The gateway hears up to 1000000 messages.
    pub fn turn(self, alloc: Global, m: &Move) -> Result<Exchange, AllocError>
        requires { count_of self.now.books < MOST_HEARD }
        ensures { IfOk result (λ x. x ≡ moved_on self m.now) }
    {
        let sides = self.sides.turn(alloc, m)?;
        Ok(Exchange { sides })
    }

    /// Whether the gateway has heard as much as it may: no more moves are made then.
    pub fn is_full(&self) -> bool
        ensures { result ≡ nat_le MOST_HEARD (count_of self.now.now.books) }
    {
        self.sides.gateway.is_full()
    }

    /// What the gateway has funded and not undone in a currency, less the gateway parts of the notices that acted, in minor
    /// units.
    pub fn total(&self, currency: Currency) -> i64
        ensures { result ≡ total self.now.now.books currency }
    {
        self.sides.gateway.total(currency)
    }

    /// What the gateway's account has at the processor in a currency, in minor units.
    pub fn balance(&self, currency: Currency) -> i64
        ensures { result ≡ balance_in (facts_of self.now.now) (GatewayOf currency) }
    {
        self.sides.core.balance(&Account::Gateway(currency))
    }

    /// What is on its way in a currency: three lists of amounts. The total and the balance add up to the sum of all three. If no
    /// call is asked and every notice is acknowledged, all three are empty.
    pub fn gap(&self, alloc: Global, currency: Currency) -> Result<Gap, AllocError>
        ensures asked { IfOk result (λ gap. gap.asked ≡ asked_of self.now currency) }
        ensures voided { IfOk result (λ gap. gap.voided ≡ voided_of self.now currency) }
        ensures noted { IfOk result (λ gap. gap.noted ≡ noted_of self.now currency) }
        ensures meets { IfOk result (Meets self.now currency) }
        ensures settled { IfOk result (EmptyIfSettled self.now) }
    {
        let sides = &self.sides;
        let opened = sides.core.asked(alloc)?;
        let calls = calls_of(alloc, &sides.core)?;
        let pending = sides.core.pending(alloc)?;
        let asked = asked_gap(alloc, sides.instance, &sides.gateway, &opened, currency)?;
        let voided = voided_gap(
            alloc,
            sides.instance,
            &sides.gateway,
            &calls,
            &pending,
            currency,
        )?;
        let noted = noted_gap(alloc, &sides.gateway, &pending, currency)?;
        Ok(Gap {
            asked,
            voided,
            noted,
        })
    }

    /// The records of the processor, in order.
    pub fn records(&self) -> &[Record]
        ensures { result.now ≡ self.now.now.records }
    {
        &self.sides.records
    }

    /// How many of the records were released: the first ones.
    pub fn released(&self) -> usize
        ensures { result ≡ self.now.now.released }
    {
        self.sides.released
    }

    /// The requests and notices that were sent, in order.
    pub fn sent(&self) -> &[Sent]
        ensures { result.now ≡ self.now.now.sent }
    {
        &self.sides.sent
    }

    /// What the gateway gave for what was sent, in order.
    pub fn given(&self) -> &[Answer]
        ensures { map answered result.now ≡ self.now.now.given }
    {
        &self.sides.given
    }

    /// The messages that the gateway heard, in order.
    pub fn heard(&self) -> &[Message]
        ensures { result.now ≡ self.now.now.heard }
    {
        &self.sides.heard
    }
}
