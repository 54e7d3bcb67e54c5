//! What is known so far, and what one event adds to it.
ghost use Rattle.std.specs.Prelude.{◌≡◌, ◌++◌, [], None, Some, IsTrue, IfOk, OnOk, length, option_map, unwrap_or};
ghost use Rattle.iss_model.specs.Forms.{is_stamp, is_in_form};
ghost use Rattle.iss_model.specs.Inputs.{event_token};
ghost use Rattle.iss_model.specs.rules.Activity.{txn_named};
ghost use Rattle.iss_model.specs.rules.Settings.{first_card_state};
ghost use Rattle.iss_model.specs.rules.Stepping.{increment_ask};
ghost use Rattle.iss_states.specs.Order.{is_event_record};
ghost use Rattle.iss_states.specs.Rebuilding.{ask_of_event, is_done};
ghost use Rattle.iss_known.specs.Reading.{ask_made, facts_known, first_ask_known, is_of_call, live_at, with_begun, with_called};
ghost use Rattle.iss_known.specs.Reading.{known_after, known_in, makes_its_call, nothing_known, settled_known, with_first, with_name, with_setting_known};

use crate::asks::{Asked, Purchase};
use crate::calls::{CallKnown, Calls, how_of_mark};
use crate::controls::{ControlKnown, Controls};
use crate::products::{Sold, default_product};
use crate::txns::{Txns, live_at};
use iss_index::{Index, Names};
use iss_model::{
    CallState, Card, CardState, Carried, Input, Named, Opened, Product, Record, Seen, Token,
    Verdict,
};
use std::alloc::{AllocError, Global};

/// The place of the default product, of which a card is if it was made without a product.
pub(crate) const DEFAULT_PLACE: usize = 0;

/// Users, cards, products, controls and sets, each the first of its name, and the transactions and the calls.
#[derive(Drop)]
pub(crate) struct Parts {
    pub(crate) users: Names,
    pub(crate) cards: Index<Card>,
    pub(crate) products: Index<Sold>,
    pub(crate) controls: Controls,
    pub(crate) sets: Names,
    pub(crate) txns: Txns,
    pub(crate) calls: Calls,
}

impl Parts {
    /// What is known without an event, with room for this number of transactions.
    pub(crate) fn new(alloc: Global, count: usize) -> Result<Parts, AllocError>
        ensures { IfOk result (λ parts. known_in parts ≡ nothing_known) }
    {
        let mut products = Index::new(alloc);
        products.add(Sold::new(default_product()))?;
        Ok(Parts {
            users: Names::new(alloc),
            cards: Index::new(alloc),
            products,
            controls: Controls::new(alloc),
            sets: Names::new(alloc),
            txns: Txns::with_room(alloc, count)?,
            calls: Calls::new(alloc),
        })
    }

    /// How many transactions have begun.
    pub(crate) fn begun(&self) -> usize
        ensures { result ≡ length (known_in self.now).txns }
    {
        self.txns.as_slice().len()
    }

    /// Takes an event up. Its transaction begins if it is the listed one at this place. Returns whether its mark is that of a call,
    /// if it has one.
    pub(crate) fn take_up(
        &mut self,
        listed: &[Carried],
        place: usize,
        seen: &Seen,
    ) -> Result<bool, AllocError>
        requires form { IsTrue (is_event_record seen.now) }
        requires fresh { txn_named (unwrap_or (event_token seen.now.body.input) []) (known_in self.old).txns ≡ None }
        ensures taken { OnOk result (known_in self.new ≡ known_after (live_at listed.now place) (known_in self.old) seen.now) }
        ensures called { IfOk result (λ called. called ≡ makes_its_call (known_in self.old) seen.now) }
    {
        self.settle(&seen.verdict, &seen.body.input)?;
        match self.ask(seen.number, &seen.body) {
            None => Ok(seen.mark.is_none()),
            Some(ask) => {
                self.begin(listed, place, &ask)?;
                self.answer(&seen.mark, &ask)
            }
        }
    }

    /// Takes a setting up if it is done.
    fn settle(&mut self, verdict: &Option<Verdict>, input: &Input) -> Result<(), AllocError>
        requires form { IsTrue (is_in_form input.now) }
        ensures { OnOk result (known_in self.new ≡ settled_known (known_in self.old) verdict.now input.now) }
    {
        match verdict {
            Some(Verdict::Done) => self.set_up(input),
            _ => Ok(()),
        }
    }

    /// Takes a setting up. Moves, groups, switches and loads make nothing known.
    fn set_up(&mut self, input: &Input) -> Result<(), AllocError>
        requires form { IsTrue (is_in_form input.now) }
        ensures { OnOk result (known_in self.new ≡ with_setting_known (known_in self.old) input.now) }
    {
        match input {
            Input::User { token: _, user } => add_name(&mut self.users, user),
            Input::Card {
                token: _,
                card,
                user,
                product,
                active,
            } => add_first(&mut self.cards, new_card(card, user, product, *active)),
            Input::Product {
                token: _,
                product,
                currency,
                funding,
                timeout_ms,
                hold_ms,
            } => {
                let product = Product {
                    name: *product,
                    currency: *currency,
                    funding: *funding,
                    timeout_ms: *timeout_ms,
                    hold_ms: *hold_ms,
                };
                add_first(&mut self.products, Sold::new(product))
            }
            Input::Control {
                control,
                window,
                ..
            } => self.controls.add(&ControlKnown {
                name: *control,
                window: *window,
            }),
            Input::Set { set, .. } => add_name(&mut self.sets, set),
            _ => Ok(()),
        }
    }

    /// What an event asks, by what is known.
    fn ask(&self, number: u32, body: &Record) -> Option<Asked>
        requires stamp { IsTrue (is_stamp body.now.at) }
        ensures { option_map ask_made result ≡ ask_of_event (facts_known (known_in self.now) number) body.now.at body.now.input }
    {
        match &body.input {
            Input::Authorization {
                token,
                card,
                currency,
                amount,
                mcc,
                mid,
                partial,
            } => self.first_ask(&Purchase {
                token: *token,
                card: *card,
                currency: *currency,
                amount: *amount,
                mcc: *mcc,
                mid: *mid,
                partial: *partial,
                number,
                at: body.at,
            }),
            Input::Increment {
                token,
                txn,
                amount,
                currency: _,
            } => self.further_ask(token, txn, *amount, body.at),
            _ => None,
        }
    }

    /// A purchase as an ask, if its card and the product of that are known.
    fn first_ask(&self, purchase: &Purchase) -> Option<Asked>
        requires stamp { IsTrue (is_stamp purchase.now.at) }
        ensures { option_map ask_made result ≡ first_ask_known (known_in self.now) purchase.now }
    {
        let card = self.cards.get(&purchase.card)?;
        let sold = self.products.get_near(&card.product, DEFAULT_PLACE)?;
        Some(purchase.ask(card, sold))
    }

    /// An increment as an ask, if its transaction is known.
    fn further_ask(&self, token: &Token, txn: &Token, amount: u64, at: u64) -> Option<Asked>
        ensures { option_map ask_made result ≡ increment_ask (facts_known (known_in self.now) 0) token.now txn.now amount at }
    {
        let known = self.txns.get(txn)?;
        Some(Asked {
            event: *token,
            txn: known.txn,
            amount,
            first: false,
            partial: false,
            at,
        })
    }

    /// Begins the transaction of an authorisation if it is the listed one at this place.
    fn begin(&mut self, listed: &[Carried], place: usize, ask: &Asked) -> Result<(), AllocError>
        requires fresh { IsTrue ask.now.first → txn_named ask.now.txn.token (known_in self.old).txns ≡ None }
        ensures { OnOk result (known_in self.new ≡ with_begun (live_at listed.now place) (known_in self.old) (ask_made ask.now)) }
    {
        if !ask.first {
            return Ok(());
        }
        match live_at(listed, place, &ask.txn.token) {
            None => Ok(()),
            Some(live) => self.txns.add(&ask.txn, live),
        }
    }

    /// Makes the call of an ask with a mark. Returns false exactly if there is a mark, and the product isn't known.
    fn answer(&mut self, mark: &Option<CallState>, ask: &Asked) -> Result<bool, AllocError>
        requires stamp { IsTrue (is_stamp ask.now.at) }
        ensures called { OnOk result (known_in self.new ≡ with_called (known_in self.old) mark.now (ask_made ask.now)) }
        ensures made { IfOk result (λ made. made ≡ is_of_call (known_in self.old) mark.now (Some (ask_made ask.now))) }
    {
        let Some(mark) = mark else {
            return Ok(true);
        };
        let Some(sold) = self.products.get(&ask.txn.product) else {
            return Ok(false);
        };
        let opened = Opened {
            call: self.calls.next()?,
            event: ask.event,
            txn: ask.txn.token,
            method: ask.method(),
            card: ask.txn.card,
            user: ask.txn.user,
            currency: ask.txn.currency,
            mcc: ask.txn.mcc,
            mid: ask.txn.mid,
            amount: ask.amount,
            partial: ask.partial,
            at: ask.at,
            deadline: sold.deadline(ask.at),
        };
        self.calls.add(CallKnown {
            opened,
            how: how_of_mark(*mark),
        })?;
        Ok(true)
    }
}

/// Adds a name after the others, unless it is there.
fn add_name(names: &mut Names, name: &Token) -> Result<(), AllocError>
    ensures { OnOk result (names.new ≡ with_name names.old name.now) }
{
    if names.find(name).is_some() {
        return Ok(());
    }
    names.add(name)?;
    Ok(())
}

/// Adds a thing after the others, unless there is one of its name.
fn add_first<T: Named + Drop>(things: &mut Index<T>, thing: T) -> Result<(), AllocError>
    ensures { OnOk result (things.new ≡ with_first T.name_of things.old thing) }
{
    if things.get(thing.name()).is_some() {
        return Ok(());
    }
    things.add(thing)
}

/// A card as it is made.
fn new_card(card: &Token, user: &Token, product: &Token, active: bool) -> Card
    ensures { result ≡ record { name = card.now; user = user.now; product = product.now; state = first_card_state active } }
{
    Card {
        name: *card,
        user: *user,
        product: *product,
        state: first_card_state(active),
    }
}

/// A card begins active, or waits to be activated.
fn first_card_state(active: bool) -> CardState
    ensures { result ≡ first_card_state active }
{
    if active {
        CardState::Active
    } else {
        CardState::Unactivated
    }
}
