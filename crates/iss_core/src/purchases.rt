//! The entries of authorisations.
ghost use Rattle.std.specs.Prelude.{◌≡◌, ◌<◌, ◌^◌, Some, OnOk, IsTrue};
ghost use Rattle.iss_model.specs.Forms.{is_amount, is_stamp, is_hold_time};
ghost use Rattle.iss_core.specs.States.{facts_of, kept_state};
ghost use Rattle.iss_core.specs.Asks.{ask_of};
ghost use Rattle.iss_core.specs.Cards.{first_ask_acts, named_card_acts, purchase_acts, purchase_ask};
ghost use Rattle.iss_core.specs.Order.{IsInOrder};
ghost use Rattle.iss_core.specs.Adding.{AddsActs};

use crate::asks::Ask;
use crate::looking::is_active_card;
use crate::pieces::put_declined;
use crate::state::State;
use iss_model::{Card, Currency, Entry, Product, Reason, Token, Txn};
use std::alloc::AllocError;

/// What a card is asked to pay.
#[derive(Clone, Copy)]
pub(crate) struct Purchase {
    pub token: Token,
    pub card: Token,
    pub currency: Currency,
    /// In minor units.
    pub amount: u64,
    /// The merchant category code of ISO 18245.
    pub mcc: u16,
    pub mid: Token,
    /// Whether the gateway may fund a part of the amount.
    pub partial: bool,
    /// In milliseconds since 1970.
    pub at: u64,
}

impl State {
    /// An authorisation is declined, or begins its transaction, counts as use, and seeks funding.
    pub(crate) fn put_authorization(
        &self,
        out: &mut Vec<Entry>,
        purchase: &Purchase,
    ) -> Result<(), AllocError>
        requires order { IsInOrder (kept_state self.now) }
        requires amount { IsTrue (is_amount purchase.now.amount) }
        requires stamp { IsTrue (is_stamp purchase.now.at) }
        ensures { OnOk result (AddsActs out.old out.new (named_card_acts (facts_of self.now) purchase.now)) }
    {
        match self.cards.card(&purchase.card) {
            None => put_declined(out, &purchase.token, Reason::CardUnknown),
            Some(card) => self.put_purchase(out, purchase, &card),
        }
    }

    /// An authorisation on a known card is declined, or begins its transaction, counts as use, and seeks funding.
    fn put_purchase(
        &self,
        out: &mut Vec<Entry>,
        purchase: &Purchase,
        card: &Card,
    ) -> Result<(), AllocError>
        requires order { IsInOrder (kept_state self.now) }
        requires amount { IsTrue (is_amount purchase.now.amount) }
        requires stamp { IsTrue (is_stamp purchase.now.at) }
        ensures { OnOk result (AddsActs out.old out.new (purchase_acts (facts_of self.now) purchase.now (Some card.now))) }
    {
        if !is_active_card(card.state) {
            return put_declined(out, &purchase.token, Reason::CardState);
        }
        if !self.is_active_user(&card.user) {
            return put_declined(out, &purchase.token, Reason::UserState);
        }
        match self.product(&card.product) {
            None => put_declined(out, &purchase.token, Reason::Currency),
            Some(product) if product.currency != purchase.currency => {
                put_declined(out, &purchase.token, Reason::Currency)
            }
            Some(product) => self.put_first_ask(out, &self.first_ask(purchase, card, &product)),
        }
    }

    /// A purchase on a card of a product, as an ask. It begins a transaction, which is named by its event and expires
    /// when the product's holds do.
    fn first_ask(&self, purchase: &Purchase, card: &Card, product: &Product) -> Ask
        requires time { IsTrue (is_hold_time product.now.hold_ms) }
        requires stamp { IsTrue (is_stamp purchase.now.at) }
        ensures { ask_of result ≡ purchase_ask (facts_of self.now) purchase.now card.now product.now }
    {
        Ask {
            event: purchase.token,
            txn: Txn {
                token: purchase.token,
                card: card.name,
                user: card.user,
                product: card.product,
                currency: purchase.currency,
                funding: product.funding,
                mcc: purchase.mcc,
                mid: purchase.mid,
                origin: self.count,
                at: purchase.at,
                expires: purchase.at + product.hold_ms,
            },
            amount: purchase.amount,
            first: true,
            partial: purchase.partial,
            at: purchase.at,
        }
    }

    /// The first ask of a transaction is declined, or begins it.
    fn put_first_ask(&self, out: &mut Vec<Entry>, ask: &Ask) -> Result<(), AllocError>
        requires order { IsInOrder (kept_state self.now) }
        requires amount { IsTrue (is_amount ask.now.amount) }
        requires stamp { IsTrue (is_stamp ask.now.at) }
        ensures { OnOk result (AddsActs out.old out.new (first_ask_acts (facts_of self.now) (ask_of ask.now))) }
    {
        if let Some(why) = self.ask_reason(ask) {
            return put_declined(out, &ask.event, why);
        }
        out.push(Entry::Began(ask.txn))?;
        out.push(Entry::Usage(ask.usage()))?;
        self.put_funding(out, ask)
    }
}
