//! Asks: what an authorisation or an increment asks for.
ghost use Rattle.std.specs.Prelude.{◌≡◌, IsTrue};
ghost use Rattle.iss_model.specs.Forms.{is_stamp};
ghost use Rattle.iss_model.specs.rules.Pieces.{ask_method};
ghost use Rattle.iss_known.specs.Reading.{ask_made, purchase_ask};

use crate::products::Sold;
use iss_model::{Card, Currency, Method, Token, Txn};

/// An event that asks for an amount for a transaction.
#[derive(Clone, Copy)]
pub(crate) struct Asked {
    pub event: Token,
    pub txn: Txn,
    /// In minor units.
    pub amount: u64,
    /// Whether it begins its transaction.
    pub first: bool,
    /// Whether the gateway may fund a part of the amount.
    pub partial: bool,
    /// In milliseconds since 1970.
    pub at: u64,
}

impl Asked {
    /// What its call is about.
    pub(crate) fn method(&self) -> Method
        ensures { result ≡ ask_method (ask_made self.now) }
    {
        if self.first {
            Method::Authorization
        } else {
            Method::Incremental
        }
    }
}

/// What a card is asked to pay.
#[derive(Clone, Copy)]
pub(crate) struct Purchase {
    pub token: Token,
    pub card: Token,
    pub currency: Currency,
    /// In minor units.
    pub amount: u64,
    /// The merchant category code of ISO 18245.
    pub mcc: u16,
    pub mid: Token,
    /// Whether the gateway may fund a part of the amount.
    pub partial: bool,
    /// The number of its record.
    pub number: u32,
    /// In milliseconds since 1970.
    pub at: u64,
}

impl Purchase {
    /// The purchase as an ask, on a card of a product. It begins a transaction, which is named by its event and expires
    /// when the product's holds do.
    pub(crate) fn ask(&self, card: &Card, sold: &Sold) -> Asked
        requires stamp { IsTrue (is_stamp self.now.at) }
        ensures { ask_made result ≡ purchase_ask self.now card.now sold.now }
    {
        Asked {
            event: self.token,
            txn: Txn {
                token: self.token,
                card: card.name,
                user: card.user,
                product: card.product,
                currency: self.currency,
                funding: sold.product().funding,
                mcc: self.mcc,
                mid: self.mid,
                origin: self.number,
                at: self.at,
                expires: sold.expiry(self.at),
            },
            amount: self.amount,
            first: true,
            partial: self.partial,
            at: self.at,
        }
    }
}
