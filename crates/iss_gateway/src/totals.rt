//! What a gateway's books come to.
ghost use Rattle.std.specs.Prelude.{◌≡◌};
ghost use Rattle.iss_model.specs.Currencies.{same_currency};
ghost use Rattle.iss_gateway.specs.Books.{total};
ghost use Rattle.iss_gateway.specs.Tables.{IsIndexed, books_of, standing_amount, standing_after, given_amount, given_after};

use crate::books::{Note, Promise};
use crate::table::Table;
use iss_model::Currency;

impl Table {
    /// What was funded and not undone in a currency, less the gateway parts of the notes.
    pub(crate) fn total(&self, currency: Currency) -> i64
        requires { IsIndexed self.now }
        ensures { result ≡ total (books_of self.now) currency }
    {
        let funded = self.standing(currency);
        let returned = self.given_back(currency);
        funded as i64 - returned as i64
    }

    /// What was funded and not undone in a currency.
    fn standing(&self, currency: Currency) -> u64
        requires { IsIndexed self.now }
        ensures { result ≡ standing_after (books_of self.now) currency 0 self.now.promises.items }
    {
        let mut sum = 0;
        for promise in &self.promises {
            sum += self.standing_of(promise, currency);
        }
        sum
    }

    /// What stands of a promise in a currency: nothing of one that was undone.
    fn standing_of(&self, promise: &Promise, currency: Currency) -> u64
        requires { IsIndexed self.now }
        ensures { result ≡ standing_amount (books_of self.now) currency promise.now }
    {
        if same_currency(promise.currency, currency) && !self.is_voided(&promise.token) {
            promise.funded.unwrap_or(0)
        } else {
            0
        }
    }

    /// What the notes gave back in a currency.
    fn given_back(&self, currency: Currency) -> u64
        requires { IsIndexed self.now }
        ensures { result ≡ given_after currency 0 self.now.notes.items }
    {
        let mut sum = 0;
        for note in &self.notes {
            sum += given_of(note, currency);
        }
        sum
    }
}

/// What a note gave back in a currency.
fn given_of(note: &Note, currency: Currency) -> u64
    ensures { result ≡ given_amount currency note.now }
{
    if same_currency(note.currency, currency) {
        note.gateway
    } else {
        0
    }
}

fn same_currency(a: Currency, b: Currency) -> bool
    ensures { result ≡ same_currency a b }
{
    a.number() == b.number()
}
