//! What a message does to the books, at a wish.
ghost use Rattle.std.specs.Prelude.{◌≡◌, ◌<◌, true, None, IsTrue, IfOk, OnOk, OnErr};
ghost use Rattle.iss_model.specs.Forms.{is_limit};
ghost use Rattle.iss_gateway.specs.declared.books.TheConstants.{MOST_HEARD};
ghost use Rattle.iss_gateway.specs.declared.message.Given.TheVariants.{Acked};
ghost use Rattle.iss_gateway.specs.Messages.{is_within};
ghost use Rattle.iss_gateway.specs.Books.{count_of, promise_of, is_noted, is_voided, funded_first, with_first_note, with_first_promise, heard, given_of, given_by, given_after};
ghost use Rattle.iss_gateway.specs.Tables.{IsIndexed, books_of, is_low};

use crate::books::{Note, Promise};
use crate::table::Table;
use crate::{Given, Message};
use std::alloc::AllocError;

impl Table {
    /// Hears a message, and says what is given for it. If an allocation fails, the books stay as they were.
    pub(crate) fn hear(&mut self, wish: u64, message: &Message) -> Result<Given, AllocError>
        requires indexed { IsIndexed self.old }
        requires room { count_of (books_of self.old) < MOST_HEARD }
        requires within { IsTrue (is_within message.now) }
        ensures indexed { IsIndexed self.new }
        ensures heard { OnOk result (books_of self.new ≡ heard wish (books_of self.old) message.now) }
        ensures given { IfOk result (λ given. given ≡ given_after (books_of self.new) message.now) }
        ensures unchanged { OnErr result (books_of self.new ≡ books_of self.old) }
    {
        match *message {
            Message::Ask {
                token,
                amount,
                currency,
                user,
                partial,
            } => {
                let funded = funded_first(wish, self.is_voided(&token), amount, partial);
                self.answer(&Promise {
                    token,
                    funded,
                    currency,
                    user,
                })
            }
            Message::Note {
                number,
                token,
                currency,
                user,
                gateway,
            } => self.act(&Note {
                number,
                token,
                currency,
                user,
                gateway,
            }),
        }
    }

    /// Answers the ask of a token by its first promise, which this one is if there was none before.
    fn answer(&mut self, promise: &Promise) -> Result<Given, AllocError>
        requires indexed { IsIndexed self.old }
        requires clear { is_voided (books_of self.old) promise.now.token ≡ true → promise.now.funded ≡ None }
        requires low { is_low promise.now.funded ≡ true }
        requires room { count_of (books_of self.old) < MOST_HEARD }
        ensures indexed { IsIndexed self.new }
        ensures heard { OnOk result (books_of self.new ≡ with_first_promise (books_of self.old) promise.now) }
        ensures given { IfOk result (λ given. given ≡ given_by (promise_of (books_of self.new) promise.now.token)) }
        ensures unchanged { OnErr result (books_of self.new ≡ books_of self.old) }
    {
        if let Some(first) = self.promise(&promise.token) {
            return Ok(given_of(first.funded));
        }
        self.add_promise(promise)?;
        Ok(given_of(promise.funded))
    }

    /// Acts on a note, unless one of its number acted before.
    fn act(&mut self, note: &Note) -> Result<Given, AllocError>
        requires indexed { IsIndexed self.old }
        requires low { is_limit note.now.gateway ≡ true }
        requires room { count_of (books_of self.old) < MOST_HEARD }
        ensures indexed { IsIndexed self.new }
        ensures heard { OnOk result (books_of self.new ≡ with_first_note (books_of self.old) note.now) }
        ensures given { IfOk result (λ given. given ≡ Acked) }
        ensures unchanged { OnErr result (books_of self.new ≡ books_of self.old) }
    {
        if self.is_noted(note.number) {
            return Ok(Given::Acked);
        }
        self.add_note(note)?;
        Ok(Given::Acked)
    }
}

/// What is funded at a token's first ask, at a wish: nothing if the token was voided.
fn funded_first(wish: u64, voided: bool, amount: u64, partial: bool) -> Option<u64>
    ensures { result ≡ funded_first wish voided amount partial }
{
    if voided {
        None
    } else if amount <= wish {
        Some(amount)
    } else if partial && wish >= 1 {
        Some(wish)
    } else {
        None
    }
}

fn given_of(funded: Option<u64>) -> Given
    ensures { result ≡ given_of funded }
{
    match funded {
        Some(amount) => Given::Funded(amount),
        None => Given::Refused,
    }
}
