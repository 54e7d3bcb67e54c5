//! The books of a gateway with what finds things in them.
ghost use Rattle.std.specs.Prelude.{◌≡◌, ◌<◌, ◌++◌, ◌∷◌, [], None, true, false, OnOk, OnErr, option_copied, slice_get};
ghost use Rattle.iss_model.specs.Forms.{is_limit};
ghost use Rattle.iss_gateway.specs.declared.books.TheConstants.{MOST_HEARD};
ghost use Rattle.iss_gateway.specs.Books.{new_books, count_of, promise_of, is_noted, is_voided};
ghost use Rattle.iss_gateway.specs.Rules.{has};
ghost use Rattle.iss_gateway.specs.Tables.{IsIndexed, books_of, is_low, undone_by};

use crate::books::{Note, Promise};
use crate::sums::{add, begin_note, begin_sum, sum_of, take_back, take_undone, user_key};
use crate::tokens::{Known, begin_token, begin_voided, known_of, place_promise, void};
use iss_model::{Currency, Token};
use std::alloc::{AllocError, Global};
use std::collections::{BTreeMap, BTreeSet};
use uuid::Uuid;

/// The promises and the notes, with what is known of each token, the numbers of the notes, and what each user has.
///
/// Tokens, numbers and users come from outside, so they are found in trees: no choice of them makes a look-up slow.
#[derive(Drop)]
pub(crate) struct Table {
    pub(crate) promises: Vec<Promise>,
    pub(crate) notes: Vec<Note>,
    pub(crate) tokens: BTreeMap<Uuid, Known>,
    pub(crate) numbers: BTreeSet<u32>,
    pub(crate) sums: BTreeMap<(Token, u16), i64>,
}

impl Table {
    pub(crate) fn new(alloc: Global) -> Table
        ensures indexed { IsIndexed result }
        ensures empty { books_of result ≡ new_books }
    {
        Table {
            promises: Vec::new(alloc),
            notes: Vec::new(alloc),
            tokens: BTreeMap::new(alloc),
            numbers: BTreeSet::new(alloc),
            sums: BTreeMap::new(alloc),
        }
    }

    /// The promise of a token.
    pub(crate) fn promise(&self, token: &Uuid) -> Option<&Promise>
        requires { IsIndexed self.now }
        ensures { option_copied result ≡ promise_of (books_of self.now) token.now }
    {
        let place = known_of(&self.tokens, token).promise?;
        promise_at(&self.promises, place)
    }

    /// Whether a note that acted voided the token.
    pub(crate) fn is_voided(&self, token: &Uuid) -> bool
        requires { IsIndexed self.now }
        ensures { result ≡ is_voided (books_of self.now) token.now }
    {
        known_of(&self.tokens, token).voided
    }

    /// Whether a note of this number acted.
    pub(crate) fn is_noted(&self, number: u32) -> bool
        requires { IsIndexed self.now }
        ensures { result ≡ is_noted (books_of self.now) number }
    {
        self.numbers.contains(&number)
    }

    /// What a user has in a currency: 0 if it is below 0.
    pub(crate) fn has(&self, user: &Token, currency: Currency) -> u64
        requires { IsIndexed self.now }
        ensures { result ≡ has (books_of self.now) user.now currency }
    {
        sum_of(&self.sums, &user_key(user, currency)).max(0) as u64
    }

    /// Adds a promise for a token that has none. If an allocation fails, the books stay as they were.
    pub(crate) fn add_promise(&mut self, promise: &Promise) -> Result<(), AllocError>
        requires indexed { IsIndexed self.old }
        requires first { promise_of (books_of self.old) promise.now.token ≡ None }
        requires clear { is_voided (books_of self.old) promise.now.token ≡ true → promise.now.funded ≡ None }
        requires low { is_low promise.now.funded ≡ true }
        requires room { count_of (books_of self.old) < MOST_HEARD }
        ensures indexed { IsIndexed self.new }
        ensures added { OnOk result (books_of self.new ≡ record (books_of self.old) { promises = self.old.promises.items ++ promise.now ∷ [] }) }
        ensures unchanged { OnErr result (books_of self.new ≡ books_of self.old) }
    {
        let user = user_key(&promise.user, promise.currency);
        begin_token(&mut self.tokens, &promise.token)?;
        begin_sum(&mut self.sums, user)?;
        let place = self.promises.len();
        self.promises.push(*promise)?;
        place_promise(&mut self.tokens, &promise.token, place);
        add(&mut self.sums, &user, promise.amount());
        Ok(())
    }

    /// Adds a note of a new number, by which the promise of its token is undone. If an allocation fails, the books stay as
    /// they were.
    pub(crate) fn add_note(&mut self, note: &Note) -> Result<(), AllocError>
        requires indexed { IsIndexed self.old }
        requires first { is_noted (books_of self.old) note.now.number ≡ false }
        requires low { is_limit note.now.gateway ≡ true }
        requires room { count_of (books_of self.old) < MOST_HEARD }
        ensures indexed { IsIndexed self.new }
        ensures added { OnOk result (books_of self.new ≡ record (books_of self.old) { notes = self.old.notes.items ++ note.now ∷ [] }) }
        ensures unchanged { OnErr result (books_of self.new ≡ books_of self.old) }
    {
        let undone = self.undone_by(note.token);
        begin_voided(&mut self.tokens, note.token)?;
        begin_note(&mut self.sums, note, &undone)?;
        self.notes.reserve(1)?;
        self.numbers.insert(note.number)?;
        self.notes.push(*note)?;
        void(&mut self.tokens, note.token);
        take_undone(&mut self.sums, &undone);
        take_back(&mut self.sums, note);
        Ok(())
    }

    /// The promise that a note undoes by this token: none if the token was voided before.
    fn undone_by(&self, token: Option<Uuid>) -> Option<Promise>
        requires { IsIndexed self.now }
        ensures { result ≡ undone_by (books_of self.now) token }
    {
        let token = token?;
        if self.is_voided(&token) {
            return None;
        }
        self.promise(&token).copied()
    }
}

/// The promise at a place.
fn promise_at(promises: &[Promise], place: usize) -> Option<&Promise>
    ensures { option_copied result ≡ slice_get promises.now place }
{
    promises.get(place)
}
