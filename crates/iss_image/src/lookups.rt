//! What the events of a state say of controls and transactions, for the lists that leave it out.
ghost use Rattle.std.specs.Prelude.{◌≡◌, OnOk, IfOk};
ghost use Rattle.iss_image.specs.Lookups.{window_set, card_made, purchase_asked, first_windows, first_cards, first_purchases, window_by, window_in, holder_among, holder_in, with_first, with_told};

use iss_image_lists::{Holder, Holders, Windows};
use iss_index::Index;
use iss_model::{Currency, Input, Named, Seen, Token, Verdict, Window};
use std::alloc::{AllocError, Global};

/// A control that a done event sets, and its window.
#[derive(Clone, Copy)]
pub struct WindowSet {
    pub control: Token,
    pub window: Window,
}

/// A card that a done event makes, and its user.
#[derive(Clone, Copy)]
pub struct CardMade {
    pub card: Token,
    pub user: Token,
}

/// A transaction with the card and the currency that it was asked for.
#[derive(Clone, Copy)]
pub struct Purchase {
    pub txn: Token,
    pub card: Token,
    pub currency: Currency,
}

impl Named for WindowSet {
    ghost name_of = { λ w. w.control };

    fn name(&self) -> &Token {
        &self.control
    }
}

impl Named for CardMade {
    ghost name_of = { λ c. c.card };

    fn name(&self) -> &Token {
        &self.card
    }
}

impl Named for Purchase {
    ghost name_of = { λ p. p.txn };

    fn name(&self) -> &Token {
        &self.txn
    }
}

fn window_set(event: &Seen) -> Option<WindowSet>
    ensures { result ≡ window_set event.now.verdict event.now.body.input }
{
    match (&event.verdict, &event.body.input) {
        (
            Some(Verdict::Done),
            Input::Control {
                control,
                window,
                ..
            },
        ) => Some(WindowSet {
            control: *control,
            window: *window,
        }),
        _ => None,
    }
}

fn card_made(event: &Seen) -> Option<CardMade>
    ensures { result ≡ card_made event.now.verdict event.now.body.input }
{
    match (&event.verdict, &event.body.input) {
        (Some(Verdict::Done), Input::Card { card, user, .. }) => Some(CardMade {
            card: *card,
            user: *user,
        }),
        _ => None,
    }
}

fn purchase_asked(input: &Input) -> Option<Purchase>
    ensures { result ≡ purchase_asked input.now }
{
    match input {
        Input::Authorization {
            token,
            card,
            currency,
            ..
        } => Some(Purchase {
            txn: *token,
            card: *card,
            currency: *currency,
        }),
        _ => None,
    }
}

/// Adds a thing unless one of its name is there.
fn add_first<T: Named + Drop>(index: &mut Index<T>, thing: T) -> Result<(), AllocError>
    ensures { OnOk result (index.new ≡ with_first T.name_of index.old thing) }
{
    if index.get(thing.name()).is_none() {
        index.add(thing)?;
    }
    Ok(())
}

/// Adds the thing that an event tells of, if it tells of one and none of its name is there.
fn add_told<T: Named + Drop>(index: &mut Index<T>, told: Option<T>) -> Result<(), AllocError>
    ensures { OnOk result (index.new ≡ with_told T.name_of index.old told) }
{
    match told {
        Some(thing) => add_first(index, thing),
        None => Ok(()),
    }
}

fn windows_set(alloc: Global, events: &[Seen]) -> Result<Index<WindowSet>, AllocError>
    ensures { IfOk result (λ index. index ≡ first_windows events.now) }
{
    let mut index = Index::new(alloc);
    for event in events {
        add_told(&mut index, window_set(event))?;
    }
    Ok(index)
}

fn cards_made(alloc: Global, events: &[Seen]) -> Result<Index<CardMade>, AllocError>
    ensures { IfOk result (λ index. index ≡ first_cards events.now) }
{
    let mut index = Index::new(alloc);
    for event in events {
        add_told(&mut index, card_made(event))?;
    }
    Ok(index)
}

fn purchases(alloc: Global, events: &[Seen]) -> Result<Index<Purchase>, AllocError>
    ensures { IfOk result (λ index. index ≡ first_purchases events.now) }
{
    let mut index = Index::new(alloc);
    for event in events {
        add_told(&mut index, purchase_asked(&event.body.input))?;
    }
    Ok(index)
}

/// The windows of the controls that events set.
#[derive(Drop)]
pub(crate) struct ControlWindows {
    index: Index<WindowSet>,
}

impl ControlWindows {
    pub(crate) fn of(alloc: Global, events: &[Seen]) -> Result<ControlWindows, AllocError>
        ensures { IfOk result (λ found. window_by found.index ≡ window_in events.now) }
    {
        let index = windows_set(alloc, events)?;
        Ok(ControlWindows { index })
    }
}

impl Windows for ControlWindows {
    ghost window_of = { λ windows. window_by windows.index };

    fn window_of(&self, control: &Token) -> Option<Window> {
        let set = self.index.get(control)?;
        Some(set.window)
    }
}

/// The users and the currencies of the transactions that events ask for.
#[derive(Drop)]
pub(crate) struct TxnHolders {
    purchases: Index<Purchase>,
    cards: Index<CardMade>,
}

impl TxnHolders {
    /// Nobody. Nothing is allocated.
    pub(crate) fn none(alloc: Global) -> TxnHolders {
        TxnHolders {
            purchases: Index::new(alloc),
            cards: Index::new(alloc),
        }
    }

    pub(crate) fn of(alloc: Global, events: &[Seen]) -> Result<TxnHolders, AllocError>
        ensures { IfOk result (λ found. holder_among found.purchases found.cards ≡ holder_in events.now) }
    {
        let purchases = purchases(alloc, events)?;
        let cards = cards_made(alloc, events)?;
        Ok(TxnHolders { purchases, cards })
    }
}

impl Holders for TxnHolders {
    ghost holder_of = { λ holders. holder_among holders.purchases holders.cards };

    fn holder_of(&self, txn: &Token) -> Option<Holder> {
        let purchase = self.purchases.get(txn)?;
        let card = self.cards.get(&purchase.card)?;
        Some(Holder {
            user: card.user,
            currency: purchase.currency,
        })
    }
}
