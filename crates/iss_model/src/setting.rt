//! What a programme sets: products, controls and Commando Mode sets, and the states of cards and users.
use crate::{Currency, Token};

/// Who funds the purchases of a product.
#[derive(Clone, Copy, Debug, PartialEq, Eq)]
pub enum Funding {
    /// The user's own balance.
    Account,
    /// The customer's gateway, asked at each purchase.
    Gateway,
}

#[derive(Clone, Copy, Debug, PartialEq, Eq)]
pub enum CardState {
    Unactivated,
    Active,
    Suspended,
    Terminated,
}

#[derive(Clone, Copy, Debug, PartialEq, Eq)]
pub enum UserState {
    Active,
    Suspended,
    Closed,
}

/// The card or user that a move names, and the state that it is moved to.
#[derive(Clone, Copy, PartialEq)]
pub enum Moved {
    Card(Token, CardState),
    User(Token, UserState),
}

/// What a velocity control adds up over.
#[derive(Clone, Copy, Debug, PartialEq, Eq)]
pub enum Window {
    Transaction,
    Day,
    Week,
    Month,
    Lifetime,
}

/// Whose purchases a control counts.
#[derive(Clone, Copy, PartialEq)]
pub enum Association {
    Anybody,
    User(Token),
    Product(Token),
}

/// At which merchants a control counts.
#[derive(Clone, Copy, PartialEq)]
pub enum Scope {
    All,
    /// One merchant category code.
    Mcc(u16),
    /// The codes of a group, by the group's name.
    Group(Token),
    /// One merchant id.
    Mid(Token),
}

/// A user as it stands.
#[derive(Clone, Copy)]
pub struct User {
    pub name: Token,
    pub state: UserState,
}

/// A card as it stands.
#[derive(Clone, Copy)]
pub struct Card {
    pub name: Token,
    pub user: Token,
    pub product: Token,
    pub state: CardState,
}

/// A card product.
#[derive(Clone, Copy)]
pub struct Product {
    pub name: Token,
    pub currency: Currency,
    pub funding: Funding,
    /// How long the gateway has to answer, in milliseconds.
    pub timeout_ms: u64,
    /// How long an authorisation holds its amount, in milliseconds.
    pub hold_ms: u64,
}

/// A velocity control: the greatest amount or number of uses in each window.
#[derive(Clone, Copy)]
pub struct Control {
    pub name: Token,
    pub currency: Currency,
    pub window: Window,
    /// In minor units.
    pub amount_limit: Option<u64>,
    pub usage_limit: Option<u32>,
    pub association: Association,
    pub scope: Scope,
    /// How far the clock of its windows is ahead of UTC, in minutes.
    pub offset: i16,
    pub active: bool,
}

/// A Commando Mode set: when the programme may approve in the gateway's place.
#[derive(Clone, Copy)]
pub struct Set {
    pub name: Token,
    pub product: Token,
    pub currency: Currency,
    /// Whether it covers a gateway that can't be reached.
    pub connection: bool,
    /// Whether it covers a gateway that is late.
    pub timeout: bool,
    /// Whether it covers an answer that isn't one.
    pub application: bool,
    /// The most for one purchase, in minor units.
    pub max: u64,
    /// The most for a user and product on one day, in minor units.
    pub day_limit: u64,
    pub active: bool,
}
