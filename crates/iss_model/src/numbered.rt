//! Things of a few, each with a number of its own, which records and keys have for it.
ghost use Rattle.std.specs.Prelude.{◌≡◌, ℕ, Option};
ghost use Rattle.iss_model.specs.Inputs.{funding_number, window_number, card_state_number, user_state_number, outcome_number};
ghost use Rattle.iss_model.specs.Numbers.{funding_numbered, window_numbered, card_state_numbered, user_state_numbered, outcome_numbered, part_numbered, flag_number, flag_numbered};
ghost use Rattle.iss_model.specs.Sums.{part_number};

use crate::{CardState, Funding, Outcome, Part, UserState, Window};

/// A type of a few things, each with a number of its own in one byte.
pub trait Numbered {
    ghost as_number: { Self → ℕ };

    ghost numbered: { ℕ → Option Self };

    /// The number of this thing.
    fn number(self) -> u8
        ensures { result ≡ as_number self };

    /// The thing that this number alone says, or `None` if it says none.
    fn from_number(number: u8) -> Option<Self>
        ensures { result ≡ numbered number };
}

impl Numbered for bool {
    ghost as_number = { flag_number };

    ghost numbered = { flag_numbered };

    fn number(self) -> u8 {
        u8::from(self)
    }

    fn from_number(number: u8) -> Option<bool> {
        match number {
            0 => Some(false),
            1 => Some(true),
            _ => None,
        }
    }
}

impl Numbered for Funding {
    ghost as_number = { funding_number };

    ghost numbered = { funding_numbered };

    fn number(self) -> u8 {
        match self {
            Funding::Account => 1,
            Funding::Gateway => 2,
        }
    }

    fn from_number(number: u8) -> Option<Funding> {
        match number {
            1 => Some(Funding::Account),
            2 => Some(Funding::Gateway),
            _ => None,
        }
    }
}

impl Numbered for Window {
    ghost as_number = { window_number };

    ghost numbered = { window_numbered };

    fn number(self) -> u8 {
        match self {
            Window::Transaction => 1,
            Window::Day => 2,
            Window::Week => 3,
            Window::Month => 4,
            Window::Lifetime => 5,
        }
    }

    fn from_number(number: u8) -> Option<Window> {
        match number {
            1 => Some(Window::Transaction),
            2 => Some(Window::Day),
            3 => Some(Window::Week),
            4 => Some(Window::Month),
            5 => Some(Window::Lifetime),
            _ => None,
        }
    }
}

impl Numbered for CardState {
    ghost as_number = { card_state_number };

    ghost numbered = { card_state_numbered };

    fn number(self) -> u8 {
        match self {
            CardState::Unactivated => 1,
            CardState::Active => 2,
            CardState::Suspended => 3,
            CardState::Terminated => 4,
        }
    }

    fn from_number(number: u8) -> Option<CardState> {
        match number {
            1 => Some(CardState::Unactivated),
            2 => Some(CardState::Active),
            3 => Some(CardState::Suspended),
            4 => Some(CardState::Terminated),
            _ => None,
        }
    }
}

impl Numbered for UserState {
    ghost as_number = { user_state_number };

    ghost numbered = { user_state_numbered };

    fn number(self) -> u8 {
        match self {
            UserState::Active => 2,
            UserState::Suspended => 3,
            UserState::Closed => 5,
        }
    }

    fn from_number(number: u8) -> Option<UserState> {
        match number {
            2 => Some(UserState::Active),
            3 => Some(UserState::Suspended),
            5 => Some(UserState::Closed),
            _ => None,
        }
    }
}

// A part has a currency and an amount after its number, so no number alone is one.
impl Numbered for Outcome {
    ghost as_number = { outcome_number };

    ghost numbered = { outcome_numbered };

    fn number(self) -> u8 {
        match self {
            Outcome::Funded => 1,
            Outcome::Refused => 2,
            Outcome::Connection => 3,
            Outcome::Application => 4,
            Outcome::Partial(..) => 5,
        }
    }

    fn from_number(number: u8) -> Option<Outcome> {
        match number {
            1 => Some(Outcome::Funded),
            2 => Some(Outcome::Refused),
            3 => Some(Outcome::Connection),
            4 => Some(Outcome::Application),
            _ => None,
        }
    }
}

impl Numbered for Part {
    ghost as_number = { part_number };

    ghost numbered = { part_numbered };

    fn number(self) -> u8 {
        match self {
            Part::G => 1,
            Part::P => 2,
            Part::S => 3,
        }
    }

    fn from_number(number: u8) -> Option<Part> {
        match number {
            1 => Some(Part::G),
            2 => Some(Part::P),
            3 => Some(Part::S),
            _ => None,
        }
    }
}
