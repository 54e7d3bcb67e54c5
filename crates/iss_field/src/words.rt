//! The forms of fields that are a text: a token, or a word of a few.
ghost use Rattle.iss_field.specs.Values.{token_of, currency_value, funding_of, window_of, outcome_of, card_state_of, user_state_of};

use crate::fields::Form;
use crate::found::text;
use iss_amount::from_code;
use iss_model::{CardState, Currency, Funding, Token, UserState, Window};
use json::Value;

#[derive(Clone, Copy)]
pub struct TokenForm;

impl Form for TokenForm {
    type Said = Token;

    ghost said = { λ _. token_of };

    #[tactic(auto, unfolding(crate::specs::Values::token_of))]
    fn read(self, found: &Value<'_>) -> Option<Token> {
        Token::new(text(found)?.as_bytes())
    }
}

/// The code of a currency of ISO 4217.
#[derive(Clone, Copy)]
pub struct CurrencyForm;

impl Form for CurrencyForm {
    type Said = Currency;

    ghost said = { λ _. currency_value };

    #[tactic(auto, unfolding(crate::specs::Values::currency_value))]
    fn read(self, found: &Value<'_>) -> Option<Currency> {
        from_code(text(found)?.as_bytes())
    }
}

#[derive(Clone, Copy)]
pub struct FundingForm;

impl Form for FundingForm {
    type Said = Funding;

    ghost said = { λ _. funding_of };

    #[tactic(auto, unfolding(crate::specs::Values::funding_of, crate::specs::Values::funding_of_text))]
    fn read(self, found: &Value<'_>) -> Option<Funding> {
        match text(found)? {
            "ACCOUNT" => Some(Funding::Account),
            "GATEWAY" => Some(Funding::Gateway),
            _ => None,
        }
    }
}

#[derive(Clone, Copy)]
pub struct WindowForm;

impl Form for WindowForm {
    type Said = Window;

    ghost said = { λ _. window_of };

    #[tactic(auto, unfolding(crate::specs::Values::window_of, crate::specs::Values::window_of_text))]
    fn read(self, found: &Value<'_>) -> Option<Window> {
        match text(found)? {
            "TRANSACTION" => Some(Window::Transaction),
            "DAY" => Some(Window::Day),
            "WEEK" => Some(Window::Week),
            "MONTH" => Some(Window::Month),
            "LIFETIME" => Some(Window::Lifetime),
            _ => None,
        }
    }
}

/// The outcome of a gateway's answer, by its word alone: a part has a currency and an amount in fields of their own.
#[derive(Clone, Copy, Debug, PartialEq, Eq)]
pub enum OutcomeWord {
    Funded,
    Refused,
    Connection,
    Application,
    Partial,
}

#[derive(Clone, Copy)]
pub struct OutcomeForm;

impl Form for OutcomeForm {
    type Said = OutcomeWord;

    ghost said = { λ _. outcome_of };

    #[tactic(auto, unfolding(crate::specs::Values::outcome_of, crate::specs::Values::outcome_of_text))]
    fn read(self, found: &Value<'_>) -> Option<OutcomeWord> {
        match text(found)? {
            "FUNDED" => Some(OutcomeWord::Funded),
            "REFUSED" => Some(OutcomeWord::Refused),
            "CONNECTION" => Some(OutcomeWord::Connection),
            "APPLICATION" => Some(OutcomeWord::Application),
            "PARTIAL" => Some(OutcomeWord::Partial),
            _ => None,
        }
    }
}

#[derive(Clone, Copy)]
pub struct CardStateForm;

impl Form for CardStateForm {
    type Said = CardState;

    ghost said = { λ _. card_state_of };

    #[tactic(auto, unfolding(crate::specs::Values::card_state_of, crate::specs::Values::card_state_of_text))]
    fn read(self, found: &Value<'_>) -> Option<CardState> {
        match text(found)? {
            "UNACTIVATED" => Some(CardState::Unactivated),
            "ACTIVE" => Some(CardState::Active),
            "SUSPENDED" => Some(CardState::Suspended),
            "TERMINATED" => Some(CardState::Terminated),
            _ => None,
        }
    }
}

#[derive(Clone, Copy)]
pub struct UserStateForm;

impl Form for UserStateForm {
    type Said = UserState;

    ghost said = { λ _. user_state_of };

    #[tactic(auto, unfolding(crate::specs::Values::user_state_of, crate::specs::Values::user_state_of_text))]
    fn read(self, found: &Value<'_>) -> Option<UserState> {
        match text(found)? {
            "ACTIVE" => Some(UserState::Active),
            "SUSPENDED" => Some(UserState::Suspended),
            "CLOSED" => Some(UserState::Closed),
            _ => None,
        }
    }
}
