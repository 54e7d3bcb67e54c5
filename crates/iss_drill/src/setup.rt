//! What a drill sets up before its events: a product that the gateway funds, and a Commando Mode set and a control of it.
//! Ten users come next, with a card each.
ghost use Rattle.std.specs.Prelude.{◌≡◌, ◌<◌, ◌≤◌, IsTrue};
ghost use Rattle.iss_model.specs.Forms.{is_in_form};
ghost use Rattle.iss_drill.specs.Setup.{product_input, set_input, control_input, user_input, card_input, setup_input};

use crate::names::{lettered, named};
use iss_model::limits::{DEFAULT_HOLD, DEFAULT_TIMEOUT};
use iss_model::{Association, Currency, Funding, Input, Scope, Window};

/// How many inputs set a drill up.
pub(crate) const INPUTS: u32 = 23;

/// The input of this number, from 1 on.
#[tactic(auto, unfolding(crate::specs::Setup::setup_input))]
pub(crate) fn setup_input(number: u32) -> Input
    requires least { 1 ≤ number }
    requires most { number ≤ INPUTS }
    ensures value { result ≡ setup_input number }
    ensures form { IsTrue (is_in_form result) }
{
    match number {
        1 => product(),
        2 => set(),
        3 => control(),
        4..=13 => user(number - 4),
        _ => card(number - 14),
    }
}

fn product() -> Input
    ensures { result ≡ product_input }
{
    Input::Product {
        token: named(b'x', 1),
        product: lettered(b'd'),
        currency: Currency::Usd,
        funding: Funding::Gateway,
        timeout_ms: DEFAULT_TIMEOUT,
        hold_ms: DEFAULT_HOLD,
    }
}

fn set() -> Input
    ensures { result ≡ set_input }
{
    Input::Set {
        token: named(b'x', 2),
        set: lettered(b's'),
        product: lettered(b'd'),
        currency: Currency::Usd,
        connection: true,
        timeout: false,
        application: false,
        max: 5000,
        day_limit: 20_000,
        active: true,
    }
}

fn control() -> Input
    ensures { result ≡ control_input }
{
    Input::Control {
        token: named(b'x', 3),
        control: lettered(b'v'),
        currency: Currency::Usd,
        window: Window::Day,
        amount_limit: Some(50_000),
        usage_limit: None,
        association: Association::Anybody,
        scope: Scope::All,
        offset: 0,
        active: true,
    }
}

fn user(digit: u32) -> Input
    requires { digit < 10 }
    ensures { result ≡ user_input digit }
{
    Input::User {
        token: named(b'x', 4 + digit),
        user: named(b'u', digit),
    }
}

fn card(digit: u32) -> Input
    requires { digit < 10 }
    ensures { result ≡ card_input digit }
{
    Input::Card {
        token: named(b'x', 14 + digit),
        card: named(b'k', digit),
        user: named(b'u', digit),
        product: lettered(b'd'),
        active: true,
    }
}
