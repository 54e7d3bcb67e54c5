//! The events of a drill: purchases, and clearings and reversals of any of the transactions so far.
ghost use Rattle.std.specs.Prelude.{◌≡◌, ◌<◌, ◌≤◌, ◌%◌, ◌==◌, ◌&&◌, nat_lt, IsTrue, if◌then◌else◌};
ghost use Rattle.iss_model.specs.Forms.{is_in_form, is_outcome};
ghost use Rattle.iss_drill.specs.Events.{amount_of, past_event, purchase, clearing, reversal, own_event, outcome_of};

use crate::names::named;
use iss_model::{Currency, Input, Outcome, Token};

/// The merchant category code of all purchases: grocery stores.
const GROCERIES: u16 = 5411;

/// The event of this number by what was drawn for it, if it doesn't repeat the one before it.
#[tactic(auto, unfolding(crate::specs::Events::own_event))]
fn own_event(number: u32, drawn: u32) -> Input
    requires first { 1 ≤ number }
    requires small { drawn < 32768 }
    ensures value { result ≡ own_event number drawn }
    ensures form { IsTrue (is_in_form result) }
{
    match drawn % 8 {
        4 | 5 => clearing(number, drawn),
        6 => reversal(number, drawn),
        _ => purchase(number, drawn),
    }
}

/// The event of this number: its own, or the one before it again if a repeat is drawn.
pub(crate) fn next_event(number: u32, drawn: u32, last: Input) -> Input
    requires first { 1 ≤ number }
    requires small { drawn < 32768 }
    requires form { IsTrue (is_in_form last) }
    ensures value { result ≡ (if drawn % 8 == 7 && nat_lt 1 number then last else own_event number drawn) }
    ensures form { IsTrue (is_in_form result) }
{
    if drawn % 8 == 7 && number > 1 {
        return last;
    }
    own_event(number, drawn)
}

fn purchase(number: u32, drawn: u32) -> Input
    requires { drawn < 32768 }
    ensures { result ≡ purchase number drawn }
{
    Input::Authorization {
        token: named(b'e', number),
        card: named(b'k', drawn / 8 % 10),
        currency: Currency::Usd,
        amount: amount_of(drawn),
        mcc: GROCERIES,
        mid: named(b'm', drawn % 7),
        partial: false,
    }
}

fn clearing(number: u32, drawn: u32) -> Input
    requires first { 1 ≤ number }
    requires small { drawn < 32768 }
    ensures { result ≡ clearing number drawn }
{
    Input::Clearing {
        token: named(b'e', number),
        txn: past_event(number, drawn),
        currency: Currency::Usd,
        amount: amount_of(drawn),
        last: true,
    }
}

fn reversal(number: u32, drawn: u32) -> Input
    requires first { 1 ≤ number }
    requires small { drawn < 32768 }
    ensures { result ≡ reversal number drawn }
{
    Input::Reversal {
        token: named(b'e', number),
        txn: past_event(number, drawn),
        currency: Currency::Usd,
        amount: amount_of(drawn),
    }
}

/// The amount in cents.
fn amount_of(drawn: u32) -> u64
    ensures { result ≡ amount_of drawn }
{
    1 + u64::from(drawn % 5000)
}

/// One of the events so far, by its name.
fn past_event(number: u32, drawn: u32) -> Token
    requires first { 1 ≤ number }
    requires small { drawn < 32768 }
    ensures { result ≡ past_event number drawn }
{
    named(b'e', 1 + drawn / 8 % number)
}

/// How the gateway answers the call of an event.
#[tactic(auto, unfolding(crate::specs::Events::outcome_of))]
pub(crate) fn outcome_of(drawn: u32) -> Outcome
    ensures value { result ≡ outcome_of drawn }
    ensures form { IsTrue (is_outcome result) }
{
    match drawn % 11 {
        0 => Outcome::Connection,
        1 => Outcome::Refused,
        _ => Outcome::Funded,
    }
}
