//! The forms that fields of an input meet, whatever the book.
ghost use Rattle.std.specs.Prelude.{◌≡◌};
ghost use Rattle.iss_model.specs.Forms.{is_amount, is_mcc, is_limit, is_timeout, is_hold_time, is_number, is_stamp};
ghost use Rattle.iss_model.specs.Forms.{are_rising, are_mccs, may_count, are_limits, is_scope, is_offset, is_outcome, is_in_form};

use iss_model::limits::{
    FIRST_NUMBER, GREATEST_AMOUNT, GREATEST_LIMIT, GREATEST_MCC, GREATEST_NUMBER, GREATEST_OFFSET,
    GREATEST_USAGE, LAST_STAMP, LEAST_AMOUNT, LEAST_OFFSET, LONGEST_HOLD, LONGEST_TIMEOUT,
    MOST_MCCS, SHORTEST_HOLD, SHORTEST_TIMEOUT,
};
use iss_model::{Input, Outcome, Scope, Window};

/// Whether each field of an input is of its form.
pub(crate) fn is_in_form(input: &Input) -> bool
    ensures { result ≡ is_in_form input.now }
{
    match input {
        Input::User { .. }
        | Input::Card { .. }
        | Input::Move { .. }
        | Input::Switch { .. }
        | Input::Time => true,
        Input::Product {
            timeout_ms,
            hold_ms,
            ..
        } => is_timeout(*timeout_ms) && is_hold_time(*hold_ms),
        Input::Group { mccs, .. } => are_mccs(mccs.as_slice()),
        Input::Control {
            window,
            amount_limit,
            usage_limit,
            scope,
            offset,
            ..
        } => {
            are_limits(*window, *amount_limit, *usage_limit)
                && is_scope(scope)
                && is_offset(*offset)
        }
        Input::Set { max, day_limit, .. } => is_limit(*max) && is_limit(*day_limit),
        Input::Authorization { amount, mcc, .. } => is_amount(*amount) && is_mcc(*mcc),
        Input::Load { amount, .. }
        | Input::Increment { amount, .. }
        | Input::Reversal { amount, .. }
        | Input::Clearing { amount, .. }
        | Input::Refund { amount, .. } => is_amount(*amount),
        Input::Answer { call, outcome } => is_number(call.0) && is_outcome(*outcome),
        Input::Ack { notice } => is_number(*notice),
    }
}

/// Whether a moment is a stamp: up to the end of the year 9998, in milliseconds since 1970.
pub(crate) fn is_stamp(at: u64) -> bool
    ensures { result ≡ is_stamp at }
{
    at <= LAST_STAMP
}

fn is_amount(amount: u64) -> bool
    ensures { result ≡ is_amount amount }
{
    LEAST_AMOUNT <= amount && amount <= GREATEST_AMOUNT
}

fn is_mcc(mcc: u16) -> bool
    ensures { result ≡ is_mcc mcc }
{
    mcc <= GREATEST_MCC
}

fn is_limit(limit: u64) -> bool
    ensures { result ≡ is_limit limit }
{
    limit <= GREATEST_LIMIT
}

fn is_timeout(millis: u64) -> bool
    ensures { result ≡ is_timeout millis }
{
    SHORTEST_TIMEOUT <= millis && millis <= LONGEST_TIMEOUT
}

fn is_hold_time(millis: u64) -> bool
    ensures { result ≡ is_hold_time millis }
{
    SHORTEST_HOLD <= millis && millis <= LONGEST_HOLD
}

fn is_number(number: u32) -> bool
    ensures { result ≡ is_number number }
{
    FIRST_NUMBER <= number && number <= GREATEST_NUMBER
}

fn is_offset(minutes: i16) -> bool
    ensures { result ≡ is_offset minutes }
{
    LEAST_OFFSET <= minutes && minutes <= GREATEST_OFFSET
}

fn are_mccs(codes: &[u16]) -> bool
    ensures { result ≡ are_mccs codes.now }
{
    !codes.is_empty() && codes.len() <= MOST_MCCS && are_rising(codes)
}

fn are_rising(codes: &[u16]) -> bool
    ensures { result ≡ are_rising 0 codes.now }
{
    let mut low = 0;
    for code in codes {
        if *code < low {
            return false;
        }
        if *code > GREATEST_MCC {
            return false;
        }
        low = *code + 1;
    }
    true
}

fn are_limits(window: Window, amount: Option<u64>, usage: Option<u32>) -> bool
    ensures { result ≡ are_limits window amount usage }
{
    amount.is_none_or(|limit| limit <= GREATEST_LIMIT)
        && usage.is_none_or(|limit| limit <= GREATEST_USAGE)
        && (amount.is_some() || usage.is_some())
        && may_count(window, usage)
}

fn may_count(window: Window, usage: Option<u32>) -> bool
    ensures { result ≡ may_count window usage }
{
    match window {
        Window::Transaction => usage.is_none(),
        Window::Day | Window::Week | Window::Month | Window::Lifetime => true,
    }
}

fn is_scope(scope: &Scope) -> bool
    ensures { result ≡ is_scope scope.now }
{
    match scope {
        Scope::Mcc(mcc) => is_mcc(*mcc),
        Scope::All | Scope::Group(_) | Scope::Mid(_) => true,
    }
}

fn is_outcome(outcome: Outcome) -> bool
    ensures { result ≡ is_outcome outcome }
{
    match outcome {
        Outcome::Partial(_, amount) => is_amount(amount),
        Outcome::Funded | Outcome::Refused | Outcome::Connection | Outcome::Application => true,
    }
}
