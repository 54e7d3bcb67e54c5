//! The verdict on an event and the mark of its call: how they are written, and how they are read again.
ghost use Rattle.std.specs.Prelude.{◌≡◌, ◌++◌, OnOk, option_map};
ghost use Rattle.iss_codec.specs.Readers.{taken_field};
ghost use Rattle.iss_codec.specs.Places.{place_bytes, take_place};
ghost use Rattle.iss_image.specs.Images.{reason_number, reason_details, reason_bytes, verdict_bytes, how_bytes, mark_bytes};
ghost use Rattle.iss_image.specs.TakingEvents.{reason_numbered, take_card_states, take_user_states, take_refused_move, currency_of_event, take_part_approved, take_part_of, take_part_funded, take_mark, take_reason, take_declined, take_verdict};

use iss_codec::{Places, Reader, put_place, put_u64};
use iss_model::{
    CallState, Currency, Failure, How, Input, Moved, Numbered, Reason, Token, Verdict,
};
use std::alloc::AllocError;

/// The number of a reason, from 1. A refused move has one number, whomever it moves.
fn reason_number(reason: &Reason) -> u8
    ensures { result ≡ reason_number reason.now }
{
    match reason {
        Reason::Exists => 1,
        Reason::Limit => 2,
        Reason::UserUnknown => 3,
        Reason::ProductUnknown => 4,
        Reason::CardUnknown => 5,
        Reason::GroupUnknown => 6,
        Reason::ControlFixed => 7,
        Reason::SetFixed => 8,
        Reason::MoveCard(..) => 9,
        Reason::MoveUser(..) => 9,
        Reason::CardState => 10,
        Reason::UserState => 11,
        Reason::Currency => 12,
        Reason::TxnUnknown => 13,
        Reason::TxnClosed => 14,
        Reason::TxnPending => 15,
        Reason::Control(_) => 16,
        Reason::InsufficientFunds => 17,
        Reason::GatewayDeclined => 18,
        Reason::GatewayConnection => 19,
        Reason::GatewayTimeout => 20,
        Reason::GatewayApplication => 21,
        Reason::GatewaySwitch => 22,
        Reason::StandInLimit(_) => 23,
        Reason::Reversed => 24,
        Reason::Cleared => 25,
        Reason::Expired => 26,
        Reason::RefundOver => 27,
    }
}

/// The reason that this number alone says, or `None` if it says none.
fn reason_numbered(number: u8) -> Option<Reason>
    ensures { result ≡ reason_numbered number }
{
    match number {
        1 => Some(Reason::Exists),
        2 => Some(Reason::Limit),
        3 => Some(Reason::UserUnknown),
        4 => Some(Reason::ProductUnknown),
        5 => Some(Reason::CardUnknown),
        6 => Some(Reason::GroupUnknown),
        7 => Some(Reason::ControlFixed),
        8 => Some(Reason::SetFixed),
        10 => Some(Reason::CardState),
        11 => Some(Reason::UserState),
        12 => Some(Reason::Currency),
        13 => Some(Reason::TxnUnknown),
        14 => Some(Reason::TxnClosed),
        15 => Some(Reason::TxnPending),
        17 => Some(Reason::InsufficientFunds),
        18 => Some(Reason::GatewayDeclined),
        19 => Some(Reason::GatewayConnection),
        20 => Some(Reason::GatewayTimeout),
        21 => Some(Reason::GatewayApplication),
        22 => Some(Reason::GatewaySwitch),
        24 => Some(Reason::Reversed),
        25 => Some(Reason::Cleared),
        26 => Some(Reason::Expired),
        27 => Some(Reason::RefundOver),
        _ => None,
    }
}

/// The currency of an event's amount, if it has one.
fn currency_of_event(input: &Input) -> Option<Currency>
    ensures { result ≡ currency_of_event input.now }
{
    match input {
        Input::Load { currency, .. }
        | Input::Authorization { currency, .. }
        | Input::Increment { currency, .. }
        | Input::Reversal { currency, .. }
        | Input::Clearing { currency, .. }
        | Input::Refund { currency, .. } => Some(*currency),
        Input::User { .. }
        | Input::Card { .. }
        | Input::Move { .. }
        | Input::Product { .. }
        | Input::Group { .. }
        | Input::Control { .. }
        | Input::Set { .. }
        | Input::Switch { .. }
        | Input::Answer { .. }
        | Input::Ack { .. }
        | Input::Time => None,
    }
}

#[tactic(auto, unfolding(crate::specs::TakingEvents::take_part_funded))]
fn take_part_funded(reader: &mut Reader<'_>) -> Option<Option<CallState>>
    ensures { taken_field result reader.new.bytes.now ≡ take_part_funded reader.old.bytes.now }
{
    let amount = reader.take_u64()?;
    Some(Some(CallState::Closed(How::Partial(amount))))
}

/// How the call of an event stands, if it has one.
#[tactic(auto, unfolding(crate::specs::TakingEvents::take_mark))]
pub(crate) fn take_mark(reader: &mut Reader<'_>) -> Option<Option<CallState>>
    ensures { taken_field result reader.new.bytes.now ≡ take_mark reader.old.bytes.now }
{
    match reader.take_byte()? {
        0 => Some(None),
        1 => Some(Some(CallState::Asked)),
        2 => Some(Some(CallState::Closed(How::Funded))),
        3 => Some(Some(CallState::Closed(How::Refused))),
        4 => Some(Some(CallState::Closed(How::Failed(Failure::Connection)))),
        5 => Some(Some(CallState::Closed(How::Failed(Failure::Timeout)))),
        6 => Some(Some(CallState::Closed(How::Failed(Failure::Application)))),
        7 => Some(Some(CallState::Closed(How::Abandoned))),
        8 => take_part_funded(reader),
        _ => None,
    }
}

#[tactic(auto, unfolding(crate::specs::TakingEvents::take_card_states))]
fn take_card_states(reader: &mut Reader<'_>) -> Option<Reason>
    ensures { taken_field result reader.new.bytes.now ≡ take_card_states reader.old.bytes.now }
{
    let from = reader.take_numbered()?;
    let to = reader.take_numbered()?;
    Some(Reason::MoveCard(from, to))
}

#[tactic(auto, unfolding(crate::specs::TakingEvents::take_user_states))]
fn take_user_states(reader: &mut Reader<'_>) -> Option<Reason>
    ensures { taken_field result reader.new.bytes.now ≡ take_user_states reader.old.bytes.now }
{
    let from = reader.take_numbered()?;
    let to = reader.take_numbered()?;
    Some(Reason::MoveUser(from, to))
}

/// The states of a move that was refused, if the event is a move.
fn take_refused_move(reader: &mut Reader<'_>, input: &Input) -> Option<Reason>
    ensures { taken_field result reader.new.bytes.now ≡ take_refused_move input.now reader.old.bytes.now }
{
    match input {
        Input::Move {
            who: Moved::Card(..),
            ..
        } => take_card_states(reader),
        Input::Move {
            who: Moved::User(..),
            ..
        } => take_user_states(reader),
        _ => None,
    }
}

/// Why this event was declined.
#[tactic(auto, unfolding(crate::specs::TakingEvents::take_reason, iss_codec::specs::Taking::take_named))]
fn take_reason(reader: &mut Reader<'_>, tokens: &[Token], input: &Input) -> Option<Reason>
    ensures { taken_field result reader.new.bytes.now ≡ take_reason (take_place tokens.now) input.now reader.old.bytes.now }
{
    match reader.take_byte()? {
        9 => take_refused_move(reader, input),
        16 => Some(Reason::Control(reader.take_place(tokens)?)),
        23 => Some(Reason::StandInLimit(reader.take_place(tokens)?)),
        number => reason_numbered(number),
    }
}

#[tactic(auto, unfolding(crate::specs::TakingEvents::take_declined))]
fn take_declined(
    reader: &mut Reader<'_>,
    tokens: &[Token],
    input: &Input,
) -> Option<Option<Verdict>>
    ensures { taken_field result reader.new.bytes.now ≡ take_declined (take_place tokens.now) input.now reader.old.bytes.now }
{
    let reason = take_reason(reader, tokens, input)?;
    Some(Some(Verdict::Declined(reason)))
}

#[tactic(auto, unfolding(crate::specs::TakingEvents::take_part_approved))]
fn take_part_of(reader: &mut Reader<'_>, currency: Option<Currency>) -> Option<Option<Verdict>>
    ensures { taken_field result reader.new.bytes.now ≡ take_part_of currency reader.old.bytes.now }
{
    let currency = currency?;
    let amount = reader.take_u64()?;
    Some(Some(Verdict::Partial(currency, amount)))
}

/// The verdict on this event, if there is one.
#[tactic(auto, unfolding(crate::specs::TakingEvents::take_verdict))]
pub(crate) fn take_verdict(
    reader: &mut Reader<'_>,
    tokens: &[Token],
    input: &Input,
) -> Option<Option<Verdict>>
    ensures { taken_field result reader.new.bytes.now ≡ take_verdict (take_place tokens.now) input.now reader.old.bytes.now }
{
    match reader.take_byte()? {
        0 => Some(None),
        1 => Some(Some(Verdict::Done)),
        2 => Some(Some(Verdict::Approved)),
        3 => take_declined(reader, tokens, input),
        4 => take_part_of(reader, currency_of_event(input)),
        _ => None,
    }
}

/// What a reason says besides its number.
fn put_details<P: Places>(out: &mut Vec<u8>, reason: &Reason, places: &P) -> Result<(), AllocError>
    ensures { OnOk result (out.new.items ≡ out.old.items ++ reason_details (place_bytes (P.tokens places.now)) reason.now) }
{
    match reason {
        Reason::MoveCard(from, to) => {
            out.push(from.number())?;
            Ok(out.push(to.number())?)
        }
        Reason::MoveUser(from, to) => {
            out.push(from.number())?;
            Ok(out.push(to.number())?)
        }
        Reason::Control(name) => put_place(out, name, places),
        Reason::StandInLimit(name) => put_place(out, name, places),
        _ => Ok(()),
    }
}

fn put_reason<P: Places>(out: &mut Vec<u8>, reason: &Reason, places: &P) -> Result<(), AllocError>
    ensures { OnOk result (out.new.items ≡ out.old.items ++ reason_bytes (place_bytes (P.tokens places.now)) reason.now) }
{
    out.push(reason_number(reason))?;
    put_details(out, reason, places)
}

/// The verdict on an event, if there is one.
pub(crate) fn put_verdict<P: Places>(
    out: &mut Vec<u8>,
    verdict: &Option<Verdict>,
    places: &P,
) -> Result<(), AllocError>
    ensures { OnOk result (out.new.items ≡ out.old.items ++ verdict_bytes (place_bytes (P.tokens places.now)) verdict.now) }
{
    match verdict {
        None => Ok(out.push(0)?),
        Some(Verdict::Done) => Ok(out.push(1)?),
        Some(Verdict::Approved) => Ok(out.push(2)?),
        Some(Verdict::Declined(reason)) => {
            out.push(3)?;
            put_reason(out, reason, places)
        }
        Some(Verdict::Partial(_, amount)) => {
            out.push(4)?;
            put_u64(out, *amount)
        }
    }
}

fn put_how(out: &mut Vec<u8>, how: How) -> Result<(), AllocError>
    ensures { OnOk result (out.new.items ≡ out.old.items ++ how_bytes how) }
{
    match how {
        How::Funded => Ok(out.push(2)?),
        How::Refused => Ok(out.push(3)?),
        How::Failed(Failure::Connection) => Ok(out.push(4)?),
        How::Failed(Failure::Timeout) => Ok(out.push(5)?),
        How::Failed(Failure::Application) => Ok(out.push(6)?),
        How::Failed(Failure::Switch) => Ok(out.push(9)?),
        How::Abandoned => Ok(out.push(7)?),
        How::Partial(amount) => {
            out.push(8)?;
            put_u64(out, amount)
        }
    }
}

/// How the call of an event stands, if it has one.
pub(crate) fn put_mark(out: &mut Vec<u8>, mark: Option<CallState>) -> Result<(), AllocError>
    ensures { OnOk result (out.new.items ≡ out.old.items ++ mark_bytes mark) }
{
    match mark {
        None => Ok(out.push(0)?),
        Some(CallState::Asked) => Ok(out.push(1)?),
        Some(CallState::Closed(how)) => put_how(out, how),
        Some(CallState::Unknown) => Ok(out.push(10)?),
    }
}
