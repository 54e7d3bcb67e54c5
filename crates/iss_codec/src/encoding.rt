//! The spelling of a record.
ghost use Rattle.std.specs.Prelude.{◌≡◌, ◌++◌, IsTrue, OnOk, IfOk};
ghost use Rattle.std.specs.List.{list_all};
ghost use Rattle.iss_model.specs.Tokens.{is_token};
ghost use Rattle.iss_model.specs.texts.Spelling.{spelling, spelled_input, spelled_fields, kind_number, tokens_of};
ghost use Rattle.iss_codec.specs.Controls.{control_input, spelled_control};
ghost use Rattle.iss_codec.specs.Places.{spelling_at, spelling_in};

use crate::places::Places;
use crate::tokens::{AsPlace, PutsTokens, WithLength};
use crate::writing::{
    put_association, put_currency, put_event, put_flag, put_limits, put_low_u32, put_mccs,
    put_moved, put_offset, put_operation, put_outcome, put_scope, put_u16, put_u32, put_u64,
};
use iss_model::{Control, Input, Numbered, Outcome, Record, Token};
use std::alloc::{AllocError, Global};

/// The one spelling of a record. `decode` reads it again if the record is in form.
pub fn encode(alloc: Global, r: &Record) -> Result<Vec<u8>, AllocError>
    ensures spelled { IfOk result (λ bytes. bytes.items ≡ spelling r.now) }
{
    let mut out = Vec::new(alloc);
    put_record(&mut out, r.at, &r.input)?;
    Ok(out)
}

/// The spelling of a record, each token as its place in a table. `decode_in` reads it again if the record is in form and the
/// table has its tokens, no two of them alike. A token that the table doesn't have is spelled as place 0.
pub fn encode_in(alloc: Global, r: &Record, tokens: &[Token]) -> Result<Vec<u8>, AllocError>
    ensures spelled { IfOk result (λ bytes. bytes.items ≡ spelling_in tokens.now r.now) }
{
    let mut out = Vec::new(alloc);
    put_record_in(&mut out, r.at, &r.input, &tokens)?;
    Ok(out)
}

/// Appends the spelling of the record with this stamp and this input.
#[tactic(auto, unfolding(iss_model::specs::texts::Spelling::spelling, iss_model::specs::texts::Spelling::field_bytes))]
pub fn put_record(out: &mut Vec<u8>, at: u64, input: &Input) -> Result<(), AllocError>
    ensures spelled { OnOk result (out.new.items ≡ out.old.items ++ spelling (record { at = at; input = input.now })) }
    // Each name in the input is a token, as its type says.
    ensures tokens { OnOk result (IsTrue (list_all is_token (tokens_of input.now))) }
{
    put_input(out, &WithLength, at, input)
}

/// Appends the spelling of the record with this stamp and this input, each token as its place.
pub fn put_record_in<P: Places>(
    out: &mut Vec<u8>,
    at: u64,
    input: &Input,
    places: &P,
) -> Result<(), AllocError>
    ensures spelled { OnOk result (out.new.items ≡ out.old.items ++ spelling_at (P.tokens places.now) at input.now) }
    // Each name in the input is a token, as its type says.
    ensures tokens { OnOk result (IsTrue (list_all is_token (tokens_of input.now))) }
{
    put_input(out, &AsPlace { places }, at, input)
}

/// The kind, the stamp and the fields.
fn put_input<W: PutsTokens>(
    out: &mut Vec<u8>,
    way: &W,
    at: u64,
    input: &Input,
) -> Result<(), AllocError>
    ensures spelled { OnOk result (out.new.items ≡ out.old.items ++ spelled_input (W.token_bytes way.now) at input.now) }
    ensures tokens { OnOk result (IsTrue (list_all is_token (tokens_of input.now))) }
{
    out.push(kind_number(input))?;
    put_u64(out, at)?;
    put_fields(out, way, input)
}

fn kind_number(input: &Input) -> u8
    ensures { result ≡ kind_number input.now }
{
    match input {
        Input::User { .. } => 1,
        Input::Card { .. } => 2,
        Input::Move { .. } => 3,
        Input::Product { .. } => 4,
        Input::Group { .. } => 5,
        Input::Control { offset: 0, .. } => 6,
        Input::Control { .. } => 18,
        Input::Set { .. } => 7,
        Input::Switch { .. } => 8,
        Input::Load { .. } => 9,
        Input::Authorization { partial: false, .. } => 10,
        Input::Authorization { .. } => 20,
        Input::Increment { .. } => 11,
        Input::Reversal { .. } => 12,
        Input::Clearing { .. } => 13,
        Input::Refund { .. } => 14,
        Input::Answer {
            outcome: Outcome::Partial(..),
            ..
        } => 19,
        Input::Answer { .. } => 15,
        Input::Ack { .. } => 16,
        Input::Time => 17,
    }
}

/// The fields of each kind, in their order.
fn put_fields<W: PutsTokens>(out: &mut Vec<u8>, way: &W, input: &Input) -> Result<(), AllocError>
    ensures spelled { OnOk result (out.new.items ≡ out.old.items ++ spelled_fields (W.token_bytes way.now) input.now) }
    ensures tokens { OnOk result (IsTrue (list_all is_token (tokens_of input.now))) }
{
    match input {
        Input::User { token, user } => put_event(out, way, token, user),
        Input::Card {
            token,
            card,
            user,
            product,
            active,
        } => {
            put_event(out, way, token, card)?;
            put_event(out, way, user, product)?;
            put_flag(out, *active)
        }
        Input::Move { token, who } => {
            way.put(out, token)?;
            put_moved(out, way, who)
        }
        Input::Product {
            token,
            product,
            currency,
            funding,
            timeout_ms,
            hold_ms,
        } => {
            put_event(out, way, token, product)?;
            put_currency(out, *currency)?;
            out.push(funding.number())?;
            put_low_u32(out, *timeout_ms)?;
            put_low_u32(out, *hold_ms)
        }
        Input::Group { token, group, mccs } => {
            put_event(out, way, token, group)?;
            put_mccs(out, mccs)
        }
        Input::Control { token, .. } => {
            let Some(control) = input.control() else {
                unreachable!()
            };
            put_control(out, way, token, &control)
        }
        Input::Set {
            token,
            set,
            product,
            currency,
            connection,
            timeout,
            application,
            max,
            day_limit,
            active,
        } => {
            put_event(out, way, token, set)?;
            way.put(out, product)?;
            put_currency(out, *currency)?;
            put_flag(out, *connection)?;
            put_flag(out, *timeout)?;
            put_flag(out, *application)?;
            put_u64(out, *max)?;
            put_u64(out, *day_limit)?;
            put_flag(out, *active)
        }
        Input::Switch { token, product, on } => {
            put_event(out, way, token, product)?;
            put_flag(out, *on)
        }
        Input::Load {
            token,
            user,
            currency,
            amount,
        } => put_operation(out, way, token, user, *currency, *amount),
        Input::Authorization {
            token,
            card,
            currency,
            amount,
            mcc,
            mid,
            ..
        } => {
            put_operation(out, way, token, card, *currency, *amount)?;
            put_u16(out, *mcc)?;
            way.put(out, mid)
        }
        Input::Increment {
            token,
            txn,
            currency,
            amount,
        } => put_operation(out, way, token, txn, *currency, *amount),
        Input::Reversal {
            token,
            txn,
            currency,
            amount,
        } => put_operation(out, way, token, txn, *currency, *amount),
        Input::Clearing {
            token,
            txn,
            currency,
            amount,
            last,
        } => {
            put_operation(out, way, token, txn, *currency, *amount)?;
            put_flag(out, *last)
        }
        Input::Refund {
            token,
            txn,
            currency,
            amount,
        } => put_operation(out, way, token, txn, *currency, *amount),
        Input::Answer { call, outcome } => {
            put_u32(out, call.0)?;
            put_outcome(out, *outcome)
        }
        Input::Ack { notice } => put_u32(out, *notice),
        Input::Time => Ok(()),
    }
}

/// The fields of a control after the token of its event.
fn put_control<W: PutsTokens>(
    out: &mut Vec<u8>,
    way: &W,
    token: &Token,
    control: &Control,
) -> Result<(), AllocError>
    ensures spelled { OnOk result (out.new.items ≡ out.old.items ++ spelled_control (W.token_bytes way.now) token.now control.now) }
    ensures tokens { OnOk result (IsTrue (list_all is_token (tokens_of (control_input token.now control.now)))) }
{
    put_event(out, way, token, &control.name)?;
    put_currency(out, control.currency)?;
    out.push(control.window.number())?;
    put_limits(out, control.amount_limit, control.usage_limit)?;
    put_association(out, way, &control.association)?;
    put_scope(out, way, &control.scope)?;
    put_flag(out, control.active)?;
    put_offset(out, control.offset)
}
