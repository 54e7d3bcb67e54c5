//! Lines of money and answers whose members stand in their usual order, as most do. They are read member by member, with no object made.
ghost use Rattle.std.specs.Prelude.{◌≡◌, IfSome};
ghost use Rattle.iss_field.specs.PlainObjects.{ended};
ghost use Rattle.iss_field.specs.Wholes.{IsWhole};
ghost use Rattle.iss_event.specs.declared.kind.Kind.TheVariants as kind;
ghost use Rattle.iss_event.specs.Readings.{as_fault, line_read};
ghost use Rattle.iss_event.specs.PlainLines.{SaysAfter, IsOutcomeText, answer_known, call_known, kind_of_operation, kind_text, last_text, line_with, load_known, load_text, operation_known, operation_text, purchase_known, purchase_text, stamp_known, stamp_members};

use crate::kind::Kind;
use crate::{Line, Mode};
use iss_field::{
    Name, Whole, amount_in, currency_in, flag_member, is_end, mcc_in, number_member, text_member,
    token_in,
};
use iss_model::limits::{FIRST_NUMBER, GREATEST_NUMBER, LAST_STAMP, LONGEST_LINE};
use iss_model::{CallId, Input, Outcome};

/// The texts of a purchase.
#[derive(Clone, Copy)]
pub(crate) struct Purchase<'a> {
    token: &'a [u8],
    card: &'a [u8],
    currency: &'a [u8],
    amount: &'a [u8],
    mcc: &'a [u8],
    mid: &'a [u8],
}

/// The texts of a load.
#[derive(Clone, Copy)]
pub(crate) struct Load<'a> {
    token: &'a [u8],
    user: &'a [u8],
    currency: &'a [u8],
    amount: &'a [u8],
}

/// The texts of an operation on a transaction, and whether it says that it is the last.
#[derive(Clone, Copy)]
pub(crate) struct OperationTexts<'a> {
    token: &'a [u8],
    txn: &'a [u8],
    currency: &'a [u8],
    amount: &'a [u8],
    last: Option<bool>,
}

/// What is done with a transaction.
#[derive(Clone, Copy)]
pub(crate) enum OperationKind {
    Increment,
    Reversal,
    Clearing,
    Refund,
}

/// What a line spells, or its first bad field. It is `None` if its members don't stand in their usual order, or it is of another type.
pub(crate) fn plain_line(mode: Mode, line: &[u8]) -> Option<Result<Line, Name>>
    ensures { IfSome result (λ said. line_read mode line.now ≡ as_fault said) }
{
    if line.len() > LONGEST_LINE || !line.is_ascii() {
        return None;
    }
    let (kind, rest) = text_member(b'{', Name::Kind, line)?;
    match plain_kind(kind)? {
        Kind::Authorization => purchase_line(mode, rest),
        Kind::Answer => answer_line(mode, rest),
        Kind::Load => load_line(mode, rest),
        Kind::Clearing => operation_line(mode, OperationKind::Clearing, rest),
        Kind::Increment => operation_line(mode, OperationKind::Increment, rest),
        Kind::Reversal => operation_line(mode, OperationKind::Reversal, rest),
        Kind::Refund => operation_line(mode, OperationKind::Refund, rest),
        _ => None,
    }
}

/// The kind that a text names, if its lines are read so.
fn plain_kind(text: &[u8]) -> Option<Kind>
    ensures { IfSome result (λ kind. kind_text kind ≡ text.now) }
{
    match text {
        b"authorization" => Some(Kind::Authorization),
        b"answer" => Some(Kind::Answer),
        b"clearing" => Some(Kind::Clearing),
        b"increment" => Some(Kind::Increment),
        b"reversal" => Some(Kind::Reversal),
        b"load" => Some(Kind::Load),
        b"refund" => Some(Kind::Refund),
        _ => None,
    }
}

/// What a purchase spells, by what follows its type.
fn purchase_line(mode: Mode, rest: &[u8]) -> Option<Result<Line, Name>>
    ensures { IfSome result (λ said. SaysAfter mode kind.Authorization rest.now said) }
{
    let (purchase, after) = purchase_texts(rest)?;
    let at = stamp(after)?;
    Some(line_of(stamp_said(mode, at), purchase_input(&purchase)))
}

fn purchase_texts(rest: &[u8]) -> Option<(Purchase<'_>, &[u8])>
    ensures { IfSome result (λ found. rest.now ≡ purchase_text found.0 found.1.now) }
{
    let (token, rest) = text_member(b',', Name::Token, rest)?;
    let (card, rest) = text_member(b',', Name::Card, rest)?;
    let (currency, rest) = text_member(b',', Name::Currency, rest)?;
    let (amount, rest) = text_member(b',', Name::Amount, rest)?;
    let (mcc, rest) = text_member(b',', Name::Mcc, rest)?;
    let (mid, rest) = text_member(b',', Name::Mid, rest)?;
    let purchase = Purchase {
        token,
        card,
        currency,
        amount,
        mcc,
        mid,
    };
    Some((purchase, rest))
}

#[tactic(auto, unfolding(crate::specs::PlainLines::purchase_known))]
fn purchase_input(purchase: &Purchase<'_>) -> Result<Input, Name>
    ensures { result ≡ purchase_known purchase.now }
{
    let token = token_in(Name::Token, purchase.token)?;
    let card = token_in(Name::Card, purchase.card)?;
    let currency = currency_in(purchase.currency)?;
    let amount = amount_in(purchase.amount, currency)?;
    let mcc = mcc_in(purchase.mcc)?;
    let mid = token_in(Name::Mid, purchase.mid)?;
    Ok(Input::Authorization {
        token,
        card,
        currency,
        amount,
        mcc,
        mid,
        partial: false,
    })
}

/// What a load spells, by what follows its type.
fn load_line(mode: Mode, rest: &[u8]) -> Option<Result<Line, Name>>
    ensures { IfSome result (λ said. SaysAfter mode kind.Load rest.now said) }
{
    let (load, after) = load_texts(rest)?;
    let at = stamp(after)?;
    Some(line_of(stamp_said(mode, at), load_input(&load)))
}

fn load_texts(rest: &[u8]) -> Option<(Load<'_>, &[u8])>
    ensures { IfSome result (λ found. rest.now ≡ load_text found.0 found.1.now) }
{
    let (token, rest) = text_member(b',', Name::Token, rest)?;
    let (user, rest) = text_member(b',', Name::User, rest)?;
    let (currency, rest) = text_member(b',', Name::Currency, rest)?;
    let (amount, rest) = text_member(b',', Name::Amount, rest)?;
    let load = Load {
        token,
        user,
        currency,
        amount,
    };
    Some((load, rest))
}

#[tactic(auto, unfolding(crate::specs::PlainLines::load_known))]
fn load_input(load: &Load<'_>) -> Result<Input, Name>
    ensures { result ≡ load_known load.now }
{
    let token = token_in(Name::Token, load.token)?;
    let user = token_in(Name::User, load.user)?;
    let currency = currency_in(load.currency)?;
    let amount = amount_in(load.amount, currency)?;
    Ok(Input::Load {
        token,
        user,
        currency,
        amount,
    })
}

/// What an operation spells, by what follows its type.
fn operation_line(mode: Mode, kind: OperationKind, rest: &[u8]) -> Option<Result<Line, Name>>
    ensures { IfSome result (λ said. SaysAfter mode (kind_of_operation kind) rest.now said) }
{
    let (texts, after) = operation_texts(rest)?;
    let at = stamp(after)?;
    Some(line_of(stamp_said(mode, at), operation_input(kind, &texts)))
}

fn operation_texts(rest: &[u8]) -> Option<(OperationTexts<'_>, &[u8])>
    ensures { IfSome result (λ found. rest.now ≡ operation_text found.0 found.1.now) }
{
    let (token, rest) = text_member(b',', Name::Token, rest)?;
    let (txn, rest) = text_member(b',', Name::Txn, rest)?;
    let (currency, rest) = text_member(b',', Name::Currency, rest)?;
    let (amount, rest) = text_member(b',', Name::Amount, rest)?;
    let (last, rest) = last_said(rest);
    let texts = OperationTexts {
        token,
        txn,
        currency,
        amount,
        last,
    };
    Some((texts, rest))
}

/// Whether it is the last one, if the line says so, and what follows.
fn last_said(rest: &[u8]) -> (Option<bool>, &[u8])
    ensures { rest.now ≡ last_text result.0 result.1.now }
{
    match flag_member(b',', Name::Last, rest) {
        Some((last, after)) => (Some(last), after),
        None => (None, rest),
    }
}

#[tactic(auto, unfolding(crate::specs::PlainLines::operation_known))]
fn operation_input(kind: OperationKind, texts: &OperationTexts<'_>) -> Result<Input, Name>
    ensures { result ≡ operation_known kind texts.now }
{
    let token = token_in(Name::Token, texts.token)?;
    let txn = token_in(Name::Txn, texts.txn)?;
    let currency = currency_in(texts.currency)?;
    let amount = amount_in(texts.amount, currency)?;
    Ok(match kind {
        OperationKind::Increment => Input::Increment {
            token,
            txn,
            currency,
            amount,
        },
        OperationKind::Reversal => Input::Reversal {
            token,
            txn,
            currency,
            amount,
        },
        OperationKind::Clearing => Input::Clearing {
            token,
            txn,
            currency,
            amount,
            last: texts.last.unwrap_or(false),
        },
        OperationKind::Refund => Input::Refund {
            token,
            txn,
            currency,
            amount,
        },
    })
}

/// What an answer spells, by what follows its type. A part isn't read so, nor a fault of the application, nor what a client tells.
fn answer_line(mode: Mode, rest: &[u8]) -> Option<Result<Line, Name>>
    ensures { IfSome result (λ said. SaysAfter mode kind.Answer rest.now said) }
{
    let Mode::Lines = mode else {
        return None;
    };
    let (call, after_call) = number_member(b',', Name::Call, rest)?;
    let (text, after) = text_member(b',', Name::Outcome, after_call)?;
    let at = stamp(after)?;
    let outcome = outcome_in(text)?;
    Some(line_of(stamp_said(mode, at), answer_input(call.value(), outcome)))
}

/// The outcome that a text names, if it is one of the three that come most often.
fn outcome_in(text: &[u8]) -> Option<Outcome>
    ensures { IfSome result (λ outcome. IsOutcomeText outcome text.now) }
{
    match text {
        b"FUNDED" => Some(Outcome::Funded),
        b"REFUSED" => Some(Outcome::Refused),
        b"CONNECTION" => Some(Outcome::Connection),
        _ => None,
    }
}

fn answer_input(call: u64, outcome: Outcome) -> Result<Input, Name>
    ensures { result ≡ answer_known call outcome }
{
    let call = call_in(call)?;
    Ok(Input::Answer {
        call: CallId(call),
        outcome,
    })
}

fn call_in(number: u64) -> Result<u32, Name>
    ensures { result ≡ call_known number }
{
    let number = u32::try_from(number).ok().ok_or(Name::Call)?;
    if (FIRST_NUMBER..=GREATEST_NUMBER).contains(&number) {
        Ok(number)
    } else {
        Err(Name::Call)
    }
}

/// The stamp at the end of a line, if there is one.
fn stamp(rest: &[u8]) -> Option<Option<Whole<'_>>>
    ensures whole { IfSome result (λ at. IfSome at IsWhole) }
    ensures spelled { IfSome result (λ at. rest.now ≡ ended (stamp_members at)) }
{
    if is_end(rest) {
        return Some(None);
    }
    let (at, after) = number_member(b',', Name::At, rest)?;
    if is_end(after) { Some(Some(at)) } else { None }
}

fn stamp_said(mode: Mode, at: Option<Whole<'_>>) -> Result<Option<u64>, Name>
    ensures { result ≡ stamp_known mode at.entry }
{
    match (mode, at) {
        (Mode::Client, _) | (Mode::Lines, None) => Ok(None),
        (Mode::Lines, Some(at)) => {
            if at.value() <= LAST_STAMP {
                Ok(Some(at.value()))
            } else {
                Err(Name::At)
            }
        }
    }
}

fn line_of(at: Result<Option<u64>, Name>, said: Result<Input, Name>) -> Result<Line, Name>
    ensures { result ≡ line_with at said }
{
    let at = at?;
    let input = said?;
    Ok(Line { input, at })
}
