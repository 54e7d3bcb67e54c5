//! Writing fields, each after what was written before.
ghost use Rattle.std.specs.Prelude.{◌≡◌, ◌++◌, IsTrue, OnOk};
ghost use Rattle.std.specs.List.{flat_map, list_all};
ghost use Rattle.iss_model.specs.Tokens.{is_token};
ghost use Rattle.iss_model.specs.Inputs.{with_length, flag_contents, spelled_moved, spelled_association};
ghost use Rattle.iss_model.specs.texts.Spelling.{number_bytes, currency_bytes, mcc_bytes, limit_bytes, limits_bytes, offset_bytes, outcome_bytes, spelled_scope, mccs_bytes, spelled_operation, moved_token, association_tokens, scope_tokens};

use crate::tokens::PutsTokens;
use iss_model::{Association, Currency, Mccs, Moved, Numbered, Outcome, Scope, Token};
use std::alloc::AllocError;

/// Appends a number in eight bytes, the highest first.
#[tactic(auto, unfolding(iss_model::specs::texts::Spelling::number_bytes))]
pub fn put_u64(out: &mut Vec<u8>, number: u64) -> Result<(), AllocError>
    ensures { OnOk result (out.new.items ≡ out.old.items ++ number_bytes 8 number) }
{
    out.extend_from_slice(&number.to_be_bytes())
}

/// Appends a number in four bytes, the highest first.
#[tactic(auto, unfolding(iss_model::specs::texts::Spelling::number_bytes))]
pub fn put_u32(out: &mut Vec<u8>, number: u32) -> Result<(), AllocError>
    ensures { OnOk result (out.new.items ≡ out.old.items ++ number_bytes 4 number) }
{
    out.extend_from_slice(&number.to_be_bytes())
}

/// Appends a number in two bytes, the highest first.
#[tactic(auto, unfolding(iss_model::specs::texts::Spelling::number_bytes))]
pub fn put_u16(out: &mut Vec<u8>, number: u16) -> Result<(), AllocError>
    ensures { OnOk result (out.new.items ≡ out.old.items ++ number_bytes 2 number) }
{
    out.extend_from_slice(&number.to_be_bytes())
}

/// The lowest four bytes of a number.
#[tactic(auto, unfolding(iss_model::specs::texts::Spelling::number_bytes))]
pub(crate) fn put_low_u32(out: &mut Vec<u8>, number: u64) -> Result<(), AllocError>
    ensures { OnOk result (out.new.items ≡ out.old.items ++ number_bytes 4 number) }
{
    out.extend_from_slice(&number.to_be_bytes()[4..])
}

/// The lowest two bytes of a number.
#[tactic(auto, unfolding(iss_model::specs::texts::Spelling::number_bytes))]
fn put_low_u16(out: &mut Vec<u8>, number: u64) -> Result<(), AllocError>
    ensures { OnOk result (out.new.items ≡ out.old.items ++ number_bytes 2 number) }
{
    out.extend_from_slice(&number.to_be_bytes()[6..])
}

/// Appends a token after its length in one byte.
pub fn put_token(out: &mut Vec<u8>, token: &Token) -> Result<(), AllocError>
    ensures spelled { OnOk result (out.new.items ≡ out.old.items ++ with_length token.now) }
    ensures token { OnOk result (IsTrue (is_token token.now)) }
{
    let text = token.text();
    out.push(text.len() as u8)?;
    out.extend_from_slice(text)
}

/// The two tokens that an event begins with: its own, and that of what it is about.
pub(crate) fn put_event<W: PutsTokens>(
    out: &mut Vec<u8>,
    way: &W,
    token: &Token,
    about: &Token,
) -> Result<(), AllocError>
    ensures spelled { OnOk result (out.new.items ≡ out.old.items ++ (W.token_bytes way.now token.now ++ W.token_bytes way.now about.now)) }
    ensures token { OnOk result (IsTrue (is_token token.now)) }
    ensures about { OnOk result (IsTrue (is_token about.now)) }
{
    way.put(out, token)?;
    way.put(out, about)
}

/// Appends 1 for true and 0 for false, in one byte.
pub fn put_flag(out: &mut Vec<u8>, on: bool) -> Result<(), AllocError>
    ensures { OnOk result (out.new.items ≡ out.old.items ++ flag_contents on) }
{
    Ok(out.push(u8::from(on))?)
}

/// Appends a currency by its numeric code, in two bytes.
pub fn put_currency(out: &mut Vec<u8>, currency: Currency) -> Result<(), AllocError>
    ensures { OnOk result (out.new.items ≡ out.old.items ++ currency_bytes currency) }
{
    put_u16(out, currency.number())
}

/// The offset of a control's clock from UTC: nothing for UTC itself.
pub(crate) fn put_offset(out: &mut Vec<u8>, offset: i16) -> Result<(), AllocError>
    ensures { OnOk result (out.new.items ≡ out.old.items ++ offset_bytes offset) }
{
    if offset == 0 {
        return Ok(());
    }
    put_u16(out, offset.cast_unsigned())
}

/// The limits of a control: the most minor units, and the most purchases.
pub(crate) fn put_limits(
    out: &mut Vec<u8>,
    amount: Option<u64>,
    usage: Option<u32>,
) -> Result<(), AllocError>
    ensures { OnOk result (out.new.items ≡ out.old.items ++ limits_bytes amount usage) }
{
    put_amount_limit(out, amount)?;
    put_usage_limit(out, usage)
}

fn put_amount_limit(out: &mut Vec<u8>, limit: Option<u64>) -> Result<(), AllocError>
    ensures { OnOk result (out.new.items ≡ out.old.items ++ limit_bytes 8 limit) }
{
    match limit {
        None => Ok(out.push(0)?),
        Some(limit) => {
            out.push(1)?;
            put_u64(out, limit)
        }
    }
}

fn put_usage_limit(out: &mut Vec<u8>, limit: Option<u32>) -> Result<(), AllocError>
    ensures { OnOk result (out.new.items ≡ out.old.items ++ limit_bytes 4 limit) }
{
    match limit {
        None => Ok(out.push(0)?),
        Some(limit) => {
            out.push(1)?;
            put_u32(out, limit)
        }
    }
}

pub(crate) fn put_moved<W: PutsTokens>(
    out: &mut Vec<u8>,
    way: &W,
    who: &Moved,
) -> Result<(), AllocError>
    ensures spelled { OnOk result (out.new.items ≡ out.old.items ++ spelled_moved (W.token_bytes way.now) who.now) }
    ensures token { OnOk result (IsTrue (is_token (moved_token who.now))) }
{
    match who {
        Moved::Card(card, to) => {
            out.push(1)?;
            way.put(out, card)?;
            Ok(out.push(to.number())?)
        }
        Moved::User(user, to) => {
            out.push(2)?;
            way.put(out, user)?;
            Ok(out.push(to.number())?)
        }
    }
}

pub(crate) fn put_association<W: PutsTokens>(
    out: &mut Vec<u8>,
    way: &W,
    association: &Association,
) -> Result<(), AllocError>
    ensures spelled { OnOk result (out.new.items ≡ out.old.items ++ spelled_association (W.token_bytes way.now) association.now) }
    ensures tokens { OnOk result (IsTrue (list_all is_token (association_tokens association.now))) }
{
    match association {
        Association::Anybody => Ok(out.push(0)?),
        Association::User(user) => {
            out.push(1)?;
            way.put(out, user)
        }
        Association::Product(product) => {
            out.push(2)?;
            way.put(out, product)
        }
    }
}

pub(crate) fn put_scope<W: PutsTokens>(
    out: &mut Vec<u8>,
    way: &W,
    scope: &Scope,
) -> Result<(), AllocError>
    ensures spelled { OnOk result (out.new.items ≡ out.old.items ++ spelled_scope (W.token_bytes way.now) scope.now) }
    ensures tokens { OnOk result (IsTrue (list_all is_token (scope_tokens scope.now))) }
{
    match scope {
        Scope::All => Ok(out.push(0)?),
        Scope::Mcc(mcc) => {
            out.push(1)?;
            put_u16(out, *mcc)
        }
        Scope::Group(group) => {
            out.push(2)?;
            way.put(out, group)
        }
        Scope::Mid(mid) => {
            out.push(3)?;
            way.put(out, mid)
        }
    }
}

/// What the gateway answered: a number, or of a part its currency and its amount.
pub(crate) fn put_outcome(out: &mut Vec<u8>, outcome: Outcome) -> Result<(), AllocError>
    ensures { OnOk result (out.new.items ≡ out.old.items ++ outcome_bytes outcome) }
{
    match outcome {
        Outcome::Partial(currency, part) => {
            put_currency(out, currency)?;
            put_u64(out, part)
        }
        Outcome::Funded | Outcome::Refused | Outcome::Connection | Outcome::Application => {
            Ok(out.push(outcome.number())?)
        }
    }
}

pub(crate) fn put_mccs(out: &mut Vec<u8>, mccs: &Mccs) -> Result<(), AllocError>
    ensures { OnOk result (out.new.items ≡ out.old.items ++ mccs_bytes mccs.now) }
{
    let codes = mccs.as_slice();
    put_low_u16(out, codes.len() as u64)?;
    put_codes(out, codes)
}

fn put_codes(out: &mut Vec<u8>, codes: &[u16]) -> Result<(), AllocError>
    ensures { OnOk result (out.new.items ≡ out.old.items ++ flat_map mcc_bytes codes.now) }
{
    for code in codes {
        put_u16(out, *code)?;
    }
    Ok(())
}

/// The fields that every operation begins with: its token, whom or what it is about, and its amount.
pub(crate) fn put_operation<W: PutsTokens>(
    out: &mut Vec<u8>,
    way: &W,
    token: &Token,
    about: &Token,
    currency: Currency,
    amount: u64,
) -> Result<(), AllocError>
    ensures spelled { OnOk result (out.new.items ≡ out.old.items ++ spelled_operation (W.token_bytes way.now) token.now about.now currency amount) }
    ensures token { OnOk result (IsTrue (is_token token.now)) }
    ensures about { OnOk result (IsTrue (is_token about.now)) }
{
    put_event(out, way, token, about)?;
    put_currency(out, currency)?;
    put_u64(out, amount)
}
