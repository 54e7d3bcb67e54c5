//! The members of a text's object, each after what was written before.
ghost use Rattle.std.specs.Prelude.{◌≡◌, ◌<◌, [], ◌∷◌, ◌++◌, pos, codes, OnOk};
ghost use Rattle.std.specs.List.{flat_map};
ghost use Rattle.iss_model.specs.declared.limits.TheConstants.{INSTANCES};
ghost use Rattle.iss_model.specs.Currencies.{currency_code};
ghost use Rattle.iss_model.specs.Amounts.{amount_text, last_digits};
ghost use Rattle.iss_model.specs.texts.GatewayTexts.{method_text, token_text, token_members, partial_members};
ghost use Rattle.iss_model.specs.texts.Wordings.{in_quotes, member_text, with_text, with_number};
ghost use Rattle.iss_jit.specs.Members.{AddsMember};

use iss_amount::{code, last_digit, put_amount_text, put_decimal};
use iss_model::{CallId, Currency, Method, Token};
use std::alloc::AllocError;
use uuid::Uuid;

/// Adds an amount under its name, after the brace that opens the object or after a comma.
pub(crate) fn put_amount(
    out: &mut Vec<u8>,
    before: u8,
    name: &str,
    amount: u64,
    currency: Currency,
) -> Result<(), AllocError>
    ensures { OnOk result (AddsMember before (with_text name.now (amount_text (pos amount) currency)) out.old out.new) }
{
    put_name(out, before, name)?;
    out.push(b'"')?;
    put_amount_text(out, amount, currency)?;
    out.push(b'"')?;
    Ok(())
}

pub(crate) fn put_token(out: &mut Vec<u8>, name: &str, token: &Token) -> Result<(), AllocError>
    ensures { OnOk result (AddsMember 44 (with_text name.now token.now) out.old out.new) }
{
    put_text(out, name, token.text())
}

pub(crate) fn put_currency(out: &mut Vec<u8>, currency: Currency) -> Result<(), AllocError>
    ensures { OnOk result (AddsMember 44 (with_text (codes "currency") (currency_code currency)) out.old out.new) }
{
    put_opened(out, b",\"currency\":\"", &code(currency))
}

pub(crate) fn put_mcc(out: &mut Vec<u8>, mcc: u16) -> Result<(), AllocError>
    ensures { OnOk result (AddsMember 44 (with_text (codes "mcc") (last_digits 4 mcc)) out.old out.new) }
{
    put_opened(out, b",\"mcc\":\"", &four_digits(mcc))
}

pub(crate) fn put_method(out: &mut Vec<u8>, method: Method) -> Result<(), AllocError>
    ensures { OnOk result (AddsMember 44 (with_text (codes "method") (method_text method)) out.old out.new) }
{
    put_opened(out, b",\"method\":\"", method_text(method).as_bytes())
}

pub(crate) fn put_number(out: &mut Vec<u8>, name: &str, number: u32) -> Result<(), AllocError>
    ensures { OnOk result (AddsMember 44 (with_number name.now number) out.old out.new) }
{
    put_name(out, b',', name)?;
    put_decimal(out, u64::from(number))
}

/// Adds that the gateway may fund a part, if it may.
pub(crate) fn put_partial(out: &mut Vec<u8>, permitted: bool) -> Result<(), AllocError>
    ensures { OnOk result (out.new.items ≡ out.old.items
        ++ flat_map (λ m. 44 ∷ member_text m) (partial_members permitted)) }
{
    if permitted {
        out.extend_from_slice(b",\"partial\":true")
    } else {
        Ok(())
    }
}

/// Adds the token of a call.
pub(crate) fn put_call(out: &mut Vec<u8>, call: CallId, instance: u64) -> Result<(), AllocError>
    requires { instance < INSTANCES }
    ensures { OnOk result (AddsMember 44 (with_text (codes "token") (token_text instance call.0)) out.old out.new) }
{
    let mut buffer = Uuid::encode_buffer();
    let text = call.uuid(instance).hyphenated().encode_lower(&mut buffer);
    put_opened(out, b",\"token\":\"", text.as_bytes())
}

/// Adds the token of the call that a notice ends, if it ends one.
pub(crate) fn put_ended(
    out: &mut Vec<u8>,
    call: Option<CallId>,
    instance: u64,
) -> Result<(), AllocError>
    requires { instance < INSTANCES }
    ensures { OnOk result (out.new.items ≡ out.old.items
        ++ flat_map (λ m. 44 ∷ member_text m) (token_members instance call)) }
{
    match call {
        Some(call) => put_call(out, call, instance),
        None => Ok(()),
    }
}

/// Adds a text after what opens its member, and the quote that closes it.
fn put_opened(out: &mut Vec<u8>, opening: &[u8], text: &[u8]) -> Result<(), AllocError>
    ensures { OnOk result (out.new.items ≡ out.old.items ++ (opening.now ++ (text.now ++ 34 ∷ []))) }
{
    out.extend_from_slice(opening)?;
    out.extend_from_slice(text)?;
    out.push(b'"')?;
    Ok(())
}

fn put_text(out: &mut Vec<u8>, name: &str, text: &[u8]) -> Result<(), AllocError>
    ensures { OnOk result (AddsMember 44 (with_text name.now text.now) out.old out.new) }
{
    put_name(out, b',', name)?;
    put_quoted(out, text)
}

/// Adds a name and a colon, after the brace that opens the object or after a comma.
pub fn put_name(out: &mut Vec<u8>, before: u8, name: &str) -> Result<(), AllocError>
    ensures { OnOk result (out.new.items
        ≡ out.old.items ++ (before ∷ (in_quotes name.now ++ 58 ∷ []))) }
{
    out.push(before)?;
    put_quoted(out, name.as_bytes())?;
    out.push(b':')?;
    Ok(())
}

/// Adds a text in quotes, which has no byte that needs an escape.
pub fn put_quoted(out: &mut Vec<u8>, text: &[u8]) -> Result<(), AllocError>
    ensures { OnOk result (out.new.items ≡ out.old.items ++ in_quotes text.now) }
{
    out.push(b'"')?;
    out.extend_from_slice(text)?;
    out.push(b'"')?;
    Ok(())
}

/// The last four digits of a merchant category code.
fn four_digits(mcc: u16) -> [u8; 4]
    ensures { result ≡ last_digits 4 mcc }
{
    let code = u64::from(mcc);
    [
        last_digit(code / 1000),
        last_digit(code / 100),
        last_digit(code / 10),
        last_digit(code),
    ]
}

fn method_text(method: Method) -> &'static str
    ensures { result.now ≡ method_text method }
{
    match method {
        Method::Authorization => "pgfs.authorization",
        Method::Incremental => "pgfs.authorization.incremental",
        Method::Void => "x.void",
        Method::StandIn => "x.standin",
        Method::Reversal => "pgfs.authorization.reversal",
        Method::Capture => "pgfs.authorization.capture",
        Method::Refund => "pgfs.refund",
        Method::Expiry => "x.expiry",
    }
}
