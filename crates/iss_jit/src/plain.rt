//! The usual body of a gateway that funds: an object of a token and an amount, both of them plain texts, with no blanks.
ghost use Rattle.std.specs.Prelude.{◌≡◌, ◌<◌, IfSome, Some};
ghost use Rattle.serde_json.specs.Read.{read as read_text};
ghost use Rattle.uuid.specs.Text.{parsed};
ghost use Rattle.std.specs.Str.{bytes_eq};
ghost use Rattle.iss_model.specs.declared.limits.TheConstants.{INSTANCES};
ghost use Rattle.iss_model.specs.rules.Reasons.{is_some_with};
ghost use Rattle.iss_model.specs.texts.CallTokens.{call_uuid};
ghost use Rattle.iss_jit.specs.Outcomes.{json_of};
ghost use Rattle.iss_jit.specs.Plain.{funding};

use iss_field::{Name, is_end, text_member};
use iss_model::Opened;
use uuid::Uuid;

/// The texts of the token and the amount. A body that is written otherwise may give `None`.
pub(crate) fn plain_texts(body: &[u8]) -> Option<(&[u8], &[u8])>
    ensures { IfSome result (λ found. json_of body.now ≡ Some (funding found.0.now found.1.now)) }
{
    match str::from_utf8(body) {
        Ok(text) => members_of(text.as_bytes()),
        Err(_) => None,
    }
}

/// The same of a body that is UTF-8.
fn members_of(text: &[u8]) -> Option<(&[u8], &[u8])>
    ensures { IfSome result (λ found. read_text text.now ≡ Some (funding found.0.now found.1.now)) }
{
    let (token, rest) = text_member(b'{', Name::Token, text)?;
    let (amount, rest) = text_member(b',', Name::Amount, rest)?;
    if is_end(rest) {
        return Some((token, amount));
    }
    None
}

/// Whether the text is the token of this call.
pub(crate) fn is_token(text: &[u8], opened: &Opened, instance: u64) -> bool
    requires { instance < INSTANCES }
    ensures { result ≡ is_some_with (λ id. bytes_eq id (call_uuid instance opened.now.call.0)) (parsed text.now) }
{
    match Uuid::try_parse_ascii(text) {
        Ok(id) => id == opened.call.uuid(instance),
        Err(_) => false,
    }
}
