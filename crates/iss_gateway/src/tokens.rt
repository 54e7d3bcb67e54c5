//! What is known of tokens.
ghost use Rattle.std.specs.Prelude.{◌≡◌, ℕ, List, Some, IsSome, IfSome, OnOk};
ghost use Rattle.std.specs.BTreeMap as tree;
ghost use Rattle.iss_gateway.specs.Tables.{by_token, known_in, known_placed, known_voided};

use std::alloc::AllocError;
use std::collections::BTreeMap;
use uuid::Uuid;

/// What is known of a token.
#[derive(Clone, Copy)]
pub(crate) struct Known {
    /// The place of its promise.
    pub(crate) promise: Option<usize>,
    /// Whether a note that acted voided it.
    pub(crate) voided: bool,
}

/// A token that was neither asked for nor voided.
const UNKNOWN: Known = Known {
    promise: None,
    voided: false,
};

/// What is known of a token.
pub(crate) fn known_of(tokens: &BTreeMap<Uuid, Known>, token: &Uuid) -> Known
    ensures { result ≡ known_in tokens.now token.now }
{
    tokens.get(token).copied().unwrap_or(UNKNOWN)
}

/// Makes room for what is known of a token. Nothing more is known of any.
pub(crate) fn begin_token(
    tokens: &mut BTreeMap<Uuid, Known>,
    token: &Uuid,
) -> Result<(), AllocError>
    ensures same { (t : List ℕ) → known_in tokens.new t ≡ known_in tokens.old t }
    ensures stands { OnOk result (IsSome (tree.get by_token tokens.new token.now)) }
{
    if !tokens.contains_key(token) {
        tokens.insert(*token, UNKNOWN)?;
    }
    Ok(())
}

/// Writes what is known of a token that has room.
fn set_known(tokens: &mut BTreeMap<Uuid, Known>, token: &Uuid, known: Known)
    requires { IsSome (tree.get by_token tokens.old token.now) }
    ensures { tree.Updates by_token tokens.old tokens.new token.now (Some known) }
{
    if let Some(place) = tokens.get_mut(token) {
        *place = known;
    }
}

/// Notes the place of a token's promise.
pub(crate) fn place_promise(tokens: &mut BTreeMap<Uuid, Known>, token: &Uuid, place: usize)
    requires { IsSome (tree.get by_token tokens.old token.now) }
    ensures { (t : List ℕ) → known_in tokens.new t ≡ known_placed token.now place t (known_in tokens.old t) }
{
    let known = Known {
        promise: Some(place),
        ..known_of(tokens, token)
    };
    set_known(tokens, token, known);
}

/// The same for a token that is to be voided, if there is one.
pub(crate) fn begin_voided(
    tokens: &mut BTreeMap<Uuid, Known>,
    token: Option<Uuid>,
) -> Result<(), AllocError>
    ensures same { (t : List ℕ) → known_in tokens.new t ≡ known_in tokens.old t }
    ensures stands { OnOk result (IfSome token (λ t. IsSome (tree.get by_token tokens.new t))) }
{
    match token {
        Some(token) => begin_token(tokens, &token),
        None => Ok(()),
    }
}

/// Notes that a token is voided, if there is one.
pub(crate) fn void(tokens: &mut BTreeMap<Uuid, Known>, token: Option<Uuid>)
    requires { IfSome token (λ t. IsSome (tree.get by_token tokens.old t)) }
    ensures { (t : List ℕ) → known_in tokens.new t ≡ known_voided token t (known_in tokens.old t) }
{
    match token {
        Some(token) => void_one(tokens, &token),
        None => {}
    }
}

fn void_one(tokens: &mut BTreeMap<Uuid, Known>, token: &Uuid)
    requires { IsSome (tree.get by_token tokens.old token.now) }
    ensures { (t : List ℕ) → known_in tokens.new t ≡ known_voided (Some token.now) t (known_in tokens.old t) }
{
    let known = Known {
        voided: true,
        ..known_of(tokens, token)
    };
    set_known(tokens, token, known);
}
