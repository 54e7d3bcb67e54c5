//! The tokens that a record has.
ghost use Rattle.std.specs.Prelude.{◌≡◌, ◌++◌, ◌∷◌, [], OnOk, IfOk};
ghost use Rattle.iss_model.specs.texts.Spelling.{moved_token, association_tokens, scope_tokens, tokens_of};

use iss_model::{Association, Input, Moved, Record, Scope, Token};
use std::alloc::{AllocError, Global};

/// The tokens of a record, in the order of its spelling.
pub fn tokens_of(alloc: Global, r: &Record) -> Result<Vec<Token>, AllocError>
    ensures { IfOk result (λ tokens. tokens.items ≡ tokens_of r.now.input) }
{
    let mut tokens = Vec::new(alloc);
    put_tokens(&mut tokens, &r.input)?;
    Ok(tokens)
}

/// Appends the tokens of an input, in the order of its spelling.
pub fn put_tokens(tokens: &mut Vec<Token>, input: &Input) -> Result<(), AllocError>
    ensures { OnOk result (tokens.new.items ≡ tokens.old.items ++ tokens_of input.now) }
{
    match input {
        Input::User { token, user } => put_two(tokens, token, user),
        Input::Card {
            token,
            card,
            user,
            product,
            ..
        } => {
            put_two(tokens, token, card)?;
            put_two(tokens, user, product)
        }
        Input::Move { token, who } => put_two(tokens, token, moved_token(who)),
        Input::Product { token, product, .. } => put_two(tokens, token, product),
        Input::Group { token, group, .. } => put_two(tokens, token, group),
        Input::Control {
            token,
            control,
            association,
            scope,
            ..
        } => {
            put_two(tokens, token, control)?;
            put_association_tokens(tokens, association)?;
            put_scope_tokens(tokens, scope)
        }
        Input::Set {
            token,
            set,
            product,
            ..
        } => put_three(tokens, token, set, product),
        Input::Switch { token, product, .. } => put_two(tokens, token, product),
        Input::Load { token, user, .. } => put_two(tokens, token, user),
        Input::Authorization {
            token,
            card,
            mid,
            ..
        } => put_three(tokens, token, card, mid),
        Input::Increment { token, txn, .. } => put_two(tokens, token, txn),
        Input::Reversal { token, txn, .. } => put_two(tokens, token, txn),
        Input::Clearing { token, txn, .. } => put_two(tokens, token, txn),
        Input::Refund { token, txn, .. } => put_two(tokens, token, txn),
        Input::Answer { .. } | Input::Ack { .. } | Input::Time => Ok(()),
    }
}

fn put_two(tokens: &mut Vec<Token>, first: &Token, second: &Token) -> Result<(), AllocError>
    ensures { OnOk result (tokens.new.items ≡ tokens.old.items ++ first.now ∷ second.now ∷ []) }
{
    tokens.push(*first)?;
    Ok(tokens.push(*second)?)
}

fn put_three(
    tokens: &mut Vec<Token>,
    first: &Token,
    second: &Token,
    third: &Token,
) -> Result<(), AllocError>
    ensures { OnOk result (tokens.new.items ≡ tokens.old.items ++ first.now ∷ second.now ∷ third.now ∷ []) }
{
    put_two(tokens, first, second)?;
    Ok(tokens.push(*third)?)
}

fn moved_token(who: &Moved) -> &Token
    ensures { result.now ≡ moved_token who.now }
{
    match who {
        Moved::Card(card, _) => card,
        Moved::User(user, _) => user,
    }
}

fn put_association_tokens(
    tokens: &mut Vec<Token>,
    association: &Association,
) -> Result<(), AllocError>
    ensures { OnOk result (tokens.new.items ≡ tokens.old.items ++ association_tokens association.now) }
{
    match association {
        Association::Anybody => Ok(()),
        Association::User(user) => Ok(tokens.push(*user)?),
        Association::Product(product) => Ok(tokens.push(*product)?),
    }
}

fn put_scope_tokens(tokens: &mut Vec<Token>, scope: &Scope) -> Result<(), AllocError>
    ensures { OnOk result (tokens.new.items ≡ tokens.old.items ++ scope_tokens scope.now) }
{
    match scope {
        Scope::All | Scope::Mcc(_) => Ok(()),
        Scope::Group(group) => Ok(tokens.push(*group)?),
        Scope::Mid(mid) => Ok(tokens.push(*mid)?),
    }
}
