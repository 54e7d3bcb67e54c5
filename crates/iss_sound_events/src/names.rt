//! The names in an input.
ghost use Rattle.std.specs.Prelude.{◌≡◌, ◌&&◌};
ghost use Rattle.std.specs.List.{list_all};
ghost use Rattle.iss_model.specs.Tokens.{is_token};
ghost use Rattle.iss_model.specs.texts.Spelling.{tokens_of, moved_token, association_tokens, scope_tokens};

use iss_model::{Association, Input, Moved, Scope, Token};

/// Whether each name in an input is a token. It always is: the names of an input have that type.
pub(crate) fn are_tokens(input: &Input) -> bool
    ensures { result ≡ list_all is_token (tokens_of input.now) }
{
    match input {
        Input::User { token, user } => is_token(token) && is_token(user),
        Input::Card {
            token,
            card,
            user,
            product,
            ..
        } => is_token(token) && is_token(card) && is_token(user) && is_token(product),
        Input::Move { token, who } => is_token(token) && is_moved(who),
        Input::Product { token, product, .. } => is_token(token) && is_token(product),
        Input::Group { token, group, .. } => is_token(token) && is_token(group),
        Input::Control {
            token,
            control,
            association,
            scope,
            ..
        } => is_token(token) && is_token(control) && is_association(association) && is_scope(scope),
        Input::Set {
            token,
            set,
            product,
            ..
        } => is_token(token) && is_token(set) && is_token(product),
        Input::Switch { token, product, .. } => is_token(token) && is_token(product),
        Input::Load { token, user, .. } => is_token(token) && is_token(user),
        Input::Authorization {
            token,
            card,
            mid,
            ..
        } => is_token(token) && is_token(card) && is_token(mid),
        Input::Increment { token, txn, .. } => is_token(token) && is_token(txn),
        Input::Reversal { token, txn, .. } => is_token(token) && is_token(txn),
        Input::Clearing { token, txn, .. } => is_token(token) && is_token(txn),
        Input::Refund { token, txn, .. } => is_token(token) && is_token(txn),
        Input::Answer { .. } | Input::Ack { .. } | Input::Time => true,
    }
}

fn is_token(name: &Token) -> bool
    ensures { result ≡ is_token name.now }
{
    !name.text().is_empty()
}

fn is_moved(who: &Moved) -> bool
    ensures { result ≡ is_token (moved_token who.now) }
{
    match who {
        Moved::Card(name, _) => is_token(name),
        Moved::User(name, _) => is_token(name),
    }
}

fn is_association(association: &Association) -> bool
    ensures { result ≡ list_all is_token (association_tokens association.now) }
{
    match association {
        Association::Anybody => true,
        Association::User(name) => is_token(name),
        Association::Product(name) => is_token(name),
    }
}

fn is_scope(scope: &Scope) -> bool
    ensures { result ≡ list_all is_token (scope_tokens scope.now) }
{
    match scope {
        Scope::All | Scope::Mcc(_) => true,
        Scope::Group(name) => is_token(name),
        Scope::Mid(name) => is_token(name),
    }
}
