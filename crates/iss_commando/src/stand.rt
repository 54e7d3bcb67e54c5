//! What a set decides of an amount.
ghost use Rattle.std.specs.Prelude.{◌≡◌, pos, Some};
ghost use Rattle.iss_model.specs.rules.StandIns.{covers_failure};
ghost use Rattle.iss_commando.specs.Stands.{is_for, stand_by, stand_named};

use iss_model::{Failure, Set, Token};

/// What the sets of a product decide if the gateway didn't.
#[derive(Clone, Copy)]
pub enum SetStand {
    /// The set of this name allows the amount.
    Yes(Token),
    /// The set of this name decides, and doesn't allow the amount.
    Limit(Token),
    /// No set covers the failure.
    No,
}

/// Whether a set is an active one of the product that covers the failure.
pub(crate) fn is_for(set: &Set, product: &Token, failure: Failure) -> bool
    ensures { result ≡ is_for product.now failure set.now }
{
    set.active && set.product == *product && covers(set, failure)
}

/// Whether a set covers a failure. Each covers a gateway that is switched off.
fn covers(set: &Set, failure: Failure) -> bool
    ensures { result ≡ covers_failure set.now failure }
{
    match failure {
        Failure::Connection => set.connection,
        Failure::Timeout => set.timeout,
        Failure::Application => set.application,
        Failure::Switch => true,
    }
}

/// What a set that was found decides of an amount, if `stood` stood in on that day.
pub(crate) fn stand_by(set: &Set, stood: u64, amount: u64) -> SetStand
    ensures { result ≡ stand_named (stand_by (pos stood) amount (Some set.now)) }
{
    let total = u128::from(stood) + u128::from(amount);
    if amount <= set.max && total <= u128::from(set.day_limit) {
        SetStand::Yes(set.name)
    } else {
        SetStand::Limit(set.name)
    }
}
