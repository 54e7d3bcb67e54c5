//! What stands under a name or a number, each by one look-up.
ghost use Rattle.std.specs.Prelude.{◌≡◌, ◌+◌, ◌<◌, ◌^◌, ◌==◌, IfSome, length, int_lt, is_some, pos};
ghost use Rattle.std.specs.Option.{option_map};
ghost use Rattle.iss_model.specs.rules.Settings.{user_named, product_named, is_active_user, is_active_card};
ghost use Rattle.iss_model.specs.rules.Activity.{txn_named, call_numbered};
ghost use Rattle.iss_model.specs.rules.Facts.{available_in, next_notice, next_call};
ghost use Rattle.iss_model.specs.rules.Reasons.{user_is};
ghost use Rattle.iss_model.specs.rules.Pieces.{parts_held};
ghost use Rattle.iss_hold.specs.Holdings.{txn_of_hold, parts_of_hold, whole_of};
ghost use Rattle.iss_call.specs.States.{seen_call};
ghost use Rattle.iss_product.specs.Listed.{products_in};
ghost use Rattle.iss_core.specs.States.{facts_of};

use crate::state::State;
use iss_call::Call;
use iss_hold::Hold;
use iss_model::{CallId, CardState, Currency, Product, Token, UserState};

impl State {
    pub(crate) fn is_user(&self, user: &Token) -> bool
        ensures { result ≡ is_some (user_named user.now (facts_of self.now).users) }
    {
        self.cards.user(user).is_some()
    }

    /// Whether there is a user of that name, who may buy.
    pub(crate) fn is_active_user(&self, user: &Token) -> bool
        ensures { result ≡ user_is is_active_user (facts_of self.now) user.now }
    {
        match self.cards.user(user) {
            Some(UserState::Active) => true,
            Some(UserState::Suspended | UserState::Closed) | None => false,
        }
    }

    pub(crate) fn product(&self, product: &Token) -> Option<Product>
        ensures { result ≡ product_named product.now (facts_of self.now).products }
    {
        self.products.get(product).copied()
    }

    /// A transaction with what it holds.
    pub(crate) fn hold(&self, txn: &Token) -> Option<Hold>
        ensures txn { option_map txn_of_hold result ≡ txn_named txn.now (facts_of self.now).txns }
        ensures parts { IfSome result (λ hold. parts_of_hold hold ≡ parts_held (facts_of self.now) hold.txn) }
        ensures small { IfSome result (λ hold. whole_of hold < 2 ^ 62) }
    {
        self.chain.hold(txn)
    }

    pub(crate) fn call(&self, call: CallId) -> Option<Call>
        ensures { option_map seen_call result ≡ call_numbered call.0 (facts_of self.now).calls }
    {
        self.calls.get(call)
    }

    /// The number of the next notice.
    pub(crate) fn next_notice(&self) -> u32
        requires { self.now.notices.made + 1 < 2 ^ 32 }
        ensures { result ≡ next_notice (facts_of self.now) }
    {
        self.notices.made() + 1
    }

    /// The number of the next call.
    pub(crate) fn next_call(&self) -> CallId
        requires { length self.now.calls + 1 < 2 ^ 32 }
        ensures { result.0 ≡ next_call (facts_of self.now) }
    {
        CallId(self.calls.count() + 1)
    }

    /// Whether a user can't spend this amount: the balance, less what is held, is smaller.
    pub(crate) fn is_short(&self, user: &Token, currency: Currency, amount: u64) -> bool
        ensures { result ≡ int_lt (available_in (facts_of self.now) user.now currency) (pos amount) }
    {
        i128::from(self.chain.available(user, currency)) < i128::from(amount)
    }
}

pub(crate) fn is_active_card(state: CardState) -> bool
    ensures { result ≡ is_active_card state }
{
    matches!(state, CardState::Active)
}
