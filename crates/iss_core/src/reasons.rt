//! Why settings and loads are declined: for each the first reason that holds.
ghost use Rattle.std.specs.Prelude.{◌≡◌};
ghost use Rattle.iss_model.specs.rules.Reasons.{user_reason, card_reason, move_reason, card_move_reason, user_move_reason, product_reason, group_reason, control_reason, set_reason, switch_reason, load_reason, lacks_user, lacks_product, lacks_group};
ghost use Rattle.iss_core.specs.Reasons.{reason_of_control, new_control_reason, new_set_reason};
ghost use Rattle.iss_model.specs.rules.Settings.{card_named, user_named};
ghost use Rattle.iss_core.specs.States.{facts_of};

use crate::state::State;
use iss_card::{card_may_move, user_may_move};
use iss_model::{
    Association, CardState, Control, Currency, Moved, Reason, Scope, Token, UserState,
};
use iss_velocity::is_same_control;

impl State {
    pub(crate) fn user_reason(&self, user: &Token) -> Option<Reason>
        ensures { result ≡ user_reason (facts_of self.now) user.now }
    {
        if self.is_user(user) {
            return Some(Reason::Exists);
        }
        None
    }

    pub(crate) fn card_reason(&self, card: &Token, user: &Token, product: &Token) -> Option<Reason>
        ensures { result ≡ card_reason (facts_of self.now) card.now user.now product.now }
    {
        if !self.is_user(user) {
            return Some(Reason::UserUnknown);
        }
        if self.product(product).is_none() {
            return Some(Reason::ProductUnknown);
        }
        if self.cards.card(card).is_some() {
            return Some(Reason::Exists);
        }
        None
    }

    pub(crate) fn move_reason(&self, who: &Moved) -> Option<Reason>
        ensures { result ≡ move_reason (facts_of self.now) who.now }
    {
        match who {
            Moved::Card(card, to) => self.card_move_reason(card, *to),
            Moved::User(user, to) => self.user_move_reason(user, *to),
        }
    }

    fn card_move_reason(&self, card: &Token, to: CardState) -> Option<Reason>
        ensures { result ≡ card_move_reason (card_named card.now (facts_of self.now).cards) to }
    {
        match self.cards.card(card) {
            None => Some(Reason::CardUnknown),
            Some(card) if card_may_move(card.state, to) => None,
            Some(card) => Some(Reason::MoveCard(card.state, to)),
        }
    }

    fn user_move_reason(&self, user: &Token, to: UserState) -> Option<Reason>
        ensures { result ≡ user_move_reason (user_named user.now (facts_of self.now).users) to }
    {
        match self.cards.user(user) {
            None => Some(Reason::UserUnknown),
            Some(from) if user_may_move(from, to) => None,
            Some(from) => Some(Reason::MoveUser(from, to)),
        }
    }

    pub(crate) fn product_reason(&self, product: &Token) -> Option<Reason>
        ensures { result ≡ product_reason (facts_of self.now) product.now }
    {
        if self.product(product).is_some() {
            return Some(Reason::Exists);
        }
        if self.products.is_full() {
            return Some(Reason::Limit);
        }
        None
    }

    pub(crate) fn group_reason(&self, group: &Token) -> Option<Reason>
        ensures { result ≡ group_reason (facts_of self.now) group.now }
    {
        if self.groups.has(group) {
            return Some(Reason::Exists);
        }
        if self.groups.is_full() {
            return Some(Reason::Limit);
        }
        None
    }

    pub(crate) fn control_reason(&self, control: &Control) -> Option<Reason>
        ensures { result ≡ reason_of_control (facts_of self.now) control.now }
    {
        match self.controls.get(&control.name) {
            Some(standing) if is_same_control(standing, control) => None,
            Some(_) => Some(Reason::ControlFixed),
            None => self.new_control_reason(&control.association, &control.scope),
        }
    }

    fn new_control_reason(&self, association: &Association, scope: &Scope) -> Option<Reason>
        ensures { result ≡ new_control_reason (facts_of self.now) association.now scope.now }
    {
        if self.lacks_user(association) {
            return Some(Reason::UserUnknown);
        }
        if self.lacks_product(association) {
            return Some(Reason::ProductUnknown);
        }
        if self.lacks_group(scope) {
            return Some(Reason::GroupUnknown);
        }
        if self.controls.is_full() {
            return Some(Reason::Limit);
        }
        None
    }

    fn lacks_user(&self, association: &Association) -> bool
        ensures { result ≡ lacks_user (facts_of self.now) association.now }
    {
        match association {
            Association::User(user) => !self.is_user(user),
            Association::Anybody | Association::Product(_) => false,
        }
    }

    fn lacks_product(&self, association: &Association) -> bool
        ensures { result ≡ lacks_product (facts_of self.now) association.now }
    {
        match association {
            Association::Product(product) => self.product(product).is_none(),
            Association::Anybody | Association::User(_) => false,
        }
    }

    fn lacks_group(&self, scope: &Scope) -> bool
        ensures { result ≡ lacks_group (facts_of self.now) scope.now }
    {
        match scope {
            Scope::Group(group) => !self.groups.has(group),
            Scope::All | Scope::Mcc(_) | Scope::Mid(_) => false,
        }
    }

    pub(crate) fn set_reason(
        &self,
        set: &Token,
        product: &Token,
        currency: Currency,
    ) -> Option<Reason>
        ensures { result ≡ set_reason (facts_of self.now) set.now product.now currency }
    {
        match self.sets.get(set) {
            Some(standing) if standing.product == *product && standing.currency == currency => None,
            Some(_) => Some(Reason::SetFixed),
            None => self.new_set_reason(product, currency),
        }
    }

    fn new_set_reason(&self, product: &Token, currency: Currency) -> Option<Reason>
        ensures { result ≡ new_set_reason (facts_of self.now) product.now currency }
    {
        match self.product(product) {
            None => Some(Reason::ProductUnknown),
            Some(product) if product.currency != currency => Some(Reason::Currency),
            Some(_) if self.sets.is_full() => Some(Reason::Limit),
            Some(_) => None,
        }
    }

    pub(crate) fn switch_reason(&self, product: &Token) -> Option<Reason>
        ensures { result ≡ switch_reason (facts_of self.now) product.now }
    {
        if self.product(product).is_none() {
            return Some(Reason::ProductUnknown);
        }
        None
    }

    pub(crate) fn load_reason(&self, user: &Token) -> Option<Reason>
        ensures { result ≡ load_reason (facts_of self.now) user.now }
    {
        match self.cards.user(user) {
            None => Some(Reason::UserUnknown),
            Some(UserState::Closed) => Some(Reason::UserState),
            Some(UserState::Active | UserState::Suspended) => None,
        }
    }
}
