//! Users and their cards.
ghost use Rattle.std.specs.Prelude.{◌≡◌, ◌∷◌, [], is_some, is_none, option_map, OnOk, OnErr, IsErrOf};
ghost use Rattle.iss_model.specs.declared.decision.Reason.TheVariants as reason;
ghost use Rattle.iss_model.specs.rules.Settings.{user_named, card_named};
ghost use Rattle.iss_model.specs.rules.Reasons.{first_reason, user_move_reason, card_move_reason};
ghost use Rattle.iss_model.specs.state.Cores.{no_core, with_user, with_user_moved, with_card, with_card_moved};
ghost use Rattle.iss_card.specs.Standings.{standing_in, is_unknown, card_result_reason};

use crate::moves::{card_may_move, first_card_state, user_may_move};
use crate::standing::Standing;
use iss_index::Index;
use iss_model::{Card, CardState, Token, User, UserState};
use std::alloc::{AllocError, Global};
use std::marker::Model;

/// Why users and cards stay as they are.
#[derive(Clone, Copy, Debug, PartialEq, Eq)]
pub enum CardFault {
    UserUnknown,
    CardUnknown,
    /// There is a user, or a card, of that name.
    Exists,
    /// A user may not be moved from the first state to the second.
    MoveUser(UserState, UserState),
    /// A card may not be moved from the first state to the second.
    MoveCard(CardState, CardState),
    OutOfMemory,
}

/// Users and their cards, in the order in which they were added.
#[derive(Drop)]
pub struct Cards {
    users: Index<User>,
    issued: Index<Card>,
}

impl Model for Cards {
    ghost use Rattle.iss_model.specs.state.Cores.{Cardholders};

    ghost Value = { Cardholders };

    ghost use Rattle.std.specs.Prelude.{IsTrue};
    ghost use Rattle.iss_card.specs.Standings.{have_holders};

    ghost view = { λ cards. record { users = cards.users; cards = cards.issued } };

    ghost invariant = { λ cards. IsTrue (have_holders cards.users cards.issued) };
}

impl Cards {
    /// No users and no cards. Nothing is allocated.
    pub fn new(alloc: Global) -> Cards
        ensures { result ≡ no_core.cardholders }
    {
        Cards {
            users: Index::new(alloc),
            issued: Index::new(alloc),
        }
    }

    /// Adds an active user. `Exists` if there is one of that name.
    pub fn add_user(&mut self, user: &Token) -> Result<(), CardFault>
        ensures added { OnOk result (self.new ≡ with_user self.old user.now) }
        ensures refused { OnErr result (self.new ≡ self.old) }
        ensures reason { card_result_reason result
            ≡ first_reason ((is_some (user_named user.now self.old.users), reason.Exists) ∷ []) }
    {
        if self.users.get(user).is_some() {
            return Err(CardFault::Exists);
        }
        self.users.add(User {
            name: *user,
            state: UserState::Active,
        })?;
        Ok(())
    }

    /// Adds a card of a user, which is active or waits to be activated. `UserUnknown` if there is no such user, else `Exists`
    /// if there is a card of that name. Whether the product exists isn't checked.
    pub fn add_card(
        &mut self,
        card: &Token,
        user: &Token,
        product: &Token,
        active: bool,
    ) -> Result<(), CardFault>
        ensures added { OnOk result (self.new ≡ with_card self.old card.now user.now product.now active) }
        ensures refused { OnErr result (self.new ≡ self.old) }
        ensures reason { card_result_reason result ≡ first_reason ((is_none (user_named user.now self.old.users), reason.UserUnknown)
            ∷ (is_some (card_named card.now self.old.cards), reason.Exists) ∷ []) }
    {
        if self.users.get(user).is_none() {
            return Err(CardFault::UserUnknown);
        }
        if self.issued.get(card).is_some() {
            return Err(CardFault::Exists);
        }
        self.issued.add(Card {
            name: *card,
            user: *user,
            product: *product,
            state: first_card_state(active),
        })?;
        Ok(())
    }

    /// Moves a user to a state. `UserUnknown` if there is no such user, `MoveUser` if the move isn't allowed.
    pub fn move_user(&mut self, user: &Token, to: UserState) -> Result<(), CardFault>
        ensures moved { OnOk result (self.new ≡ with_user_moved self.old user.now to) }
        ensures refused { OnErr result (self.new ≡ self.old) }
        ensures reason { card_result_reason result ≡ user_move_reason (user_named user.now self.old.users) to }
        ensures without_memory { ¬ (IsErrOf result CardFault.OutOfMemory) }
    {
        let Some(found) = self.users.get(user) else {
            return Err(CardFault::UserUnknown);
        };
        if !user_may_move(found.state, to) {
            return Err(CardFault::MoveUser(found.state, to));
        }
        let moved = User {
            state: to,
            ..*found
        };
        self.users.set(moved);
        Ok(())
    }

    /// Moves a card to a state. `CardUnknown` if there is no such card, `MoveCard` if the move isn't allowed.
    pub fn move_card(&mut self, card: &Token, to: CardState) -> Result<(), CardFault>
        ensures moved { OnOk result (self.new ≡ with_card_moved self.old card.now to) }
        ensures refused { OnErr result (self.new ≡ self.old) }
        ensures reason { card_result_reason result ≡ card_move_reason (card_named card.now self.old.cards) to }
        ensures without_memory { ¬ (IsErrOf result CardFault.OutOfMemory) }
    {
        let Some(found) = self.issued.get(card) else {
            return Err(CardFault::CardUnknown);
        };
        if !card_may_move(found.state, to) {
            return Err(CardFault::MoveCard(found.state, to));
        }
        let moved = Card {
            state: to,
            ..*found
        };
        self.issued.set(moved);
        Ok(())
    }

    /// Whose card it is, of which product, and the states of the card and of its user.
    pub fn standing(&self, card: &Token) -> Standing
        ensures value { result ≡ standing_in self.now card.now }
        ensures unknown { is_unknown result ≡ is_none (card_named card.now self.now.cards) }
    {
        let Some(card) = self.issued.get(card) else {
            return Standing::Unknown;
        };
        let Some(holder) = self.users.get(&card.user) else {
            return Standing::Unknown;
        };
        Standing::Known {
            user: card.user,
            product: card.product,
            card: card.state,
            holder: holder.state,
        }
    }

    /// The card of that name as it stands, or `None` if there is none.
    pub fn card(&self, name: &Token) -> Option<Card>
        ensures { result ≡ card_named name.now self.now.cards }
    {
        self.issued.get(name).copied()
    }

    /// A user's state, or `None` if there is no user of that name.
    pub fn user(&self, user: &Token) -> Option<UserState>
        ensures { result ≡ option_map (λ found. found.state) (user_named user.now self.now.users) }
    {
        Some(self.users.get(user)?.state)
    }
}

impl From<AllocError> for CardFault {
    ghost use Rattle.iss_card.specs.declared.cards.CardFault.TheVariants.{OutOfMemory};

    ghost from_gives = { λ _ fault. fault ≡ OutOfMemory };

    fn from(_: AllocError) -> CardFault {
        CardFault::OutOfMemory
    }
}
