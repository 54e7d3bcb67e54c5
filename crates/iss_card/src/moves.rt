//! The states of users and cards, and the moves that are allowed.
ghost use Rattle.std.specs.Prelude.{◌≡◌};
ghost use Rattle.iss_model.specs.rules.Settings.{card_may_move, user_may_move, first_card_state};

use iss_model::{CardState, UserState};

/// A user may be suspended and made active again, and closed once and for all.
pub fn user_may_move(from: UserState, to: UserState) -> bool
    ensures { result ≡ user_may_move from to }
{
    match from {
        UserState::Active => matches!(to, UserState::Suspended | UserState::Closed),
        UserState::Suspended => matches!(to, UserState::Active | UserState::Closed),
        UserState::Closed => false,
    }
}

/// A card may be activated, suspended and made active again, and terminated once and for all.
pub fn card_may_move(from: CardState, to: CardState) -> bool
    ensures { result ≡ card_may_move from to }
{
    match from {
        CardState::Unactivated => matches!(to, CardState::Active | CardState::Terminated),
        CardState::Active => matches!(to, CardState::Suspended | CardState::Terminated),
        CardState::Suspended => matches!(to, CardState::Active | CardState::Terminated),
        CardState::Terminated => false,
    }
}

/// A new card is active, or waits to be activated.
pub(crate) fn first_card_state(active: bool) -> CardState
    ensures { result ≡ first_card_state active }
{
    if active {
        CardState::Active
    } else {
        CardState::Unactivated
    }
}
