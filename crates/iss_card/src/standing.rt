//! What a card stands for.
use iss_model::{CardState, Token, UserState};

/// Whether purchases on a card may be judged.
#[derive(Clone, Copy)]
pub enum Standing {
    /// There is no such card.
    Unknown,
    Known {
        user: Token,
        product: Token,
        card: CardState,
        /// The state of the card's user.
        holder: UserState,
    },
}
