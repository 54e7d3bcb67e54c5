//! The texts of reasons.
ghost use Rattle.std.specs.Prelude.{◌≡◌, ◌++◌, OnOk, codes};
ghost use Rattle.iss_model.specs.texts.Wordings.{reason_text, card_state_text, user_state_text};
ghost use Rattle.iss_event.specs.Replies.{detail_text};

use iss_model::{CardState, Reason, UserState};
use std::alloc::AllocError;

/// Adds a reason's name, with what it is about.
pub(crate) fn put_reason(out: &mut Vec<u8>, reason: &Reason) -> Result<(), AllocError>
    ensures { OnOk result (out.new.items ≡ out.old.items ++ reason_text reason.now) }
{
    out.extend_from_slice(reason_name(reason).as_bytes())?;
    put_detail(out, reason)
}

fn put_detail(out: &mut Vec<u8>, reason: &Reason) -> Result<(), AllocError>
    ensures { OnOk result (out.new.items ≡ out.old.items ++ detail_text reason.now) }
{
    match reason {
        Reason::MoveCard(from, to) => put_move(out, card_state_text(*from), card_state_text(*to)),
        Reason::MoveUser(from, to) => put_move(out, user_state_text(*from), user_state_text(*to)),
        Reason::Control(name) | Reason::StandInLimit(name) => out.extend_from_slice(name.text()),
        _ => Ok(()),
    }
}

fn put_move(out: &mut Vec<u8>, from: &str, to: &str) -> Result<(), AllocError>
    ensures { OnOk result (out.new.items
        ≡ out.old.items ++ (from.now ++ codes ":" ++ to.now)) }
{
    out.extend_from_slice(from.as_bytes())?;
    out.push(b':')?;
    out.extend_from_slice(to.as_bytes())
}

/// The reason's name, with a colon if something follows.
#[tactic(auto, unfolding(iss_model::specs::texts::Wordings::reason_text))]
fn reason_name(reason: &Reason) -> &'static str
    ensures { reason_text reason.now ≡ result.now ++ detail_text reason.now }
{
    match reason {
        Reason::Exists => "EXISTS",
        Reason::Limit => "LIMIT",
        Reason::UserUnknown => "USER_UNKNOWN",
        Reason::ProductUnknown => "PRODUCT_UNKNOWN",
        Reason::CardUnknown => "CARD_UNKNOWN",
        Reason::GroupUnknown => "GROUP_UNKNOWN",
        Reason::ControlFixed => "CONTROL_FIXED",
        Reason::SetFixed => "SET_FIXED",
        Reason::MoveCard(_, _) | Reason::MoveUser(_, _) => "MOVE:",
        Reason::CardState => "CARD_STATE",
        Reason::UserState => "USER_STATE",
        Reason::Currency => "CURRENCY",
        Reason::TxnUnknown => "TXN_UNKNOWN",
        Reason::TxnClosed => "TXN_CLOSED",
        Reason::TxnPending => "TXN_PENDING",
        Reason::Control(_) => "CONTROL:",
        Reason::InsufficientFunds => "INSUFFICIENT_FUNDS",
        Reason::GatewayDeclined => "GATEWAY_DECLINED",
        Reason::GatewayConnection => "GATEWAY_CONNECTION",
        Reason::GatewayTimeout => "GATEWAY_TIMEOUT",
        Reason::GatewayApplication => "GATEWAY_APPLICATION",
        Reason::GatewaySwitch => "GATEWAY_SWITCH",
        Reason::StandInLimit(_) => "STAND_IN_LIMIT:",
        Reason::Reversed => "REVERSED",
        Reason::Cleared => "CLEARED",
        Reason::Expired => "EXPIRED",
        Reason::RefundOver => "REFUND_OVER",
    }
}

fn card_state_text(state: CardState) -> &'static str
    ensures { result.now ≡ card_state_text state }
{
    match state {
        CardState::Unactivated => "UNACTIVATED",
        CardState::Active => "ACTIVE",
        CardState::Suspended => "SUSPENDED",
        CardState::Terminated => "TERMINATED",
    }
}

fn user_state_text(state: UserState) -> &'static str
    ensures { result.now ≡ user_state_text state }
{
    match state {
        UserState::Active => "ACTIVE",
        UserState::Suspended => "SUSPENDED",
        UserState::Closed => "CLOSED",
    }
}
