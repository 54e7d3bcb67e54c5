//! Settings are taken up again from events, each judged by those before it.
ghost use Rattle.std.specs.Prelude.{◌≡◌, ◌↔◌, ℕ, ◌+◌, Some, None, fold, IsTrue, IfOk, OnOk};
ghost use Rattle.iss_model.specs.declared.decision.Verdict.TheVariants as decided;
ghost use Rattle.iss_states.specs.Rebuilding.{is_done};
ghost use Rattle.iss_states.specs.Settled.{IsJudged, reason_before, set_part};
ghost use Rattle.iss_well_formed.specs.Events.{AreJudged, with_seen_setting};
ghost use Rattle.iss_core.specs.Restoring.{IsJudgedBy, with_setting_at};
ghost use Rattle.iss_core.specs.States.{facts_of, kept_state};

use crate::state::State;
use iss_model::{Input, Reason, Seen, Verdict};
use std::alloc::{AllocError, Global};

impl State {
    /// Takes up each setting that is done among these events. Whether each setting and each load is decided as those before it
    /// have it: if one isn't, none after it is taken up.
    pub(crate) fn take_up_settings(
        &mut self,
        alloc: Global,
        events: &[Seen],
    ) -> Result<bool, AllocError>
        requires { set_part (kept_state self.old) ≡ kept_state self.old }
        ensures judged { IfOk result (λ judged. IsTrue judged ↔ AreJudged (kept_state self.old) events.now) }
        ensures set { IfOk result (λ good. IsTrue good → kept_state self.new ≡ fold with_seen_setting (kept_state self.old) events.now) }
    {
        for event in events {
            if !self.take_up_setting(alloc, event)? {
                return Ok(false);
            }
        }
        Ok(true)
    }

    /// Takes up a setting if it is done. Whether a setting or a load is decided as those before it have it.
    fn take_up_setting(&mut self, alloc: Global, event: &Seen) -> Result<bool, AllocError>
        requires { set_part (kept_state self.old) ≡ kept_state self.old }
        ensures judged { IfOk result (λ judged. IsTrue judged ↔ IsJudgedBy (facts_of self.old) event.now) }
        ensures set { IfOk result (λ judged. IsTrue judged → kept_state self.new ≡ with_seen_setting (kept_state self.old) event.now) }
    {
        match self.reason_before(&event.body.input) {
            None => Ok(true),
            Some(Some(why)) => Ok(is_declined(&event.verdict, &why)),
            Some(None) => self.take_up_done(alloc, event),
        }
    }

    /// Takes up a setting that there is no reason to decline. Whether it is done.
    fn take_up_done(&mut self, alloc: Global, event: &Seen) -> Result<bool, AllocError>
        requires plain { set_part (kept_state self.old) ≡ kept_state self.old }
        requires may { reason_before (facts_of self.old) event.now.body.input ≡ Some None }
        ensures done { IfOk result (λ done. done ≡ is_done event.now.verdict) }
        ensures set { IfOk result (λ done. IsTrue done → kept_state self.new ≡ with_seen_setting (kept_state self.old) event.now) }
    {
        if !is_done(&event.verdict) {
            return Ok(false);
        }
        self.configure_again(alloc, event.number, &event.body.input)?;
        Ok(true)
    }

    /// A setting takes effect with the number of its record. A load sets nothing.
    fn configure_again(
        &mut self,
        alloc: Global,
        number: u32,
        input: &Input,
    ) -> Result<(), AllocError>
        requires plain { set_part (kept_state self.old) ≡ kept_state self.old }
        requires may { reason_before (facts_of self.old) input.now ≡ Some None }
        ensures { OnOk result (kept_state self.new ≡ with_setting_at (kept_state self.old) number input.now) }
    {
        self.count = number;
        self.configure(alloc, input)?;
        self.count = 0;
        Ok(())
    }

    /// Why a setting or a load is declined, if it is. No other input is judged by what was set alone.
    fn reason_before(&self, input: &Input) -> Option<Option<Reason>>
        ensures { result ≡ reason_before (facts_of self.now) input.now }
    {
        match input {
            Input::User { token: _, user } => Some(self.user_reason(user)),
            Input::Card {
                token: _,
                card,
                user,
                product,
                active: _,
            } => Some(self.card_reason(card, user, product)),
            Input::Move { token: _, who } => Some(self.move_reason(who)),
            Input::Product { product, .. } => Some(self.product_reason(product)),
            Input::Group { group, .. } => Some(self.group_reason(group)),
            Input::Control { .. } => {
                let Some(control) = input.control() else {
                    unreachable!()
                };
                Some(self.control_reason(&control))
            }
            Input::Set {
                set,
                product,
                currency,
                ..
            } => Some(self.set_reason(set, product, *currency)),
            Input::Switch {
                token: _,
                product,
                on: _,
            } => Some(self.switch_reason(product)),
            Input::Load { user, .. } => Some(self.load_reason(user)),
            Input::Authorization { .. }
            | Input::Increment { .. }
            | Input::Reversal { .. }
            | Input::Clearing { .. }
            | Input::Refund { .. }
            | Input::Answer { .. }
            | Input::Ack { .. }
            | Input::Time => None,
        }
    }
}

fn is_done(verdict: &Option<Verdict>) -> bool
    ensures { result ≡ is_done verdict.now }
{
    matches!(verdict, Some(Verdict::Done))
}

/// Whether an event was declined for that reason.
fn is_declined(verdict: &Option<Verdict>, why: &Reason) -> bool
    ensures { IsTrue result ↔ (verdict.now ≡ Some (decided.Declined why.now)) }
{
    match verdict {
        Some(Verdict::Declined(reason)) => is_same_reason(reason, why),
        Some(Verdict::Done) | Some(Verdict::Approved) | Some(Verdict::Partial(_, _)) | None =>
            false,
    }
}

/// Whether two reasons are the same.
fn is_same_reason(a: &Reason, b: &Reason) -> bool
    ensures { IsTrue result ↔ (a.now ≡ b.now) }
{
    match a {
        Reason::Exists => matches!(b, Reason::Exists),
        Reason::Limit => matches!(b, Reason::Limit),
        Reason::UserUnknown => matches!(b, Reason::UserUnknown),
        Reason::ProductUnknown => matches!(b, Reason::ProductUnknown),
        Reason::CardUnknown => matches!(b, Reason::CardUnknown),
        Reason::GroupUnknown => matches!(b, Reason::GroupUnknown),
        Reason::ControlFixed => matches!(b, Reason::ControlFixed),
        Reason::SetFixed => matches!(b, Reason::SetFixed),
        Reason::MoveCard(from, to) => {
            matches!(b, Reason::MoveCard(other, then) if other == from && then == to)
        }
        Reason::MoveUser(from, to) => {
            matches!(b, Reason::MoveUser(other, then) if other == from && then == to)
        }
        Reason::CardState => matches!(b, Reason::CardState),
        Reason::UserState => matches!(b, Reason::UserState),
        Reason::Currency => matches!(b, Reason::Currency),
        Reason::TxnUnknown => matches!(b, Reason::TxnUnknown),
        Reason::TxnClosed => matches!(b, Reason::TxnClosed),
        Reason::TxnPending => matches!(b, Reason::TxnPending),
        Reason::Control(name) => matches!(b, Reason::Control(other) if other == name),
        Reason::InsufficientFunds => matches!(b, Reason::InsufficientFunds),
        Reason::GatewayDeclined => matches!(b, Reason::GatewayDeclined),
        Reason::GatewayConnection => matches!(b, Reason::GatewayConnection),
        Reason::GatewayTimeout => matches!(b, Reason::GatewayTimeout),
        Reason::GatewayApplication => matches!(b, Reason::GatewayApplication),
        Reason::GatewaySwitch => matches!(b, Reason::GatewaySwitch),
        Reason::StandInLimit(name) => matches!(b, Reason::StandInLimit(other) if other == name),
        Reason::Reversed => matches!(b, Reason::Reversed),
        Reason::Cleared => matches!(b, Reason::Cleared),
        Reason::Expired => matches!(b, Reason::Expired),
        Reason::RefundOver => matches!(b, Reason::RefundOver),
    }
}
