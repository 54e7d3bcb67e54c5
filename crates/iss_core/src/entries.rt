//! The entries of each kind of input.
ghost use Rattle.std.specs.Prelude.{◌≡◌, ℕ, true, OnOk, IsTrue};
ghost use Rattle.iss_model.specs.Forms.{is_in_form, is_stamp};
ghost use Rattle.iss_model.specs.rules.Stepping.{acknowledgement_acts, entries_of, own_entries};
ghost use Rattle.iss_core.specs.States.{facts_of, kept_state};
ghost use Rattle.iss_core.specs.Order.{IsInOrder};
ghost use Rattle.iss_core.specs.Adding.{Adds, AddsActs};
ghost use Rattle.iss_core.specs.Settings.{is_setting};

use crate::operations::Operation;
use crate::purchases::Purchase;
use crate::settings::put_setting;
use crate::state::State;
use iss_model::{Entry, Input, Record};
use std::alloc::{AllocError, Global};

impl State {
    /// The entries of a record that was taken up last.
    pub(crate) fn put_own(
        &self,
        alloc: Global,
        out: &mut Vec<Entry>,
        accepted: &Record,
    ) -> Result<(), AllocError>
        requires order { IsInOrder (kept_state self.now) }
        requires input_form { IsTrue (is_in_form accepted.now.input) }
        requires stamp { IsTrue (is_stamp accepted.now.at) }
        ensures { OnOk result (Adds out.old out.new (own_entries accepted.now (facts_of self.now))) }
    {
        match &accepted.input {
            Input::Load {
                token,
                user,
                currency,
                amount,
            } => self.put_load(out, token, user, *currency, *amount),
            Input::Authorization {
                token,
                card,
                currency,
                amount,
                mcc,
                mid,
                partial,
            } => {
                let purchase = Purchase {
                    token: *token,
                    card: *card,
                    currency: *currency,
                    amount: *amount,
                    mcc: *mcc,
                    mid: *mid,
                    partial: *partial,
                    at: accepted.at,
                };
                self.put_authorization(out, &purchase)
            }
            Input::Increment {
                token,
                txn,
                currency,
                amount,
            } => {
                let operation = Operation {
                    token: *token,
                    txn: *txn,
                    currency: *currency,
                    amount: *amount,
                    last: false,
                    at: accepted.at,
                };
                self.put_increment(alloc, out, &operation)
            }
            Input::Reversal {
                token,
                txn,
                currency,
                amount,
            } => {
                let operation = Operation {
                    token: *token,
                    txn: *txn,
                    currency: *currency,
                    amount: *amount,
                    last: false,
                    at: accepted.at,
                };
                self.put_reversal(alloc, out, &operation)
            }
            Input::Clearing {
                token,
                txn,
                currency,
                amount,
                last,
            } => {
                let operation = Operation {
                    token: *token,
                    txn: *txn,
                    currency: *currency,
                    amount: *amount,
                    last: *last,
                    at: accepted.at,
                };
                self.put_clearing(alloc, out, &operation)
            }
            Input::Refund {
                token,
                txn,
                currency,
                amount,
            } => {
                let operation = Operation {
                    token: *token,
                    txn: *txn,
                    currency: *currency,
                    amount: *amount,
                    last: false,
                    at: accepted.at,
                };
                self.put_refund(out, &operation)
            }
            Input::Answer { call, outcome } => self.put_answer(out, *call, *outcome, accepted.at),
            Input::Ack { notice } => self.put_acknowledgement(out, *notice),
            Input::Time => Ok(()),
            Input::User { .. }
            | Input::Card { .. }
            | Input::Move { .. }
            | Input::Product { .. }
            | Input::Group { .. }
            | Input::Control { .. }
            | Input::Set { .. }
            | Input::Switch { .. } => self.put_own_setting(out, &accepted.input),
        }
    }

    /// The entries of a setting.
    fn put_own_setting(&self, out: &mut Vec<Entry>, input: &Input) -> Result<(), AllocError>
        requires { is_setting input.now ≡ true }
        ensures { (at : ℕ) → OnOk result (Adds out.old out.new (entries_of input.now at (facts_of self.now))) }
    {
        match input {
            Input::User { token, user } => {
                put_setting(out, self.user_reason(user), token, input)
            }
            Input::Card {
                token,
                card,
                user,
                product,
                active: _,
            } => put_setting(out, self.card_reason(card, user, product), token, input),
            Input::Move { token, who } => put_setting(out, self.move_reason(who), token, input),
            Input::Product { token, product, .. } => {
                put_setting(out, self.product_reason(product), token, input)
            }
            Input::Group { token, group, .. } => {
                put_setting(out, self.group_reason(group), token, input)
            }
            Input::Control { token, .. } => {
                let Some(control) = input.control() else {
                    unreachable!()
                };
                put_setting(out, self.control_reason(&control), token, input)
            }
            Input::Set {
                token,
                set,
                product,
                currency,
                ..
            } => put_setting(out, self.set_reason(set, product, *currency), token, input),
            Input::Switch {
                token,
                product,
                on: _,
            } => { put_setting(out, self.switch_reason(product), token, input) }
            Input::Load { .. }
            | Input::Authorization { .. }
            | Input::Increment { .. }
            | Input::Reversal { .. }
            | Input::Clearing { .. }
            | Input::Refund { .. }
            | Input::Answer { .. }
            | Input::Ack { .. }
            | Input::Time => unreachable!(),
        }
    }

    /// A notice is acknowledged; a notice that was never made isn't.
    #[inline(never)]
    fn put_acknowledgement(&self, out: &mut Vec<Entry>, notice: u32) -> Result<(), AllocError>
        ensures { OnOk result (AddsActs out.old out.new (acknowledgement_acts (facts_of self.now) notice)) }
    {
        if notice == 0 || notice > self.notices.made() {
            return Ok(());
        }
        out.push(Entry::Acked(notice))?;
        Ok(())
    }
}
