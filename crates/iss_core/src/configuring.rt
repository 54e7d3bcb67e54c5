//! Settings take effect. Each call on a part could refuse one for a reason that was asked before, so only an allocation can fail.
ghost use Rattle.std.specs.Prelude.{◌≡◌, None, OnOk};
ghost use Rattle.iss_model.specs.state.Cores.{after_setting, with_user, with_card, with_user_moved, with_card_moved, with_product};
ghost use Rattle.iss_model.specs.rules.Reasons.{user_reason, card_reason, move_reason, product_reason, group_reason, set_reason};
ghost use Rattle.iss_model.specs.declared.setting.Moved.TheVariants as moved;
ghost use Rattle.iss_state.specs.Needs.{setting_reason};
ghost use Rattle.iss_card.specs.Standings.{card_fault_reason};
ghost use Rattle.iss_velocity.specs.Puts.{control_fault_reason};
ghost use Rattle.iss_scope.specs.Merchants.{group_fault_reason};
ghost use Rattle.iss_core.specs.States.{facts_of, kept_state};
ghost use Rattle.iss_core.specs.Reasons.{reason_of_control};
ghost use Rattle.iss_core.specs.Settings.{product_fault_reason, set_fault_reason, with_control_put, with_group, with_set_put};

use crate::state::State;
use iss_card::CardFault;
use iss_commando::SetFault;
use iss_model::{CardState, Control, Input, Moved, Product, Set, Token, UserState};
use iss_product::ProductFault;
use iss_scope::GroupFault;
use iss_velocity::ControlFault;
use std::alloc::{AllocError, Global};

impl State {
    /// A setting takes effect if there is no reason to decline it.
    pub(crate) fn configure(&mut self, alloc: Global, input: &Input) -> Result<(), AllocError>
        requires { setting_reason (facts_of self.old) input.now ≡ None }
        ensures { OnOk result (kept_state self.new ≡ after_setting (kept_state self.old) input.now) }
    {
        match input {
            Input::User { token: _, user } => self.put_user(user),
            Input::Card {
                token: _,
                card,
                user,
                product,
                active,
            } => self.put_card(card, user, product, *active),
            Input::Move { token: _, who } => match who {
                Moved::Card(card, to) => self.move_card(card, *to),
                Moved::User(user, to) => self.move_user(user, *to),
            },
            Input::Product {
                token: _,
                product,
                currency,
                funding,
                timeout_ms,
                hold_ms,
            } => {
                let product = Product {
                    name: *product,
                    currency: *currency,
                    funding: *funding,
                    timeout_ms: *timeout_ms,
                    hold_ms: *hold_ms,
                };
                self.put_product(&product)
            }
            Input::Group {
                token: _,
                group,
                mccs,
            } => self.put_group(alloc, group, mccs.as_slice()),
            Input::Control { .. } => {
                let Some(control) = input.control() else {
                    unreachable!()
                };
                self.put_control(&control)
            }
            Input::Set {
                token: _,
                set,
                product,
                currency,
                connection,
                timeout,
                application,
                max,
                day_limit,
                active,
            } => {
                let set = Set {
                    name: *set,
                    product: *product,
                    currency: *currency,
                    connection: *connection,
                    timeout: *timeout,
                    application: *application,
                    max: *max,
                    day_limit: *day_limit,
                    active: *active,
                };
                self.put_set(&set)
            }
            Input::Switch {
                token: _,
                product,
                on,
            } => {
                let _known = self.products.set_switch(product, *on);
                Ok(())
            }
            Input::Load { .. }
            | Input::Authorization { .. }
            | Input::Increment { .. }
            | Input::Reversal { .. }
            | Input::Clearing { .. }
            | Input::Refund { .. }
            | Input::Answer { .. }
            | Input::Ack { .. }
            | Input::Time => Ok(()),
        }
    }

    fn put_user(&mut self, user: &Token) -> Result<(), AllocError>
        requires { user_reason (facts_of self.old) user.now ≡ None }
        ensures { OnOk result (self.new ≡ record self.old { cards = with_user self.old.cards user.now }) }
    {
        match self.cards.add_user(user) {
            Ok(()) => Ok(()),
            Err(fault) => Err(card_memory(fault)),
        }
    }

    fn put_card(
        &mut self,
        card: &Token,
        user: &Token,
        product: &Token,
        active: bool,
    ) -> Result<(), AllocError>
        requires { card_reason (facts_of self.old) card.now user.now product.now ≡ None }
        ensures { OnOk result (self.new ≡ record self.old { cards = with_card self.old.cards card.now user.now product.now active }) }
    {
        match self.cards.add_card(card, user, product, active) {
            Ok(()) => Ok(()),
            Err(fault) => Err(card_memory(fault)),
        }
    }

    fn move_card(&mut self, card: &Token, to: CardState) -> Result<(), AllocError>
        requires { move_reason (facts_of self.old) (moved.Card card.now to) ≡ None }
        ensures { OnOk result (self.new ≡ record self.old { cards = with_card_moved self.old.cards card.now to }) }
    {
        match self.cards.move_card(card, to) {
            Ok(()) => Ok(()),
            Err(fault) => Err(card_memory(fault)),
        }
    }

    fn move_user(&mut self, user: &Token, to: UserState) -> Result<(), AllocError>
        requires { move_reason (facts_of self.old) (moved.User user.now to) ≡ None }
        ensures { OnOk result (self.new ≡ record self.old { cards = with_user_moved self.old.cards user.now to }) }
    {
        match self.cards.move_user(user, to) {
            Ok(()) => Ok(()),
            Err(fault) => Err(card_memory(fault)),
        }
    }

    fn put_product(&mut self, product: &Product) -> Result<(), AllocError>
        requires { product_reason (facts_of self.old) product.now.name ≡ None }
        ensures { OnOk result (self.new ≡ record self.old { products = with_product self.old.products product.now }) }
    {
        match self.products.add(product) {
            Ok(()) => Ok(()),
            Err(fault) => Err(product_memory(fault)),
        }
    }

    fn put_group(&mut self, alloc: Global, group: &Token, mccs: &[u16]) -> Result<(), AllocError>
        requires { group_reason (facts_of self.old) group.now ≡ None }
        ensures { OnOk result (self.new ≡ record self.old { groups = with_group self.old.groups group.now mccs.now }) }
    {
        match self.groups.add(alloc, group, mccs) {
            Ok(()) => Ok(()),
            Err(fault) => Err(group_memory(fault)),
        }
    }

    fn put_control(&mut self, control: &Control) -> Result<(), AllocError>
        requires { reason_of_control (facts_of self.old) control.now ≡ None }
        ensures { OnOk result (self.new ≡ record self.old { controls = with_control_put self.old.controls self.old.count control.now }) }
    {
        match self.controls.put(self.count, control) {
            Ok(()) => Ok(()),
            Err(fault) => Err(control_memory(fault)),
        }
    }

    fn put_set(&mut self, set: &Set) -> Result<(), AllocError>
        requires { set_reason (facts_of self.old) set.now.name set.now.product set.now.currency ≡ None }
        ensures { OnOk result (self.new ≡ record self.old { sets = with_set_put self.old.sets set.now }) }
    {
        match self.sets.put(set) {
            Ok(()) => Ok(()),
            Err(fault) => Err(set_memory(fault)),
        }
    }
}

fn card_memory(fault: CardFault) -> AllocError
    requires { card_fault_reason fault ≡ None }
{
    match fault {
        CardFault::OutOfMemory => AllocError,
        CardFault::UserUnknown
        | CardFault::CardUnknown
        | CardFault::Exists
        | CardFault::MoveUser(_, _)
        | CardFault::MoveCard(_, _) => unreachable!(),
    }
}

fn product_memory(fault: ProductFault) -> AllocError
    requires { product_fault_reason fault ≡ None }
{
    match fault {
        ProductFault::OutOfMemory => AllocError,
        ProductFault::Exists | ProductFault::Limit => unreachable!(),
    }
}

fn group_memory(fault: GroupFault) -> AllocError
    requires { group_fault_reason fault ≡ None }
{
    match fault {
        GroupFault::OutOfMemory => AllocError,
        GroupFault::Exists | GroupFault::Limit => unreachable!(),
    }
}

fn control_memory(fault: ControlFault) -> AllocError
    requires { control_fault_reason fault ≡ None }
{
    match fault {
        ControlFault::OutOfMemory => AllocError,
        ControlFault::Fixed | ControlFault::Limit => unreachable!(),
    }
}

fn set_memory(fault: SetFault) -> AllocError
    requires { set_fault_reason fault ≡ None }
{
    match fault {
        SetFault::OutOfMemory => AllocError,
        SetFault::Fixed | SetFault::Limit => unreachable!(),
    }
}
