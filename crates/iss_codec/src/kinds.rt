//! Reading the fields of each kind, in their order.
ghost use Rattle.std.specs.Prelude.{◌≡◌, IfOk};
ghost use Rattle.iss_model.specs.declared.input.Input.TheVariants as input;
ghost use Rattle.iss_codec.specs.TakingRecords.{take_user, take_card, take_move, take_product, take_group, take_control, take_set, take_switch, take_operation, take_authorization, take_clearing, take_answer, take_part, take_ack};
ghost use Rattle.iss_codec.specs.Readers.{taken_field};

use crate::reader::Reader;
use crate::tokens::TakesTokens;
use iss_model::{CallId, Input, Outcome};
use std::alloc::{AllocError, Global};

impl Reader<'_> {
    #[tactic(auto, unfolding(crate::specs::TakingRecords::take_user))]
    pub(crate) fn take_user<N: TakesTokens>(&mut self, way: &N) -> Option<Input>
        ensures { taken_field result self.new.bytes.now ≡ take_user (N.take_name way.now) self.old.bytes.now }
    {
        Some(Input::User {
            token: way.take(self)?,
            user: way.take(self)?,
        })
    }

    #[tactic(auto, unfolding(crate::specs::TakingRecords::take_card))]
    pub(crate) fn take_card<N: TakesTokens>(&mut self, way: &N) -> Option<Input>
        ensures { taken_field result self.new.bytes.now ≡ take_card (N.take_name way.now) self.old.bytes.now }
    {
        Some(Input::Card {
            token: way.take(self)?,
            card: way.take(self)?,
            user: way.take(self)?,
            product: way.take(self)?,
            active: self.take_numbered()?,
        })
    }

    #[tactic(auto, unfolding(crate::specs::TakingRecords::take_move))]
    pub(crate) fn take_move<N: TakesTokens>(&mut self, way: &N) -> Option<Input>
        ensures { taken_field result self.new.bytes.now ≡ take_move (N.take_name way.now) self.old.bytes.now }
    {
        Some(Input::Move {
            token: way.take(self)?,
            who: self.take_moved(way)?,
        })
    }

    #[tactic(auto, unfolding(crate::specs::TakingRecords::take_product))]
    pub(crate) fn take_product<N: TakesTokens>(&mut self, way: &N) -> Option<Input>
        ensures { taken_field result self.new.bytes.now ≡ take_product (N.take_name way.now) self.old.bytes.now }
    {
        Some(Input::Product {
            token: way.take(self)?,
            product: way.take(self)?,
            currency: self.take_currency()?,
            funding: self.take_numbered()?,
            timeout_ms: self.take_timeout()?,
            hold_ms: self.take_hold_time()?,
        })
    }

    #[tactic(auto, unfolding(crate::specs::TakingRecords::take_group))]
    pub(crate) fn take_group<N: TakesTokens>(
        &mut self,
        alloc: Global,
        way: &N,
    ) -> Result<Option<Input>, AllocError>
        ensures { IfOk result (λ found. taken_field found self.new.bytes.now ≡ take_group (N.take_name way.now) self.old.bytes.now) }
    {
        let Some(token) = way.take(self) else {
            return Ok(None);
        };
        let Some(group) = way.take(self) else {
            return Ok(None);
        };
        match self.take_mccs(alloc)? {
            Some(mccs) => Ok(Some(Input::Group { token, group, mccs })),
            None => Ok(None),
        }
    }

    #[tactic(auto, unfolding(crate::specs::TakingRecords::take_control))]
    pub(crate) fn take_control<N: TakesTokens>(&mut self, way: &N, local: bool) -> Option<Input>
        ensures { taken_field result self.new.bytes.now ≡ take_control (N.take_name way.now) local self.old.bytes.now }
    {
        let token = way.take(self)?;
        let control = way.take(self)?;
        let currency = self.take_currency()?;
        let window = self.take_numbered()?;
        let (amount_limit, usage_limit) = self.take_limits(window)?;
        let association = self.take_association(way)?;
        let scope = self.take_scope(way)?;
        let active = self.take_numbered()?;
        Some(Input::Control {
            token,
            control,
            currency,
            window,
            amount_limit,
            usage_limit,
            association,
            scope,
            offset: self.take_offset(local)?,
            active,
        })
    }

    #[tactic(auto, unfolding(crate::specs::TakingRecords::take_set))]
    pub(crate) fn take_set<N: TakesTokens>(&mut self, way: &N) -> Option<Input>
        ensures { taken_field result self.new.bytes.now ≡ take_set (N.take_name way.now) self.old.bytes.now }
    {
        Some(Input::Set {
            token: way.take(self)?,
            set: way.take(self)?,
            product: way.take(self)?,
            currency: self.take_currency()?,
            connection: self.take_numbered()?,
            timeout: self.take_numbered()?,
            application: self.take_numbered()?,
            max: self.take_limit()?,
            day_limit: self.take_limit()?,
            active: self.take_numbered()?,
        })
    }

    #[tactic(auto, unfolding(crate::specs::TakingRecords::take_switch))]
    pub(crate) fn take_switch<N: TakesTokens>(&mut self, way: &N) -> Option<Input>
        ensures { taken_field result self.new.bytes.now ≡ take_switch (N.take_name way.now) self.old.bytes.now }
    {
        Some(Input::Switch {
            token: way.take(self)?,
            product: way.take(self)?,
            on: self.take_numbered()?,
        })
    }

    #[tactic(auto, unfolding(crate::specs::TakingRecords::take_operation))]
    pub(crate) fn take_load<N: TakesTokens>(&mut self, way: &N) -> Option<Input>
        ensures { taken_field result self.new.bytes.now ≡ take_operation (N.take_name way.now) input.Load self.old.bytes.now }
    {
        Some(Input::Load {
            token: way.take(self)?,
            user: way.take(self)?,
            currency: self.take_currency()?,
            amount: self.take_amount()?,
        })
    }

    #[tactic(auto, unfolding(crate::specs::TakingRecords::take_authorization))]
    pub(crate) fn take_authorization<N: TakesTokens>(
        &mut self,
        way: &N,
        partial: bool,
    ) -> Option<Input>
        ensures { taken_field result self.new.bytes.now ≡ take_authorization (N.take_name way.now) partial self.old.bytes.now }
    {
        Some(Input::Authorization {
            token: way.take(self)?,
            card: way.take(self)?,
            currency: self.take_currency()?,
            amount: self.take_amount()?,
            mcc: self.take_mcc()?,
            mid: way.take(self)?,
            partial,
        })
    }

    #[tactic(auto, unfolding(crate::specs::TakingRecords::take_operation))]
    pub(crate) fn take_increment<N: TakesTokens>(&mut self, way: &N) -> Option<Input>
        ensures { taken_field result self.new.bytes.now ≡ take_operation (N.take_name way.now) input.Increment self.old.bytes.now }
    {
        Some(Input::Increment {
            token: way.take(self)?,
            txn: way.take(self)?,
            currency: self.take_currency()?,
            amount: self.take_amount()?,
        })
    }

    #[tactic(auto, unfolding(crate::specs::TakingRecords::take_operation))]
    pub(crate) fn take_reversal<N: TakesTokens>(&mut self, way: &N) -> Option<Input>
        ensures { taken_field result self.new.bytes.now ≡ take_operation (N.take_name way.now) input.Reversal self.old.bytes.now }
    {
        Some(Input::Reversal {
            token: way.take(self)?,
            txn: way.take(self)?,
            currency: self.take_currency()?,
            amount: self.take_amount()?,
        })
    }

    #[tactic(auto, unfolding(crate::specs::TakingRecords::take_clearing))]
    pub(crate) fn take_clearing<N: TakesTokens>(&mut self, way: &N) -> Option<Input>
        ensures { taken_field result self.new.bytes.now ≡ take_clearing (N.take_name way.now) self.old.bytes.now }
    {
        Some(Input::Clearing {
            token: way.take(self)?,
            txn: way.take(self)?,
            currency: self.take_currency()?,
            amount: self.take_amount()?,
            last: self.take_numbered()?,
        })
    }

    #[tactic(auto, unfolding(crate::specs::TakingRecords::take_operation))]
    pub(crate) fn take_refund<N: TakesTokens>(&mut self, way: &N) -> Option<Input>
        ensures { taken_field result self.new.bytes.now ≡ take_operation (N.take_name way.now) input.Refund self.old.bytes.now }
    {
        Some(Input::Refund {
            token: way.take(self)?,
            txn: way.take(self)?,
            currency: self.take_currency()?,
            amount: self.take_amount()?,
        })
    }

    #[tactic(auto, unfolding(crate::specs::TakingRecords::take_answer))]
    pub(crate) fn take_answer(&mut self) -> Option<Input>
        ensures { taken_field result self.new.bytes.now ≡ take_answer self.old.bytes.now }
    {
        Some(Input::Answer {
            call: CallId(self.take_id()?),
            outcome: self.take_numbered()?,
        })
    }

    #[tactic(auto, unfolding(crate::specs::TakingRecords::take_part))]
    pub(crate) fn take_part(&mut self) -> Option<Input>
        ensures { taken_field result self.new.bytes.now ≡ take_part self.old.bytes.now }
    {
        Some(Input::Answer {
            call: CallId(self.take_id()?),
            outcome: Outcome::Partial(self.take_currency()?, self.take_amount()?),
        })
    }

    #[tactic(auto, unfolding(crate::specs::TakingRecords::take_ack))]
    pub(crate) fn take_ack(&mut self) -> Option<Input>
        ensures { taken_field result self.new.bytes.now ≡ take_ack self.old.bytes.now }
    {
        Some(Input::Ack {
            notice: self.take_id()?,
        })
    }
}
