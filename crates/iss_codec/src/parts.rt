//! Reading the parts of a move and of a control.
ghost use Rattle.std.specs.Prelude.{◌≡◌};
ghost use Rattle.iss_model.specs.Forms.{are_limits, may_count};
ghost use Rattle.iss_codec.specs.Taking.{take_moved, take_association, take_scope, take_optional, take_offset, is_local};
ghost use Rattle.iss_codec.specs.TakingRecords.{take_limits};
ghost use Rattle.iss_codec.specs.Readers.{taken_field};

use crate::reader::Reader;
use crate::tokens::TakesTokens;
use iss_model::limits::{GREATEST_LIMIT, GREATEST_OFFSET, GREATEST_USAGE, LEAST_OFFSET};
use iss_model::{Association, Moved, Scope, Window};

impl Reader<'_> {
    #[tactic(auto, unfolding(crate::specs::Taking::take_moved, crate::specs::Taking::take_moved_card, crate::specs::Taking::take_moved_user))]
    pub(crate) fn take_moved<N: TakesTokens>(&mut self, way: &N) -> Option<Moved>
        ensures { taken_field result self.new.bytes.now ≡ take_moved (N.take_name way.now) self.old.bytes.now }
    {
        match self.take_byte()? {
            1 => Some(Moved::Card(way.take(self)?, self.take_numbered()?)),
            2 => Some(Moved::User(way.take(self)?, self.take_numbered()?)),
            _ => None,
        }
    }

    #[tactic(auto, unfolding(crate::specs::Taking::take_association, crate::specs::Taking::take_named))]
    pub(crate) fn take_association<N: TakesTokens>(&mut self, way: &N) -> Option<Association>
        ensures { taken_field result self.new.bytes.now ≡ take_association (N.take_name way.now) self.old.bytes.now }
    {
        match self.take_byte()? {
            0 => Some(Association::Anybody),
            1 => Some(Association::User(way.take(self)?)),
            2 => Some(Association::Product(way.take(self)?)),
            _ => None,
        }
    }

    #[tactic(auto, unfolding(crate::specs::Taking::take_scope, crate::specs::Taking::take_mcc_scope, crate::specs::Taking::take_named))]
    pub(crate) fn take_scope<N: TakesTokens>(&mut self, way: &N) -> Option<Scope>
        ensures { taken_field result self.new.bytes.now ≡ take_scope (N.take_name way.now) self.old.bytes.now }
    {
        match self.take_byte()? {
            0 => Some(Scope::All),
            1 => Some(Scope::Mcc(self.take_mcc()?)),
            2 => Some(Scope::Group(way.take(self)?)),
            3 => Some(Scope::Mid(way.take(self)?)),
            _ => None,
        }
    }

    /// The limits of a control with this window: the most minor units, and the most purchases.
    #[tactic(auto, unfolding(crate::specs::TakingRecords::take_limits))]
    pub(crate) fn take_limits(&mut self, window: Window) -> Option<(Option<u64>, Option<u32>)>
        ensures { taken_field result self.new.bytes.now ≡ take_limits window self.old.bytes.now }
    {
        let amount = self.take_amount_limit()?;
        let usage = self.take_usage_limit()?;
        are_limits(window, amount, usage).then_some((amount, usage))
    }

    /// The offset of a control's clock from UTC, in minutes: nothing stands for UTC, and two bytes for another.
    #[tactic(auto, unfolding(crate::specs::Taking::take_offset))]
    pub(crate) fn take_offset(&mut self, local: bool) -> Option<i16>
        ensures { taken_field result self.new.bytes.now ≡ take_offset local self.old.bytes.now }
    {
        if !local {
            return Some(0);
        }
        let offset = self.take_u16()?.cast_signed();
        is_local(offset).then_some(offset)
    }

    #[tactic(auto, unfolding(crate::specs::Taking::take_optional))]
    fn take_amount_limit(&mut self) -> Option<Option<u64>>
        ensures { taken_field result self.new.bytes.now ≡ take_optional 8 self.old.bytes.now }
    {
        match self.take_byte()? {
            0 => Some(None),
            1 => Some(Some(self.take_u64()?)),
            _ => None,
        }
    }

    #[tactic(auto, unfolding(crate::specs::Taking::take_optional))]
    fn take_usage_limit(&mut self) -> Option<Option<u32>>
        ensures { taken_field result self.new.bytes.now ≡ take_optional 4 self.old.bytes.now }
    {
        match self.take_byte()? {
            0 => Some(None),
            1 => Some(Some(self.take_u32()?)),
            _ => None,
        }
    }
}

fn is_local(offset: i16) -> bool
    ensures { result ≡ is_local offset }
{
    LEAST_OFFSET <= offset && offset <= GREATEST_OFFSET && offset != 0
}

fn are_limits(window: Window, amount: Option<u64>, usage: Option<u32>) -> bool
    ensures { result ≡ are_limits window amount usage }
{
    amount.is_none_or(|limit| limit <= GREATEST_LIMIT)
        && usage.is_none_or(|limit| limit <= GREATEST_USAGE)
        && (amount.is_some() || usage.is_some())
        && may_count(window, usage)
}

fn may_count(window: Window, usage: Option<u32>) -> bool
    ensures { result ≡ may_count window usage }
{
    match window {
        Window::Transaction => usage.is_none(),
        Window::Day | Window::Week | Window::Month | Window::Lifetime => true,
    }
}
