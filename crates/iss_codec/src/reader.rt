//! Reading numbers, tokens and things by their numbers, one after the other.
ghost use Rattle.std.specs.Prelude.{◌≡◌, ◌==◌, length};
ghost use Rattle.iss_model.specs.Forms.{is_timeout, is_hold_time};
ghost use Rattle.iss_codec.specs.Taking.{take_byte, take_bytes, take_number, take_formed, take_stamp, take_amount, take_limit, take_mcc, take_id, take_token, take_numbered, take_currency};
ghost use Rattle.iss_codec.specs.Readers.{taken_field, taken_bytes};

use byteorder::{BigEndian, ByteOrder};
use iss_model::limits::{
    FIRST_NUMBER, GREATEST_AMOUNT, GREATEST_LIMIT, GREATEST_MCC, LAST_STAMP, LEAST_AMOUNT,
    LONGEST_HOLD, LONGEST_TIMEOUT, SHORTEST_HOLD, SHORTEST_TIMEOUT,
};
use iss_model::{Currency, Numbered, Token};

/// Bytes from which fields are taken, each from the start of what the one before it left. If a field isn't there, `None` is
/// returned, and any of the bytes may be left. Contracts see the bytes that are left as `bytes`.
#[derive(Drop)]
pub struct Reader<'a> {
    pub bytes: &'a [u8],
}

impl<'a> Reader<'a> {
    /// A reader of all these bytes.
    pub fn new(bytes: &'a [u8]) -> Reader<'a>
        ensures { result.bytes.now ≡ bytes.now }
    {
        Reader { bytes }
    }

    /// Whether no byte is left.
    pub fn is_at_end(&self) -> bool
        ensures { result ≡ (length self.now.bytes.now == 0) }
    {
        self.bytes.is_empty()
    }

    /// The next byte.
    #[tactic(auto, unfolding(crate::specs::Taking::take_byte))]
    pub fn take_byte(&mut self) -> Option<u8>
        ensures { taken_field result self.new.bytes.now ≡ take_byte self.old.bytes.now }
    {
        let (byte, rest) = self.bytes.split_first()?;
        self.bytes = rest;
        Some(*byte)
    }

    #[tactic(auto, unfolding(crate::specs::Taking::take_bytes))]
    fn take_bytes(&mut self, count: u8) -> Option<&'a [u8]>
        ensures { taken_bytes result self.new.bytes.now ≡ take_bytes count self.old.bytes.now }
    {
        let count = usize::from(count);
        if self.bytes.len() < count {
            return None;
        }
        let (text, rest) = self.bytes.split_at(count);
        self.bytes = rest;
        Some(text)
    }

    /// A number in two bytes, the highest first.
    #[tactic(auto, unfolding(crate::specs::Taking::take_number))]
    pub fn take_u16(&mut self) -> Option<u16>
        ensures { taken_field result self.new.bytes.now ≡ take_number 2 self.old.bytes.now }
    {
        if self.bytes.len() < 2 {
            return None;
        }
        let number = BigEndian::read_u16(self.bytes);
        self.bytes = &self.bytes[2..];
        Some(number)
    }

    /// A number in four bytes, the highest first.
    #[tactic(auto, unfolding(crate::specs::Taking::take_number))]
    pub fn take_u32(&mut self) -> Option<u32>
        ensures { taken_field result self.new.bytes.now ≡ take_number 4 self.old.bytes.now }
    {
        if self.bytes.len() < 4 {
            return None;
        }
        let number = BigEndian::read_u32(self.bytes);
        self.bytes = &self.bytes[4..];
        Some(number)
    }

    /// A number in eight bytes, the highest first.
    #[tactic(auto, unfolding(crate::specs::Taking::take_number))]
    pub fn take_u64(&mut self) -> Option<u64>
        ensures { taken_field result self.new.bytes.now ≡ take_number 8 self.old.bytes.now }
    {
        if self.bytes.len() < 8 {
            return None;
        }
        let number = BigEndian::read_u64(self.bytes);
        self.bytes = &self.bytes[8..];
        Some(number)
    }

    /// A time in milliseconds, in eight bytes. `None` if it is past the last stamp.
    #[tactic(auto, unfolding(crate::specs::Taking::take_formed))]
    pub fn take_stamp(&mut self) -> Option<u64>
        ensures { taken_field result self.new.bytes.now ≡ take_stamp self.old.bytes.now }
    {
        let at = self.take_u64()?;
        (at <= LAST_STAMP).then_some(at)
    }

    #[tactic(auto, unfolding(crate::specs::Taking::take_formed))]
    pub(crate) fn take_amount(&mut self) -> Option<u64>
        ensures { taken_field result self.new.bytes.now ≡ take_amount self.old.bytes.now }
    {
        let amount = self.take_u64()?;
        (LEAST_AMOUNT..=GREATEST_AMOUNT)
            .contains(&amount)
            .then_some(amount)
    }

    #[tactic(auto, unfolding(crate::specs::Taking::take_formed))]
    pub(crate) fn take_limit(&mut self) -> Option<u64>
        ensures { taken_field result self.new.bytes.now ≡ take_limit self.old.bytes.now }
    {
        let limit = self.take_u64()?;
        (limit <= GREATEST_LIMIT).then_some(limit)
    }

    #[tactic(auto, unfolding(crate::specs::Taking::take_formed))]
    pub(crate) fn take_mcc(&mut self) -> Option<u16>
        ensures { taken_field result self.new.bytes.now ≡ take_mcc self.old.bytes.now }
    {
        let mcc = self.take_u16()?;
        (mcc <= GREATEST_MCC).then_some(mcc)
    }

    /// The number of a call or notice, from 1.
    #[tactic(auto, unfolding(crate::specs::Taking::take_formed))]
    pub(crate) fn take_id(&mut self) -> Option<u32>
        ensures { taken_field result self.new.bytes.now ≡ take_id self.old.bytes.now }
    {
        let id = self.take_u32()?;
        (id >= FIRST_NUMBER).then_some(id)
    }

    /// How long the gateway has to answer, in milliseconds.
    #[tactic(auto, unfolding(crate::specs::Taking::take_formed))]
    pub(crate) fn take_timeout(&mut self) -> Option<u64>
        ensures { taken_field result self.new.bytes.now ≡ take_formed 4 is_timeout self.old.bytes.now }
    {
        let timeout_ms = u64::from(self.take_u32()?);
        (SHORTEST_TIMEOUT..=LONGEST_TIMEOUT)
            .contains(&timeout_ms)
            .then_some(timeout_ms)
    }

    /// How long an authorisation holds its amount, in milliseconds.
    #[tactic(auto, unfolding(crate::specs::Taking::take_formed))]
    pub(crate) fn take_hold_time(&mut self) -> Option<u64>
        ensures { taken_field result self.new.bytes.now ≡ take_formed 4 is_hold_time self.old.bytes.now }
    {
        let hold_ms = u64::from(self.take_u32()?);
        (SHORTEST_HOLD..=LONGEST_HOLD)
            .contains(&hold_ms)
            .then_some(hold_ms)
    }

    /// A token after its length in one byte.
    #[tactic(auto, unfolding(crate::specs::Taking::take_token))]
    pub fn take_token(&mut self) -> Option<Token>
        ensures { taken_field result self.new.bytes.now ≡ take_token self.old.bytes.now }
    {
        let len = self.take_byte()?;
        Token::new(self.take_bytes(len)?)
    }

    /// A thing by its number, in one byte.
    #[tactic(auto, unfolding(crate::specs::Taking::take_numbered))]
    pub fn take_numbered<T: Numbered>(&mut self) -> Option<T>
        ensures { taken_field result self.new.bytes.now ≡ take_numbered T.numbered self.old.bytes.now }
    {
        T::from_number(self.take_byte()?)
    }

    /// A currency by its numeric code, in two bytes.
    #[tactic(auto, unfolding(crate::specs::Taking::take_currency))]
    pub fn take_currency(&mut self) -> Option<Currency>
        ensures { taken_field result self.new.bytes.now ≡ take_currency self.old.bytes.now }
    {
        Currency::from_number(self.take_u16()?)
    }
}
