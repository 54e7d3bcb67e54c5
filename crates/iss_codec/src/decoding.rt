//! The record that bytes spell.
ghost use Rattle.std.specs.Prelude.{◌≡◌, ◌++◌, List, ℕ, IfOk, IfSome, Some, None};
ghost use Rattle.iss_model.specs.declared.input.Record.{Record};
ghost use Rattle.iss_codec.specs.TakingRecords.{take_fields, take_input, take_record, record_spelled};
ghost use Rattle.iss_codec.specs.Places.{IsTable, BeginsOf, BeginsWithNone, IsFound, OfEachBeginning, take_record_in, record_at_start};
ghost use Rattle.iss_codec.specs.Readers.{taken_field};
ghost use Rattle.iss_codec.specs.Meanings.{IsSpellingOf};

use crate::reader::Reader;
use crate::tokens::{InTable, TakesTokens, WithLength};
use iss_model::{Input, Record, Token};
use std::alloc::{AllocError, Global};

/// The record that these bytes spell, all of them, or `None` exactly if they spell none.
pub fn decode(alloc: Global, bytes: &[u8]) -> Result<Option<Record>, AllocError>
    ensures exact { IfOk result (λ found. found ≡ record_spelled bytes.now) }
    // A record that is read is in form, and these bytes are its spelling.
    ensures found { IfOk result (λ found. IfSome found (λ r. IsSpellingOf r bytes.now)) }
    // A record that these bytes spell is read.
    ensures only { (r : Record) → IsSpellingOf r bytes.now → IfOk result (λ found. found ≡ Some r) }
    // If nothing is read, these bytes spell no record.
    ensures none { IfOk result (λ found. found ≡ None → (r : Record) → IsSpellingOf r bytes.now → ⊥) }
{
    record_spelled(alloc, bytes)
}

#[tactic(auto, unfolding(crate::specs::TakingRecords::record_spelled))]
fn record_spelled(alloc: Global, bytes: &[u8]) -> Result<Option<Record>, AllocError>
    ensures { IfOk result (λ found. found ≡ record_spelled bytes.now) }
{
    let mut reader = Reader::new(bytes);
    match reader.take_record(alloc)? {
        Some(record) if reader.is_at_end() => Ok(Some(record)),
        _ => Ok(None),
    }
}

/// The record at the start of these bytes, each token as its place in a table, and how many bytes it has. `None` exactly if the
/// bytes begin with no record that is spelled so.
pub fn decode_in(
    alloc: Global,
    bytes: &[u8],
    tokens: &[Token],
) -> Result<Option<(Record, usize)>, AllocError>
    ensures exact { IfOk result (λ found. found ≡ record_at_start tokens.now bytes.now) }
    // A record that is read is in form, and the bytes begin with its spelling.
    ensures found { IsTable tokens.now → IfOk result (λ found. IfSome found (λ x. BeginsOf tokens.now x bytes.now)) }
    // A record with whose spelling the bytes begin is read.
    ensures only { IsTable tokens.now → OfEachBeginning tokens.now bytes.now (λ r. IfOk result (IsFound tokens.now r)) }
    // If nothing is read, the bytes begin with the spelling of no record.
    ensures none { IsTable tokens.now → IfOk result (λ found. found ≡ None → BeginsWithNone tokens.now bytes.now) }
{
    record_at_start(alloc, bytes, tokens)
}

#[tactic(auto, unfolding(crate::specs::Places::record_at_start))]
fn record_at_start(
    alloc: Global,
    bytes: &[u8],
    tokens: &[Token],
) -> Result<Option<(Record, usize)>, AllocError>
    ensures { IfOk result (λ found. found ≡ record_at_start tokens.now bytes.now) }
{
    let mut reader = Reader::new(bytes);
    match reader.take_record_in(alloc, tokens)? {
        Some(record) => Ok(Some((record, bytes.len().saturating_sub(reader.bytes.len())))),
        None => Ok(None),
    }
}

impl Reader<'_> {
    /// The next record, each token as its place in a table, or `None` if no record is spelled so at the start.
    pub fn take_record_in(
        &mut self,
        alloc: Global,
        tokens: &[Token],
    ) -> Result<Option<Record>, AllocError>
        ensures { IfOk result (λ found. taken_field found self.new.bytes.now ≡ take_record_in tokens.now self.old.bytes.now) }
    {
        self.take_input(alloc, &InTable { tokens })
    }

    #[tactic(auto, unfolding(crate::specs::TakingRecords::take_record))]
    fn take_record(&mut self, alloc: Global) -> Result<Option<Record>, AllocError>
        ensures { IfOk result (λ found. taken_field found self.new.bytes.now ≡ take_record self.old.bytes.now) }
    {
        self.take_input(alloc, &WithLength)
    }

    fn take_input<N: TakesTokens>(
        &mut self,
        alloc: Global,
        way: &N,
    ) -> Result<Option<Record>, AllocError>
        ensures { IfOk result (λ found. taken_field found self.new.bytes.now ≡ take_input (N.take_name way.now) self.old.bytes.now) }
    {
        let Some(kind) = self.take_byte() else {
            return Ok(None);
        };
        let Some(at) = self.take_stamp() else {
            return Ok(None);
        };
        match self.take_fields(alloc, way, kind)? {
            Some(input) => Ok(Some(Record { at, input })),
            None => Ok(None),
        }
    }

    #[tactic(auto, unfolding(crate::specs::TakingRecords::take_fields))]
    fn take_fields<N: TakesTokens>(
        &mut self,
        alloc: Global,
        way: &N,
        kind: u8,
    ) -> Result<Option<Input>, AllocError>
        ensures { IfOk result (λ read. taken_field read self.new.bytes.now ≡ take_fields (N.take_name way.now) kind self.old.bytes.now) }
    {
        Ok(match kind {
            1 => self.take_user(way),
            2 => self.take_card(way),
            3 => self.take_move(way),
            4 => self.take_product(way),
            5 => self.take_group(alloc, way)?,
            6 => self.take_control(way, false),
            7 => self.take_set(way),
            8 => self.take_switch(way),
            9 => self.take_load(way),
            10 => self.take_authorization(way, false),
            11 => self.take_increment(way),
            12 => self.take_reversal(way),
            13 => self.take_clearing(way),
            14 => self.take_refund(way),
            15 => self.take_answer(),
            16 => self.take_ack(),
            17 => Some(Input::Time),
            18 => self.take_control(way, true),
            19 => self.take_part(),
            20 => self.take_authorization(way, true),
            _ => None,
        })
    }
}
