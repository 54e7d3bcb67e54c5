//! Numbers and things that hold no token, written and read.
ghost use Rattle.std.specs.Prelude.{◌≡◌, ◌++◌, OnOk, length};
ghost use Rattle.iss_model.specs.texts.Spelling.{number_bytes};
ghost use Rattle.iss_codec.specs.Readers.{taken_field};
ghost use Rattle.iss_image_lists.specs.Spelling.{signed_bytes, used_bytes, txn_sums_bytes, notice_method_number, call_number};
ghost use Rattle.iss_image_lists.specs.Taking.{take_signed, take_used, take_txn_sums, take_notice_method, notice_method_numbered, take_call, call_numbered};

use iss_codec::{Reader, put_flag, put_u64};
use iss_model::{CallId, Method, TxnSums, Used};
use std::alloc::AllocError;

/// Appends a length in four bytes, or the lowest four bytes of one that has more.
#[tactic(auto, unfolding(iss_model::specs::texts::Spelling::number_bytes))]
pub fn put_length(out: &mut Vec<u8>, length: usize) -> Result<(), AllocError>
    ensures { OnOk result (out.new.items ≡ out.old.items ++ number_bytes 4 length) }
{
    out.extend_from_slice(&(length as u64).to_be_bytes()[4..])
}

/// Appends a whole number in eight bytes, in two's complement.
pub(crate) fn put_signed(out: &mut Vec<u8>, number: i64) -> Result<(), AllocError>
    ensures { OnOk result (out.new.items ≡ out.old.items ++ signed_bytes number) }
{
    put_u64(out, number.cast_unsigned())
}

#[tactic(auto, unfolding(crate::specs::Taking::take_signed))]
pub(crate) fn take_signed(reader: &mut Reader<'_>) -> Option<i64>
    ensures { taken_field result reader.new.bytes.now ≡ take_signed reader.old.bytes.now }
{
    let number = reader.take_u64()?;
    Some(number.cast_signed())
}

pub(crate) fn put_txn_sums(out: &mut Vec<u8>, sums: &TxnSums) -> Result<(), AllocError>
    ensures { OnOk result (out.new.items ≡ out.old.items ++ txn_sums_bytes sums.now) }
{
    put_flag(out, sums.live)?;
    put_u64(out, sums.g)?;
    put_u64(out, sums.p)?;
    put_u64(out, sums.s)?;
    put_u64(out, sums.cleared)?;
    put_u64(out, sums.refunded)?;
    put_u64(out, sums.paid)
}

#[tactic(auto, unfolding(crate::specs::Taking::take_txn_sums))]
pub(crate) fn take_txn_sums(reader: &mut Reader<'_>) -> Option<TxnSums>
    ensures { taken_field result reader.new.bytes.now ≡ take_txn_sums reader.old.bytes.now }
{
    Some(TxnSums {
        live: reader.take_numbered()?,
        g: reader.take_u64()?,
        p: reader.take_u64()?,
        s: reader.take_u64()?,
        cleared: reader.take_u64()?,
        refunded: reader.take_u64()?,
        paid: reader.take_u64()?,
    })
}

/// What a control has counted.
pub(crate) fn put_used(out: &mut Vec<u8>, used: &Used) -> Result<(), AllocError>
    ensures { OnOk result (out.new.items ≡ out.old.items ++ used_bytes used.now) }
{
    put_signed(out, used.amount)?;
    put_signed(out, used.count)
}

#[tactic(auto, unfolding(crate::specs::Taking::take_used))]
pub(crate) fn take_used(reader: &mut Reader<'_>) -> Option<Used>
    ensures { taken_field result reader.new.bytes.now ≡ take_used reader.old.bytes.now }
{
    Some(Used {
        amount: take_signed(reader)?,
        count: take_signed(reader)?,
    })
}

/// What a notice is about, as a number from 1, or 0 for what no notice is about.
pub(crate) fn notice_method_number(method: Method) -> u8
    ensures { result ≡ notice_method_number method }
{
    match method {
        Method::Authorization | Method::Incremental => 0,
        Method::Void => 1,
        Method::StandIn => 2,
        Method::Reversal => 3,
        Method::Capture => 4,
        Method::Refund => 5,
        Method::Expiry => 6,
    }
}

fn notice_method(number: u8) -> Option<Method>
    ensures { result ≡ notice_method_numbered number }
{
    match number {
        1 => Some(Method::Void),
        2 => Some(Method::StandIn),
        3 => Some(Method::Reversal),
        4 => Some(Method::Capture),
        5 => Some(Method::Refund),
        6 => Some(Method::Expiry),
        _ => None,
    }
}

#[tactic(auto, unfolding(iss_codec::specs::Taking::take_numbered))]
pub(crate) fn take_notice_method(reader: &mut Reader<'_>) -> Option<Method>
    ensures { taken_field result reader.new.bytes.now ≡ take_notice_method reader.old.bytes.now }
{
    notice_method(reader.take_byte()?)
}

/// The number of the call that a void ends, or 0.
pub(crate) fn call_number(call: Option<CallId>) -> u32
    ensures { result ≡ call_number call }
{
    match call {
        Some(call) => call.0,
        None => 0,
    }
}

fn call_numbered(number: u32) -> Option<CallId>
    ensures { result ≡ call_numbered number }
{
    if number == 0 {
        return None;
    }
    Some(CallId(number))
}

/// The call that a void ends, if there is one.
#[tactic(auto, unfolding(crate::specs::Taking::take_call))]
pub(crate) fn take_call(reader: &mut Reader<'_>) -> Option<Option<CallId>>
    ensures { taken_field result reader.new.bytes.now ≡ take_call reader.old.bytes.now }
{
    let number = reader.take_u32()?;
    Some(call_numbered(number))
}
