//! Notices, written and read.
ghost use Rattle.std.specs.Prelude.{◌≡◌, ◌++◌, ℕ, List, Option, OnOk, IfOk};
ghost use Rattle.iss_model.specs.declared.currency.Currency.{Currency};
ghost use Rattle.iss_codec.specs.Places.{place_bytes, take_place};
ghost use Rattle.iss_image_lists.specs.Spelling.{notice_bytes, notices_bytes};
ghost use Rattle.iss_image_lists.specs.Taking.{take_notice};
ghost use Rattle.iss_image_lists.specs.ByPlace.{ListTaken, notices_in};
ghost use Rattle.iss_image_lists.specs.Holding.{held};

use crate::parts::{call_number, notice_method_number, put_length, take_call, take_notice_method};
use crate::things::{Takes, take_list};
use iss_codec::{Places, Reader, put_place, put_u32, put_u64};
use iss_model::{Currency, Notice, Token};
use std::alloc::{AllocError, Global};

/// Whose a transaction is, and in which currency.
#[derive(Clone, Copy)]
pub struct Holder {
    pub user: Token,
    pub currency: Currency,
}

/// What is known of whose transactions are.
pub trait Holders {
    ghost holder_of: { Self → List ℕ → Option (List ℕ × Currency) };

    /// The holder of a transaction, or `None` if there is no such transaction.
    fn holder_of(&self, txn: &Token) -> Option<Holder>
        ensures { held result ≡ holder_of self.now txn.now };
}

/// Appends notices, after how many they are. Each token is its place. A notice's user and currency are left out.
pub fn put_notices<P: Places>(
    out: &mut Vec<u8>,
    notices: &[Notice],
    places: &P,
) -> Result<(), AllocError>
    ensures spelled { OnOk result (out.new.items ≡ out.old.items ++ notices_bytes (place_bytes (P.tokens places.now)) notices.now) }
{
    put_length(out, notices.len())?;
    for notice in notices {
        put_notice(out, notice, places)?;
    }
    Ok(())
}

fn put_notice<P: Places>(out: &mut Vec<u8>, notice: &Notice, places: &P) -> Result<(), AllocError>
    ensures { OnOk result (out.new.items ≡ out.old.items ++ notice_bytes (place_bytes (P.tokens places.now)) notice.now) }
{
    put_u32(out, notice.number)?;
    out.push(notice_method_number(notice.method))?;
    put_place(out, &notice.txn, places)?;
    put_u32(out, call_number(notice.call))?;
    put_u64(out, notice.amount)?;
    put_u64(out, notice.gateway)
}

/// The notices that come next, with tokens by their places among these. `None` if what comes next is no list of them.
pub fn take_notices<H: Holders>(
    reader: &mut Reader<'_>,
    alloc: Global,
    tokens: &[Token],
    holders: &H,
) -> Result<Option<Vec<Notice>>, AllocError>
    ensures read { IfOk result (ListTaken (notices_in tokens.now (H.holder_of holders.now)) reader.old reader.new) }
{
    take_list(reader, alloc, &NoticeTaker { tokens, holders })
}

/// Takes notices.
#[derive(Drop)]
struct NoticeTaker<'a, H> {
    tokens: &'a [Token],
    holders: &'a H,
}

impl<H: Holders> Takes for NoticeTaker<'_, H> {
    type Thing = Notice;

    ghost take_thing = { λ taker. take_notice (take_place taker.tokens.now) (H.holder_of taker.holders.now) };

    #[tactic(auto, unfolding(crate::specs::Taking::take_notice))]
    fn take(&self, reader: &mut Reader<'_>) -> Option<Notice> {
        let number = reader.take_u32()?;
        let method = take_notice_method(reader)?;
        let txn = reader.take_place(self.tokens)?;
        let holder = self.holders.holder_of(&txn)?;
        Some(Notice {
            number,
            method,
            txn,
            user: holder.user,
            currency: holder.currency,
            call: take_call(reader)?,
            amount: reader.take_u64()?,
            gateway: reader.take_u64()?,
        })
    }
}
