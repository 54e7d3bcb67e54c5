//! Transactions with their sums, written and read.
ghost use Rattle.std.specs.Prelude.{◌≡◌, ◌++◌, OnOk, IfOk};
ghost use Rattle.iss_codec.specs.Places.{place_bytes, take_place};
ghost use Rattle.iss_image_lists.specs.Spelling.{txn_bytes, txns_bytes};
ghost use Rattle.iss_image_lists.specs.Taking.{take_txn, take_txns};
ghost use Rattle.iss_image_lists.specs.ByPlace.{ListTaken};

use crate::parts::{put_length, put_txn_sums, take_txn_sums};
use crate::things::{Takes, take_list};
use iss_codec::{Places, Reader, put_place};
use iss_model::{Carried, Token};
use std::alloc::{AllocError, Global};

/// Appends transactions with their sums, after how many they are. Each token is its place.
pub fn put_txns<P: Places>(
    out: &mut Vec<u8>,
    txns: &[Carried],
    places: &P,
) -> Result<(), AllocError>
    ensures spelled { OnOk result (out.new.items ≡ out.old.items ++ txns_bytes (place_bytes (P.tokens places.now)) txns.now) }
{
    put_length(out, txns.len())?;
    for txn in txns {
        put_txn(out, txn, places)?;
    }
    Ok(())
}

fn put_txn<P: Places>(out: &mut Vec<u8>, txn: &Carried, places: &P) -> Result<(), AllocError>
    ensures { OnOk result (out.new.items ≡ out.old.items ++ txn_bytes (place_bytes (P.tokens places.now)) txn.now) }
{
    put_place(out, &txn.txn, places)?;
    put_txn_sums(out, &txn.sums)
}

/// The transactions that come next, with tokens by their places among these. `None` if what comes next is no list of them.
pub fn take_txns(
    reader: &mut Reader<'_>,
    alloc: Global,
    tokens: &[Token],
) -> Result<Option<Vec<Carried>>, AllocError>
    ensures read { IfOk result (ListTaken (take_txns (take_place tokens.now)) reader.old reader.new) }
{
    take_list(reader, alloc, &TxnTaker { tokens })
}

/// Takes transactions.
#[derive(Drop)]
struct TxnTaker<'a> {
    tokens: &'a [Token],
}

impl Takes for TxnTaker<'_> {
    type Thing = Carried;

    ghost take_thing = { λ taker. take_txn (take_place taker.tokens.now) };

    #[tactic(auto, unfolding(crate::specs::Taking::take_txn))]
    fn take(&self, reader: &mut Reader<'_>) -> Option<Carried> {
        Some(Carried {
            txn: reader.take_place(self.tokens)?,
            sums: take_txn_sums(reader)?,
        })
    }
}
