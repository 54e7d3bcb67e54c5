//! The entries of each call on a transaction. A call on an unknown transaction makes none.
ghost use Rattle.std.specs.Prelude.{◌≡◌, ◌<◌, ◌^◌, ◌-ℤ◌, pos, length, IfOk, IfSome};
ghost use Rattle.iss_model.specs.state.Kept.{IsSmall};
ghost use Rattle.iss_model.specs.rules.Activity.{txn_named};
ghost use Rattle.iss_model.specs.rules.Facts.{not_below};
ghost use Rattle.iss_model.specs.rules.Reasons.{is_some_with};
ghost use Rattle.iss_model.specs.rules.CardReasons.{passes_cleared};
ghost use Rattle.iss_model.specs.rules.Pieces.{owed_to_programme};
ghost use Rattle.iss_chain.specs.Values.{chain_facts};
ghost use Rattle.iss_chain.specs.Calls.{entries_of_fund, entries_of_reverse, entries_of_end, entries_before_end, entries_of_clear, entries_of_refund};
ghost use Rattle.iss_chain.specs.Entering.{StaysSmall};
ghost use Rattle.iss_chain.specs.Rows.{chain_of, AreBooksKept};

use crate::books::Books;
use crate::pieces;
use iss_hold::Hold;
use iss_model::{Entry, Part, Token};
use std::alloc::{AllocError, Global};

impl Books {
    /// A part of a transaction's money is there and held.
    pub(crate) fn fund(
        &self,
        alloc: Global,
        txn: &Token,
        part: Part,
        amount: u64,
    ) -> Result<Vec<Entry>, AllocError>
        requires kept { AreBooksKept self.now }
        requires small { StaysSmall (chain_of self.now) (entries_of_fund (chain_of self.now) txn.now part amount) }
        ensures { IfOk result (λ made. made.items ≡ entries_of_fund (chain_of self.now) txn.now part amount) }
    {
        let mut entries = Vec::new(alloc);
        let Some(hold) = self.holds.get(txn) else {
            return Ok(entries);
        };
        pieces::fund(&mut entries, &hold.txn, part, amount)?;
        Ok(entries)
    }

    /// Up to an amount is let go, and a transaction that then holds nothing ends.
    pub(crate) fn reverse(
        &self,
        alloc: Global,
        txn: &Token,
        amount: u64,
    ) -> Result<Vec<Entry>, AllocError>
        ensures { IfOk result (λ made. made.items ≡ entries_of_reverse (chain_of self.now) txn.now amount) }
    {
        let mut entries = Vec::new(alloc);
        let Some(hold) = self.holds.get(txn) else {
            return Ok(entries);
        };
        pieces::reverse(&mut entries, &hold, amount)?;
        Ok(entries)
    }

    /// What a clearing takes, pays and counts as use, and the end if it ends its transaction. With it comes the place
    /// where the entries of ending begin.
    pub(crate) fn clear(
        &self,
        alloc: Global,
        txn: &Token,
        amount: u64,
        last: bool,
        at: u64,
    ) -> Result<(Vec<Entry>, usize), AllocError>
        requires kept { AreBooksKept self.now }
        requires small { StaysSmall (chain_of self.now) (entries_of_clear (chain_of self.now) txn.now amount last at) }
        ensures entries { IfOk result (λ made. made.0.items ≡ entries_of_clear (chain_of self.now) txn.now amount last at) }
        ensures place { IfOk result (λ made. made.1 ≡ length (entries_before_end (chain_of self.now) txn.now amount at)) }
    {
        let mut entries = Vec::new(alloc);
        let Some(hold) = self.holds.get(txn) else {
            return Ok((entries, 0));
        };
        pieces::clear(&mut entries, &hold, amount, at)?;
        let place = entries.len();
        pieces::end_clearing(&mut entries, &hold, amount, last)?;
        Ok((entries, place))
    }

    /// A refund comes back, and is paid back.
    pub(crate) fn refund(
        &self,
        alloc: Global,
        txn: &Token,
        amount: u64,
    ) -> Result<Vec<Entry>, AllocError>
        requires { AreBooksKept self.now }
        ensures { IfOk result (λ made. made.items ≡ entries_of_refund (chain_of self.now) txn.now amount) }
    {
        let mut entries = Vec::new(alloc);
        let Some(hold) = self.holds.get(txn) else {
            return Ok(entries);
        };
        pieces::refund(&mut entries, &hold.txn, self.owed(txn), amount)?;
        Ok(entries)
    }

    /// What the programme is owed for a transaction.
    pub(crate) fn owed(&self, txn: &Token) -> u64
        requires { AreBooksKept self.now }
        ensures { IfSome (txn_named txn.now self.now.holds.txns) (λ t. result ≡ owed_to_programme (chain_facts (chain_of self.now)) t.txn) }
    {
        let Some(place) = self.holds.place(txn) else {
            return 0;
        };
        owed(self.sums_at(place).paid, self.holds.at(place).p)
    }

    /// A transaction ends, and all that it still holds is let go.
    pub(crate) fn end(&self, alloc: Global, txn: &Token) -> Result<Vec<Entry>, AllocError>
        ensures { IfOk result (λ made. made.items ≡ entries_of_end (chain_of self.now) txn.now) }
    {
        let mut entries = Vec::new(alloc);
        let Some(hold) = self.holds.get(txn) else {
            return Ok(entries);
        };
        pieces::end(&mut entries, &hold)?;
        Ok(entries)
    }

    /// Whether the refunds of a transaction with this one pass what was cleared of it.
    pub(crate) fn over(&self, txn: &Token, amount: u64) -> bool
        requires { AreBooksKept self.now }
        ensures { result ≡ is_some_with (passes_cleared (chain_facts (chain_of self.now)) amount) (txn_named txn.now self.now.holds.txns) }
    {
        let Some(place) = self.holds.place(txn) else {
            return false;
        };
        self.sums_at(place).passes_cleared(amount)
    }
}

/// What the programme has paid for a transaction, less what came back and what it holds.
fn owed(paid: i64, held: u64) -> u64
    requires paid { IsSmall paid }
    requires held { held < 2 ^ 62 }
    ensures { result ≡ not_below (paid -ℤ pos held) }
{
    let owed = paid - held as i64;
    if owed < 0 { 0 } else { owed as u64 }
}
