//! What a chain is made of, and what each entry does to it.
ghost use Rattle.std.specs.Prelude.{◌≡◌, ◌<◌, length, fold, slice_get, Some, IsSome, IfOk, OnOk, OnErr};
ghost use Rattle.std.specs.Option.{option_map};
ghost use Rattle.iss_model.specs.declared.entry.Entry.TheVariants as entry;
ghost use Rattle.iss_model.specs.rules.Activity.{txn_named};
ghost use Rattle.iss_chain.specs.Values.{IsPosted, no_chain, chain_after_entry};
ghost use Rattle.iss_chain.specs.Entering.{IsChainSmall, StaysSmall, IsNewTxn, PostFits, AreFit, IsChainEnterable};
ghost use Rattle.iss_chain.specs.Rows.{row_sums, rows_in, chain_of, AreBooksKept};

use crate::rows::{make_room, set_sums, sums_of};
use crate::sums::PostSums;
use iss_hold::Holds;
use iss_ledger::Ledger;
use iss_model::{Account, Entry, Token, Txn};
use std::alloc::{AllocError, Global};

/// The balances, the holds, and the sums of the transactions that a post was made for, by their places in the order of
/// the holds.
#[derive(Drop)]
pub(crate) struct Books {
    pub(crate) ledger: Ledger,
    pub(crate) holds: Holds,
    pub(crate) sums: Vec<Option<PostSums>>,
}

impl Books {
    /// Books without a transaction or a post.
    pub(crate) fn new(alloc: Global) -> Result<Books, AllocError>
        ensures value { IfOk result (λ books. chain_of books ≡ no_chain) }
        ensures kept { IfOk result (λ books. AreBooksKept books) }
    {
        Ok(Books {
            ledger: Ledger::new(alloc)?,
            holds: Holds::new(alloc)?,
            sums: Vec::new(alloc),
        })
    }

    /// Books without a transaction or a post, with room for this number of transactions.
    pub(crate) fn with_room(alloc: Global, count: usize) -> Result<Books, AllocError>
        ensures value { IfOk result (λ books. chain_of books ≡ no_chain) }
        ensures kept { IfOk result (λ books. AreBooksKept books) }
    {
        Ok(Books {
            ledger: Ledger::new(alloc)?,
            holds: Holds::with_room(alloc, count)?,
            sums: Vec::with_capacity(alloc, count)?,
        })
    }

    /// The sums of the transaction at a place.
    pub(crate) fn sums_at(&self, place: usize) -> PostSums
        requires { place < length self.now.holds.txns }
        ensures { Some result ≡ option_map row_sums (slice_get (rows_in self.now) place) }
    {
        sums_of(&self.sums, place)
    }

    /// Enters entries one by one. Those of other kinds than a chain's change nothing.
    pub(crate) fn enter_all(&mut self, entries: &[Entry]) -> Result<(), AllocError>
        requires kept { AreBooksKept self.old }
        requires fit { AreFit (chain_of self.old) entries.now }
        requires small { StaysSmall (chain_of self.old) entries.now }
        ensures entered { OnOk result (chain_of self.new ≡ fold chain_after_entry (chain_of self.old) entries.now) }
        ensures kept { AreBooksKept self.new }
    {
        for entry in entries {
            self.enter(entry)?;
        }
        Ok(())
    }

    /// Enters one entry. If an allocation fails, nothing changes.
    pub(crate) fn enter(&mut self, entry: &Entry) -> Result<(), AllocError>
        requires kept { AreBooksKept self.old }
        requires enterable { IsChainEnterable (chain_of self.old) entry.now }
        ensures entered { OnOk result (chain_of self.new ≡ chain_after_entry (chain_of self.old) entry.now) }
        ensures unchanged { OnErr result (chain_of self.new ≡ chain_of self.old) }
        ensures kept { AreBooksKept self.new }
    {
        match entry {
            Entry::Began(txn) => self.begin(txn),
            Entry::Post {
                from,
                to,
                amount,
                txn,
            } => self.post(from, to, *amount, txn),
            Entry::Hold {
                txn,
                user: _,
                currency: _,
                part,
                amount,
            } => {
                self.holds.change(txn, *part, *amount);
                Ok(())
            }
            Entry::Ended(txn) => {
                self.holds.end(txn);
                Ok(())
            }
            Entry::Conf(_)
            | Entry::Opened(_)
            | Entry::Closed(_, _)
            | Entry::Decided(_, _)
            | Entry::Usage(_)
            | Entry::Stood { .. }
            | Entry::Notice(_)
            | Entry::Acked(_) => Ok(()),
        }
    }

    /// Begins a transaction.
    fn begin(&mut self, txn: &Txn) -> Result<(), AllocError>
        requires kept { AreBooksKept self.old }
        requires new { IsNewTxn self.old.holds txn.now }
        requires small { IsChainSmall (chain_after_entry (chain_of self.old) (entry.Began txn.now)) }
        ensures entered { OnOk result (chain_of self.new ≡ chain_after_entry (chain_of self.old) (entry.Began txn.now)) }
        ensures unchanged { OnErr result (chain_of self.new ≡ chain_of self.old) }
        ensures kept { AreBooksKept self.new }
    {
        self.holds.start(txn)?;
        Ok(())
    }

    /// Moves money, and counts it for its transaction if it has one.
    fn post(
        &mut self,
        from: &Account,
        to: &Account,
        amount: u64,
        txn: &Option<Token>,
    ) -> Result<(), AllocError>
        requires kept { AreBooksKept self.old }
        requires known { PostFits self.old.holds txn.now }
        requires small { IsChainSmall (chain_after_entry (chain_of self.old) (entry.Post from.now to.now amount txn.now)) }
        ensures entered { OnOk result (IsPosted (chain_of self.old) from.now to.now amount txn.now (chain_of self.new)) }
        ensures unchanged { OnErr result (chain_of self.new ≡ chain_of self.old) }
        ensures kept { AreBooksKept self.new }
    {
        match txn {
            Some(txn) => self.post_for(from, to, amount, txn),
            None => {
                self.ledger.post(from, to, amount)?;
                Ok(())
            }
        }
    }

    /// Moves money for a transaction, and counts it.
    fn post_for(
        &mut self,
        from: &Account,
        to: &Account,
        amount: u64,
        txn: &Token,
    ) -> Result<(), AllocError>
        requires kept { AreBooksKept self.old }
        requires known { IsSome (txn_named txn.now self.old.holds.txns) }
        requires small { IsChainSmall (chain_after_entry (chain_of self.old) (entry.Post from.now to.now amount (Some txn.now))) }
        ensures entered { OnOk result (IsPosted (chain_of self.old) from.now to.now amount (Some txn.now) (chain_of self.new)) }
        ensures unchanged { OnErr result (chain_of self.new ≡ chain_of self.old) }
        ensures kept { AreBooksKept self.new }
    {
        match self.holds.place(txn) {
            Some(place) => {
                make_room(&mut self.sums, place)?;
                self.ledger.post(from, to, amount)?;
                let sums = sums_of(&self.sums, place).after(from, to, amount);
                set_sums(&mut self.sums, place, sums);
                Ok(())
            }
            None => unreachable!(),
        }
    }
}
