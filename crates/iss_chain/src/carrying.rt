//! The transactions with their sums, and balances that are set.
ghost use Rattle.std.specs.Prelude.{◌≡◌, ◌<◌, length, map, slice_get, Some, IfOk, OnOk, OnErr};
ghost use Rattle.std.specs.Option.{option_map};
ghost use Rattle.iss_model.specs.rules.Activity.{txn_named};
ghost use Rattle.iss_model.specs.state.Kept.{IsSmall};
ghost use Rattle.iss_chain.specs.Carrying.{carried_of, with_balance};
ghost use Rattle.iss_chain.specs.Restoring.{with_restored, IsRestorable};
ghost use Rattle.iss_chain.specs.Rows.{chain_of, AreBooksKept};

use crate::books::Books;
use crate::rows::add_sums;
use crate::sums::PostSums;
use iss_model::{Account, Carried, Token, Txn, TxnSums};
use std::alloc::{AllocError, Global};

impl Books {
    /// The transaction at a place with its sums.
    fn carried_at(&self, place: usize) -> Carried
        requires { place < length self.now.holds.txns }
        ensures { option_map (carried_of (chain_of self.now)) (slice_get self.now.holds.txns place) ≡ Some result }
    {
        let hold = self.holds.at(place);
        let sums = self.sums_at(place).with_hold(&hold);
        Carried {
            txn: hold.txn.token,
            sums,
        }
    }

    /// The sums of a transaction, `None` exactly if it is unknown.
    pub(crate) fn txn_sums(&self, txn: &Token) -> Option<TxnSums>
        ensures { result ≡ option_map (λ t. (carried_of (chain_of self.now) t).sums) (txn_named txn.now self.now.holds.txns) }
    {
        let place = self.holds.place(txn)?;
        Some(self.carried_at(place).sums)
    }

    /// Each transaction with its sums, in the order in which they began.
    pub(crate) fn carried(&self, alloc: Global) -> Result<Vec<Carried>, AllocError>
        ensures { IfOk result (λ v. v.items ≡ map (carried_of (chain_of self.now)) self.now.holds.txns) }
    {
        let mut carried = Vec::new(alloc);
        for place in 0..self.holds.len() {
            carried.push(self.carried_at(place))?;
        }
        Ok(carried)
    }

    /// Sets the balance of an account.
    pub(crate) fn set_balance(&mut self, account: &Account, balance: i64) -> Result<(), AllocError>
        requires kept { AreBooksKept self.old }
        requires small { IsSmall balance }
        ensures set { OnOk result (chain_of self.new ≡ with_balance (chain_of self.old) account.now balance) }
        ensures unchanged { OnErr result (chain_of self.new ≡ chain_of self.old) }
        ensures kept { AreBooksKept self.new }
    {
        self.ledger.put(account, balance)?;
        Ok(())
    }

    /// Takes a transaction up again with its sums.
    pub(crate) fn restore(&mut self, txn: &Txn, sums: &TxnSums) -> Result<(), AllocError>
        requires kept { AreBooksKept self.old }
        requires restorable { IsRestorable (chain_of self.old) txn.now sums.now }
        ensures restored { OnOk result (chain_of self.new ≡ with_restored (chain_of self.old) txn.now sums.now) }
        ensures kept { OnOk result (AreBooksKept self.new) }
    {
        let place = self.holds.len();
        self.holds.restore(txn, sums)?;
        add_sums(&mut self.sums, place, PostSums::of(sums))?;
        Ok(())
    }
}
