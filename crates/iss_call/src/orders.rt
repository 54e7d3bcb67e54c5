//! The orders in which asked calls are kept.
ghost use Rattle.std.specs.Prelude.{◌≡◌, ◌<◌, ◌^◌, false, OnOk, OnErr};
ghost use Rattle.std.specs.Set.{remove_key};
ghost use Rattle.std.specs.BTreeSet.{insert_key, contains};
ghost use Rattle.std.specs.BTreeMap.{is_at};
ghost use Rattle.iss_call.specs.Orders.{by_deadline, by_txn};

use iss_model::Token;
use std::alloc::AllocError;
use std::collections::BTreeSet;

/// The asked calls, by deadline and number, and by transaction and number.
#[derive(Drop)]
pub(crate) struct Orders {
    pub(crate) deadlines: BTreeSet<(u64, u32)>,
    pub(crate) txns: BTreeSet<(Token, u32)>,
}

impl Orders {
    /// Enters a call into both orders, or into neither if an allocation fails.
    pub(crate) fn enter(
        &mut self,
        number: u32,
        deadline: u64,
        txn: &Token,
    ) -> Result<(), AllocError>
        requires { contains by_deadline self.old.deadlines (deadline, number) ≡ false }
        ensures deadlines { OnOk result (self.new.deadlines.keys ≡ insert_key by_deadline self.old.deadlines.keys (deadline, number)) }
        ensures txns { OnOk result (self.new.txns.keys ≡ insert_key by_txn self.old.txns.keys (txn.now, number)) }
        ensures deadlines_stay { OnErr result (self.new.deadlines.keys ≡ self.old.deadlines.keys) }
        ensures txns_stay { OnErr result (self.new.txns.keys ≡ self.old.txns.keys) }
        ensures small { number < 2 ^ 32 }
    {
        self.deadlines.insert((deadline, number))?;
        let entered = self.txns.insert((*txn, number));
        if entered.is_err() {
            self.deadlines.remove(&(deadline, number));
            return Err(AllocError);
        }
        Ok(())
    }

    /// Takes a call out of both orders.
    pub(crate) fn leave(&mut self, number: u32, deadline: u64, txn: &Token)
        ensures deadlines { self.new.deadlines.keys ≡ remove_key (is_at (by_deadline (deadline, number))) self.old.deadlines.keys }
        ensures txns { self.new.txns.keys ≡ remove_key (is_at (by_txn (txn.now, number))) self.old.txns.keys }
    {
        self.deadlines.remove(&(deadline, number));
        self.txns.remove(&(*txn, number));
    }
}
