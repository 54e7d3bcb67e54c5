//! All calls by number.
ghost use Rattle.std.specs.Prelude.{◌≡◌, ◌↔◌, [], ◌∷◌, ◌++◌, ◌+◌, map, not, length, None, IfOk, IfErr, IsOk, OnOk, OnErr};
ghost use Rattle.std.specs.List.{filter};
ghost use Rattle.std.specs.Option.{option_map};
ghost use Rattle.iss_model.specs.declared.call.CallState.TheVariants as call_state;
ghost use Rattle.iss_model.specs.rules.Activity.{call_numbered, is_asked};
ghost use Rattle.iss_model.specs.rules.Due.{call_due, is_quiet};
ghost use Rattle.iss_model.specs.state.Cores.{with_closed};
ghost use Rattle.iss_call.specs.States.{seen_call, state_in, calls_due, asked_of, looked_up, AreMarks};

use crate::call::{Call, NotOpen, state_of};
use crate::orders::Orders;
use crate::rows::{CallRow, call_of, marks_of, row_numbered, row_of, txn_of};
use iss_index::Names;
use iss_model::{CallId, CallState, How, Opened, Token};
use std::alloc::{AllocError, Global};
use std::collections::{BTreeMap, BTreeSet};
use std::marker::Model;

/// The calls in the order of their numbers. Contracts see their list.
#[derive(Drop)]
pub struct Calls {
    rows: Vec<CallRow>,
    names: Names,
    orders: Orders,
}

impl Model for Calls {
    ghost use Rattle.std.specs.Prelude.{List};
    ghost use Rattle.iss_model.specs.rules.Activity.{CallNow};

    ghost Value = { List CallNow };

    ghost use Rattle.iss_call.specs.Named.{calls_in, AreKept};

    ghost view = { λ c. calls_in c.names 1 c.rows.items };

    ghost invariant = { λ c. AreKept c.names c.rows.items c.orders };
}

impl Calls {
    /// No call.
    pub fn new(alloc: Global) -> Result<Calls, AllocError>
        ensures { IfOk result (λ calls. calls ≡ []) }
    {
        Ok(Calls {
            rows: Vec::new(alloc),
            names: Names::new(alloc),
            orders: Orders {
                deadlines: BTreeSet::new(alloc),
                txns: BTreeSet::new(alloc),
            },
        })
    }

    /// Asks a call of the next number. To close it takes no memory. If an allocation fails, all stays as it was.
    pub fn ask(&mut self, opened: &Opened) -> Result<(), AllocError>
        requires next { opened.now.call.0 ≡ length self.old + 1 }
        ensures asked { OnOk result (self.new ≡ self.old ++ record { opened = opened.now; how = None } ∷ []) }
        ensures unchanged { OnErr result (self.new ≡ self.old) }
    {
        self.rows.reserve(1)?;
        let row = row_of(&mut self.names, opened, self.rows.last())?;
        self.orders
            .enter(opened.call.0, opened.deadline, &opened.txn)?;
        self.rows.push(row)?;
        Ok(())
    }

    /// Closes a call that is asked. Another one stays as it is, and its state is returned.
    pub fn close(&mut self, id: CallId, how: How) -> Result<(), NotOpen>
        ensures exactly { IsOk result ↔ (state_in self.old id.0 ≡ call_state.Asked) }
        ensures state { IfErr result (λ fault. fault.0 ≡ state_in self.old id.0) }
        ensures closed { self.new ≡ with_closed self.old id how }
        ensures unchanged { OnErr result (self.new ≡ self.old) }
    {
        let _names = &self.names;
        match self.state(id) {
            CallState::Asked => {
                self.close_asked(id, how);
                Ok(())
            }
            state => Err(NotOpen(state)),
        }
    }

    /// A call as it stands, `None` exactly if it was never asked.
    pub fn get(&self, id: CallId) -> Option<Call>
        ensures { option_map seen_call result ≡ call_numbered id.0 self.now }
    {
        let row = row_numbered(&self.rows, id)?;
        Some(call_of(&self.names, id, row))
    }

    /// The state of a call, `Unknown` exactly if it was never asked.
    pub fn state(&self, id: CallId) -> CallState
        ensures { result ≡ state_in self.now id.0 }
    {
        match row_numbered(&self.rows, id) {
            Some(row) => state_of(row.how),
            None => CallState::Unknown,
        }
    }

    /// A call as it was opened, `None` exactly if it was never asked.
    pub fn opened(&self, id: CallId) -> Option<Opened>
        ensures { result ≡ option_map (λ c. c.opened) (call_numbered id.0 self.now) }
    {
        self.get(id).map(|call| call.opened)
    }

    /// How many calls were asked, which is the number of the last.
    pub fn count(&self) -> u32
        ensures { result ≡ length self.now }
    {
        self.rows.len() as u32
    }

    /// The calls that are still asked, by number.
    pub fn asked(&self, alloc: Global) -> Result<Vec<CallId>, AllocError>
        ensures { IfOk result (λ v. v.items ≡ map (λ c. c.opened.call) (filter is_asked self.now)) }
    {
        let deadlines = self.orders.deadlines.iter();
        let numbers: BTreeSet<u32> = deadlines.map(|(_, number)| *number).collect(alloc)?;
        let mut asked = Vec::new(alloc);
        for number in &numbers {
            asked.push(CallId(*number))?;
        }
        Ok(asked)
    }

    /// The calls that are still asked as they were opened, by number.
    pub fn asked_opened(&self, alloc: Global) -> Result<Vec<Opened>, AllocError>
        ensures { IfOk result (λ v. v.items ≡ map (λ c. c.opened) (filter is_asked self.now)) }
    {
        let _names = &self.names;
        let ids = self.asked(alloc)?;
        self.opened_of(alloc, &ids)
    }

    /// Whether the deadline of an asked call has come.
    pub fn is_due(&self, now: u64) -> bool
        ensures { result ≡ not (is_quiet (calls_due self.now now)) }
    {
        match self.orders.deadlines.first() {
            Some((deadline, _)) => *deadline <= now,
            None => false,
        }
    }

    /// The asked calls whose deadline has come, by deadline and then by number.
    pub fn due(&self, alloc: Global, now: u64) -> Result<Vec<CallId>, AllocError>
        ensures { IfOk result (λ v. map (λ id. call_due id.0) v.items ≡ map (λ item. item.thing) (calls_due self.now now)) }
    {
        let mut due = Vec::new(alloc);
        for (_, number) in self.orders.deadlines.range(..=(now, u32::MAX)) {
            due.push(CallId(*number))?;
        }
        Ok(due)
    }

    /// The asked calls of a transaction, by number.
    pub fn of_txn(&self, alloc: Global, txn: &Token) -> Result<Vec<CallId>, AllocError>
        ensures { IfOk result (λ v. v.items ≡ map (λ c. c.opened.call) (asked_of self.now txn.now)) }
    {
        let mut asked = Vec::new(alloc);
        for (_, number) in self.orders.txns.range((*txn, 0)..=(*txn, u32::MAX)) {
            asked.push(CallId(*number))?;
        }
        Ok(asked)
    }

    /// The asked calls of a transaction as they were opened, by number.
    pub fn asked_of(&self, alloc: Global, txn: &Token) -> Result<Vec<Opened>, AllocError>
        ensures { IfOk result (λ v. v.items ≡ map (λ c. c.opened) (asked_of self.now txn.now)) }
    {
        let _names = &self.names;
        let ids = self.of_txn(alloc, txn)?;
        self.opened_of(alloc, &ids)
    }

    /// How the call of each event stands, by event. If an event has more than one, it is the first.
    pub fn marks(&self, alloc: Global) -> Result<BTreeMap<Token, CallState>, AllocError>
        ensures { IfOk result (AreMarks self.now) }
    {
        marks_of(alloc, &self.rows)
    }

    /// The calls of these numbers as they were opened, if there are such.
    fn opened_of(&self, alloc: Global, ids: &[CallId]) -> Result<Vec<Opened>, AllocError>
        ensures { IfOk result (λ v. v.items ≡ looked_up self.now ids.now) }
    {
        let mut found = Vec::new(alloc);
        for id in ids {
            if let Some(call) = self.get(*id) {
                found.push(call.opened)?;
            }
        }
        Ok(found)
    }

    /// Closes a call that is asked.
    fn close_asked(&mut self, id: CallId, how: How)
        requires { state_in self.old id.0 ≡ call_state.Asked }
        ensures { self.new ≡ with_closed self.old id how }
    {
        let row = &mut self.rows[id.0 as usize - 1];
        row.how = Some(how);
        self.orders
            .leave(id.0, row.deadline, txn_of(&self.names, row));
    }
}
