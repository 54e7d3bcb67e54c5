//! What a core answers: each by its state, and on the book of the records that it stands for.
ghost use Rattle.std.specs.Prelude.{◌≡◌, List, length, map, IfOk, IsTrue};
ghost use Rattle.std.specs.Option.{option_copied};
ghost use Rattle.std.specs.FinMap as finite;
ghost use Rattle.iss_model.specs.declared.input.Record.{Record};
ghost use Rattle.iss_model.specs.Sums.{account_key};
ghost use Rattle.iss_model.specs.Forms.{is_stamp};
ghost use Rattle.iss_model.specs.rules.Facts.{event_reply, balance_in, held_in, call_in};
ghost use Rattle.iss_model.specs.rules.Asks.{used_in};
ghost use Rattle.iss_model.specs.rules.Histories.{book_facts, time_of};
ghost use Rattle.iss_model.specs.state.Cores.{core_facts};
ghost use Rattle.iss_call.specs.States.{call_state_of};
ghost use Rattle.iss_core.specs.Values.{CoreStandsFor};
ghost use Rattle.iss_core.specs.Views.{pending_notice, asked_calls, asked_openings, booked_keys, opening_in, pending_numbers};

use crate::Core;
use iss_model::{Account, CallId, CallState, Currency, Notice, Opened, Reply, Token, Used};
use std::alloc::{AllocError, Global};

impl Core {
    /// The greatest stamp of a record, or 0.
    pub fn now(&self) -> u64
        ensures value { result ≡ self.now.state.now }
        ensures on_book { (rs : List Record) → CoreStandsFor self.now rs → result ≡ time_of rs }
    {
        self.state.time
    }

    /// How many records were taken up.
    pub fn count(&self) -> u32
        ensures value { result ≡ self.now.state.count }
        ensures on_book { (rs : List Record) → CoreStandsFor self.now rs → result ≡ length rs }
    {
        self.state.count
    }

    /// The instance of the core's device, below 2^48.
    pub fn instance(&self) -> u64
        ensures { result ≡ self.now.instance }
    {
        self.instance
    }

    /// What an account has, in minor units: 0 if no money was moved to it or from it.
    pub fn balance(&self, account: &Account) -> i64
        ensures value { result ≡ balance_in (core_facts self.now.state) account.now }
        ensures on_book { (rs : List Record) → CoreStandsFor self.now rs
            → result ≡ balance_in (book_facts rs) account.now }
    {
        self.state.chain.balance(account)
    }

    /// What all transactions of a user hold in a currency, in minor units.
    pub fn held(&self, user: &Token, currency: Currency) -> i64
        ensures value { result ≡ held_in (core_facts self.now.state) user.now currency }
        ensures on_book { (rs : List Record) → CoreStandsFor self.now rs
            → result ≡ held_in (book_facts rs) user.now currency }
    {
        self.state.chain.held_by(user, currency)
    }

    /// What a control has counted of a user in the window of a stamp, `None` exactly if there is no such control. A
    /// control of single transactions has counted nothing here.
    pub fn used(&self, control: &Token, user: &Token, at: u64) -> Option<Used>
        requires { IsTrue (is_stamp at) }
        ensures value { result ≡ used_in (core_facts self.now.state) control.now user.now at }
        ensures on_book { (rs : List Record) → CoreStandsFor self.now rs
            → result ≡ used_in (book_facts rs) control.now user.now at }
    {
        self.state.controls.used(control, user, at)
    }

    /// The state of a call, `Unknown` exactly if it was never asked.
    pub fn call(&self, call: CallId) -> CallState
        ensures value { result ≡ call_state_of (call_in (core_facts self.now.state) call.0) }
        ensures on_book { (rs : List Record) → CoreStandsFor self.now rs
            → result ≡ call_state_of (call_in (book_facts rs) call.0) }
    {
        self.state.calls.state(call)
    }

    /// A call as it was opened, `None` exactly if it was never asked.
    pub fn opened(&self, call: CallId) -> Option<Opened>
        ensures value { result ≡ opening_in (core_facts self.now.state) call.0 }
        ensures on_book { (rs : List Record) → CoreStandsFor self.now rs
            → result ≡ opening_in (book_facts rs) call.0 }
    {
        self.state.calls.opened(call)
    }

    /// A notice, `None` exactly if there is none of that number or it is acknowledged.
    pub fn notice(&self, number: u32) -> Option<&Notice>
        ensures value { option_copied result ≡ pending_notice (core_facts self.now.state) number }
        ensures on_book { (rs : List Record) → CoreStandsFor self.now rs
            → option_copied result ≡ pending_notice (book_facts rs) number }
    {
        self.state.notices.get(number)
    }

    /// How an event was decided, or that it is pending. `None` if there is no such event.
    pub fn reply(&self, event: &Token) -> Option<Reply>
        ensures value { result ≡ event_reply (core_facts self.now.state) event.now }
        ensures on_book { (rs : List Record) → CoreStandsFor self.now rs
            → result ≡ event_reply (book_facts rs) event.now }
    {
        self.state.events.reply(event)
    }

    /// The calls that are asked, by number.
    pub fn calls(&self, alloc: Global) -> Result<Vec<CallId>, AllocError>
        ensures value { IfOk result (λ v. v.items ≡ asked_calls (core_facts self.now.state)) }
        ensures on_book { (rs : List Record) → CoreStandsFor self.now rs
            → IfOk result (λ v. v.items ≡ asked_calls (book_facts rs)) }
    {
        self.state.calls.asked(alloc)
    }

    /// The numbers of the notices that aren't acknowledged yet, in their order.
    pub fn notices(&self, alloc: Global) -> Result<Vec<u32>, AllocError>
        ensures value { IfOk result (λ v. v.items ≡ pending_numbers (core_facts self.now.state)) }
        ensures on_book { (rs : List Record) → CoreStandsFor self.now rs
            → IfOk result (λ v. v.items ≡ pending_numbers (book_facts rs)) }
    {
        self.state.notices.pending(alloc)
    }

    /// The calls that are asked as they were opened, by number.
    pub fn asked(&self, alloc: Global) -> Result<Vec<Opened>, AllocError>
        ensures value { IfOk result (λ v. v.items ≡ asked_openings (core_facts self.now.state)) }
        ensures on_book { (rs : List Record) → CoreStandsFor self.now rs
            → IfOk result (λ v. v.items ≡ asked_openings (book_facts rs)) }
    {
        self.state.calls.asked_opened(alloc)
    }

    /// The notices that aren't acknowledged yet, in the order of their numbers.
    pub fn pending(&self, alloc: Global) -> Result<Vec<Notice>, AllocError>
        ensures value { IfOk result (λ v. v.items ≡ (core_facts self.now.state).pending) }
        ensures on_book { (rs : List Record) → CoreStandsFor self.now rs
            → IfOk result (λ v. v.items ≡ (book_facts rs).pending) }
    {
        self.state.notices.pending_notices(alloc)
    }

    /// The accounts that money was moved to or from. Each gateway's come first, by the number of its currency, then each
    /// network's and each programme's in the same order. Then come those of users, by the bytes of the user's token and
    /// the number of the currency.
    pub fn accounts(&self, alloc: Global) -> Result<Vec<Account>, AllocError>
        ensures value { IfOk result (λ v. map account_key v.items ≡ finite.keys self.now.state.balances) }
        ensures on_book { (rs : List Record) → CoreStandsFor self.now rs
            → IfOk result (λ v. map account_key v.items ≡ booked_keys rs) }
    {
        self.state.chain.accounts(alloc)
    }
}
