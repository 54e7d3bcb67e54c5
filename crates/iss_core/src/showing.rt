//! What a core keeps, as lists from which the same core can be made again.
ghost use Rattle.std.specs.Prelude.{◌≡◌, true, List, [], ◌∷◌, ◌++◌, map, IfOk, OnOk};
ghost use Rattle.std.specs.List.{list_all};
ghost use Rattle.iss_model.specs.declared.input.Record.{Record};
ghost use Rattle.iss_model.specs.rules.Histories.{history_of};
ghost use Rattle.iss_state.specs.Stakes.{IsOrderlyState, txn_tokens};
ghost use Rattle.iss_states.specs.Counted.{CountsTxns};
ghost use Rattle.iss_states.specs.OverBook.{state_of};
ghost use Rattle.iss_states.specs.Showing.{shown};
ghost use Rattle.iss_core.specs.Showing.{AreOrigins, ArePlain, counter_by, has_span, IsEntered, named_plain, origin_named, span_by};
ghost use Rattle.iss_core.specs.States.{kept_state};
ghost use Rattle.iss_core.specs.Values.{CoreStandsFor};

use crate::Core;
use crate::state::State;
use iss_model::{
    Carried, CarriedList, Counter, CounterList, NoticeList, Saldo, SaldoList, Seen, SeenList, Span,
    Stood, StoodList, Token, Window,
};
use iss_velocity::Counted;
use std::alloc::{AllocError, Global};
use std::collections::BTreeMap;

impl Core {
    /// What the core keeps, as lists from which the same core can be made again. A setting is among its events.
    ///
    /// Events and transactions are in the order in which they began, balances in that of `accounts`, and counters in that
    /// of their controls, users and spans. Amounts are in minor units, stamps in milliseconds.
    pub fn state(&self, alloc: Global) -> Result<iss_model::State, AllocError>
        ensures shown { IfOk result (λ s. s ≡ shown self.now.state) }
        ensures on_book { (rs : List Record) → CoreStandsFor self.now rs
            → IfOk result (λ s. s ≡ state_of (history_of rs)) }
    {
        self.state.shown(alloc)
    }
}

impl State {
    /// All that stands, as lists.
    fn shown(&self, alloc: Global) -> Result<iss_model::State, AllocError>
        requires orderly { IsOrderlyState (kept_state self.now) }
        requires counted { CountsTxns (kept_state self.now) }
        ensures { IfOk result (λ s. s ≡ shown (kept_state self.now)) }
    {
        let events = self.events_shown(alloc)?;
        let txns = self.chain.carried(alloc)?;
        let balances = self.balances_shown(alloc)?;
        let counters = self.counters_shown(alloc, &txns)?;
        let sums = self.sums_shown(alloc)?;
        let notices = self.notices.pending_notices(alloc)?;
        Ok(iss_model::State {
            records: self.count,
            now: self.time,
            events: SeenList(events),
            txns: CarriedList(txns),
            balances: SaldoList(balances),
            counters: CounterList(counters),
            sums: StoodList(sums),
            made: self.notices.made(),
            notices: NoticeList(notices),
        })
    }

    /// The accepted events, each with its verdict and its call's mark.
    fn events_shown(&self, alloc: Global) -> Result<Vec<Seen>, AllocError>
        ensures { IfOk result (λ v. v.items ≡ (shown (kept_state self.now)).events) }
    {
        let marks = self.calls.marks(alloc)?;
        self.events.seen(alloc, &marks)
    }

    /// The accounts with their balances.
    fn balances_shown(&self, alloc: Global) -> Result<Vec<Saldo>, AllocError>
        ensures { IfOk result (λ v. v.items ≡ (shown (kept_state self.now)).balances) }
    {
        self.chain.balances(alloc)
    }

    /// What the programme stood in with.
    fn sums_shown(&self, alloc: Global) -> Result<Vec<Stood>, AllocError>
        ensures { IfOk result (λ v. v.items ≡ (shown (kept_state self.now)).sums) }
    {
        self.sets.sums(alloc)
    }

    /// What the controls have counted, with the tokens of these transactions, which are all.
    fn counters_shown(&self, alloc: Global, txns: &[Carried]) -> Result<Vec<Counter>, AllocError>
        requires orderly { IsOrderlyState (kept_state self.now) }
        requires counted { CountsTxns (kept_state self.now) }
        requires all { map (λ t. t.txn) txns.now ≡ txn_tokens self.now.chain.holdings.txns }
        ensures { IfOk result (λ v. v.items ≡ (shown (kept_state self.now)).counters) }
    {
        let origins = self.origins(alloc, txns)?;
        let counted = self.controls.counters(alloc)?;
        counters_of(alloc, &counted, &origins)
    }

    /// The transactions by the numbers of their first records. Later ones go in first, so that earlier ones take their place.
    /// No user's token has a byte 0, so a counter's key tells its user and its number.
    fn origins(&self, alloc: Global, txns: &[Carried]) -> Result<BTreeMap<i64, Token>, AllocError>
        requires orderly { IsOrderlyState (kept_state self.now) }
        requires all { map (λ t. t.txn) txns.now ≡ txn_tokens self.now.chain.holdings.txns }
        ensures origins { IfOk result (AreOrigins self.now.chain.holdings.txns) }
        ensures plain { OnOk result (ArePlain self.now.chain.holdings.txns) }
    {
        let mut origins = BTreeMap::new(alloc);
        for carried in txns.iter().rev() {
            enter_origin(&mut origins, self.origin(&carried.txn), &carried.txn)?;
        }
        Ok(origins)
    }

    /// The number of the record that a transaction began with.
    #[tactic(auto, using(crate::proofs::ShownParts::token_plain))]
    fn origin(&self, txn: &Token) -> Option<u32>
        ensures value { result ≡ origin_named self.now.chain.holdings.txns txn.now }
        ensures plain { named_plain self.now.chain.holdings.txns txn.now ≡ true }
    {
        let hold = self.chain.hold(txn)?;
        let _user = hold.txn.user.text();
        Some(hold.txn.origin)
    }
}

/// Enters a transaction by the number of its first record, if there is one.
fn enter_origin(
    origins: &mut BTreeMap<i64, Token>,
    origin: Option<u32>,
    txn: &Token,
) -> Result<(), AllocError>
    ensures { OnOk result (IsEntered origin txn.now origins.old origins.new) }
{
    let Some(number) = origin else {
        return Ok(());
    };
    origins.insert(i64::from(number), *txn)?;
    Ok(())
}

/// Counters as they are shown, with the tokens of the transactions that began with these records.
fn counters_of(
    alloc: Global,
    counted: &[Counted],
    origins: &BTreeMap<i64, Token>,
) -> Result<Vec<Counter>, AllocError>
    requires { list_all (has_span origins.now) counted.now ≡ true }
    ensures { IfOk result (λ v. v.items ≡ map (counter_by origins.now) counted.now) }
{
    let mut counters = Vec::new(alloc);
    for counter in counted {
        let shown = counter_of(counter, origins);
        push(&mut counters, &shown)?;
    }
    Ok(counters)
}

/// Adds a thing after the others.
fn push<T: Copy + Drop>(things: &mut Vec<T>, thing: &T) -> Result<(), AllocError>
    ensures { OnOk result (things.new.items ≡ things.old.items ++ thing.now ∷ []) }
{
    things.push(*thing)?;
    Ok(())
}

/// A counter as it is shown.
fn counter_of(counted: &Counted, origins: &BTreeMap<i64, Token>) -> Counter
    requires { has_span origins.now counted.now ≡ true }
    ensures { result ≡ counter_by origins.now counted.now }
{
    Counter {
        control: counted.control,
        user: counted.user,
        span: span_of(counted, origins),
        used: counted.used,
    }
}

/// The span of a counter. The transaction that it counts stands.
fn span_of(counted: &Counted, origins: &BTreeMap<i64, Token>) -> Span
    requires { has_span origins.now counted.now ≡ true }
    ensures { result ≡ span_by origins.now counted.now.window counted.now.number }
{
    match counted.window {
        Window::Transaction => match origins.get(&counted.number) {
            Some(txn) => Span::Txn(*txn),
            None => unreachable!(),
        },
        Window::Day | Window::Week | Window::Month | Window::Lifetime => {
            Span::Number(counted.number)
        }
    }
}
