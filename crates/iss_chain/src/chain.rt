//! The chain: transactions over the holds and the ledger.
ghost use Rattle.std.specs.Prelude.{◌≡◌, ◌<◌, ◌^◌, [], ◌∷◌, true, not, length, map, fold, IfOk, OnOk, OnErr, IsSome, IfSome};
ghost use Rattle.std.specs.List.{list_all};
ghost use Rattle.std.specs.Option.{option_map};
ghost use Rattle.std.specs.FinMap as finite;
ghost use Rattle.iss_model.specs.declared.entry.Entry.TheVariants as entry;
ghost use Rattle.iss_model.specs.Sums.{account_key, part_key};
ghost use Rattle.iss_model.specs.state.Kept.{IsSmall, kept_at};
ghost use Rattle.iss_model.specs.rules.Activity.{txn_named};
ghost use Rattle.iss_model.specs.rules.Facts.{balance_in, held_in, available_in};
ghost use Rattle.iss_model.specs.rules.Reasons.{is_some_with};
ghost use Rattle.iss_model.specs.rules.CardReasons.{passes_cleared};
ghost use Rattle.iss_model.specs.rules.Due.{txn_due, is_quiet};
ghost use Rattle.iss_model.specs.rules.Pieces.{parts_held, owed_to_programme};
ghost use Rattle.iss_hold.specs.Holdings.{txn_of_hold, parts_of_hold, whole_of};
ghost use Rattle.iss_hold.specs.Expiries.{txns_due};
ghost use Rattle.iss_ledger.specs.Saldos.{saldo_entry, is_named};
ghost use Rattle.iss_chain.specs.Carrying.{carried_of, with_balance};
ghost use Rattle.iss_chain.specs.Values.{no_chain, chain_after_entry, chain_facts, txn_state};
ghost use Rattle.iss_chain.specs.Calls.{load_money_entries, entries_of_fund, entries_of_reverse, entries_before_end, entries_of_clear, entries_of_refund, entries_of_end};
ghost use Rattle.iss_chain.specs.Entering.{IsNewTxn, StaysSmall, AreFit, IsChainEnterable};
ghost use Rattle.iss_chain.specs.Restoring.{with_restored, IsRestorable};

use crate::books::Books;
use crate::state::TxnState;
use iss_hold::Hold;
use iss_model::{Account, Carried, Currency, Entry, Part, Saldo, Token, Txn, TxnSums};
use std::alloc::{AllocError, Global};
use std::marker::Model;

/// All transactions, with their money and their holds. Contracts see the part of the core's state that it keeps.
///
/// A call on a transaction that isn't known makes no entry and changes nothing. If an allocation fails in a call that
/// consumes the chain, the chain is gone.
#[derive(Drop)]
pub struct Chain {
    books: Books,
}

impl Model for Chain {
    ghost use Rattle.std.specs.Coded.{codes};
    ghost use Rattle.iss_model.specs.state.Kept.{kept_code};
    ghost use Rattle.iss_chain.specs.Values.{ChainNow};

    ghost Value = { ChainNow };

    ghost coded = { Prim.hlevel (codes, kept_code) };

    ghost use Rattle.iss_chain.specs.Rows.{chain_of, AreBooksKept};

    ghost view = { λ c. chain_of c.books };

    ghost invariant = { λ c. AreBooksKept c.books };
}

impl Chain {
    /// A chain without a transaction or a post.
    pub fn new(alloc: Global) -> Result<Chain, AllocError>
        ensures { IfOk result (λ c. c ≡ no_chain) }
    {
        Ok(Chain {
            books: Books::new(alloc)?,
        })
    }

    /// A chain without a transaction or a post, with room for this number of transactions. More may begin too.
    pub fn with_room(alloc: Global, count: usize) -> Result<Chain, AllocError>
        ensures { IfOk result (λ c. c ≡ no_chain) }
    {
        Ok(Chain {
            books: Books::with_room(alloc, count)?,
        })
    }

    /// A transaction begins, which holds nothing yet.
    pub fn begin(mut self, alloc: Global, txn: &Txn) -> Result<(Chain, Vec<Entry>), AllocError>
        requires { IsNewTxn self.holdings txn.now }
        ensures entries { IfOk result (λ x. x.1.items ≡ entry.Began txn.now ∷ []) }
        ensures value { IfOk result (λ x. x.0 ≡ fold chain_after_entry self x.1.items) }
    {
        let entries = vec![in alloc; Entry::Began(*txn)]?;
        self.books.enter_all(&entries)?;
        Ok((self, entries))
    }

    /// Money comes in for a user from the programme.
    pub fn load(
        mut self,
        alloc: Global,
        user: &Token,
        currency: Currency,
        amount: u64,
    ) -> Result<(Chain, Vec<Entry>), AllocError>
        requires { StaysSmall self (load_money_entries user.now currency amount) }
        ensures entries { IfOk result (λ x. x.1.items ≡ load_money_entries user.now currency amount) }
        ensures value { IfOk result (λ x. x.0 ≡ fold chain_after_entry self x.1.items) }
    {
        let entries = load(alloc, user, currency, amount)?;
        self.books.enter_all(&entries)?;
        Ok((self, entries))
    }

    /// An amount of a transaction is paid in by the gateway or the programme, and held, or held of the user's own balance.
    pub fn fund(
        mut self,
        alloc: Global,
        txn: &Token,
        part: Part,
        amount: u64,
    ) -> Result<(Chain, Vec<Entry>), AllocError>
        requires { StaysSmall self (entries_of_fund self txn.now part amount) }
        ensures entries { IfOk result (λ x. x.1.items ≡ entries_of_fund self txn.now part amount) }
        ensures value { IfOk result (λ x. x.0 ≡ fold chain_after_entry self x.1.items) }
    {
        let entries = self.books.fund(alloc, txn, part, amount)?;
        self.books.enter_all(&entries)?;
        Ok((self, entries))
    }

    /// Lets go of what a transaction holds, up to an amount. The programme's part goes first, then the gateway's, then
    /// the user's own. A transaction that then holds nothing ends.
    pub fn reverse(
        mut self,
        alloc: Global,
        txn: &Token,
        amount: u64,
    ) -> Result<(Chain, Vec<Entry>), AllocError>
        requires { StaysSmall self (entries_of_reverse self txn.now amount) }
        ensures entries { IfOk result (λ x. x.1.items ≡ entries_of_reverse self txn.now amount) }
        ensures value { IfOk result (λ x. x.0 ≡ fold chain_after_entry self x.1.items) }
    {
        let entries = self.books.reverse(alloc, txn, amount)?;
        self.books.enter_all(&entries)?;
        Ok((self, entries))
    }

    /// The network receives an amount. It comes from the gateway's part first, then from the programme's, then from the
    /// user's own. For a gateway product the rest comes from the programme, else from the user's balance. A live
    /// transaction ends if the clearing is the last one or nothing is held after it.
    ///
    /// Also returned is the place in the entries where those of ending begin; their count if it doesn't end.
    pub fn clear(
        mut self,
        alloc: Global,
        txn: &Token,
        amount: u64,
        last: bool,
        at: u64,
    ) -> Result<(Chain, Vec<Entry>, usize), AllocError>
        requires { StaysSmall self (entries_of_clear self txn.now amount last at) }
        ensures entries { IfOk result (λ x. x.1.items ≡ entries_of_clear self txn.now amount last at) }
        ensures place { IfOk result (λ x. x.2 ≡ length (entries_before_end self txn.now amount at)) }
        ensures value { IfOk result (λ x. x.0 ≡ fold chain_after_entry self x.1.items) }
    {
        let (entries, place) = self.books.clear(alloc, txn, amount, last, at)?;
        self.books.enter_all(&entries)?;
        Ok((self, entries, place))
    }

    /// An amount comes back from the network to the user. For a gateway product the programme then receives what it is
    /// owed, and the gateway the rest.
    pub fn refund(
        mut self,
        alloc: Global,
        txn: &Token,
        amount: u64,
    ) -> Result<(Chain, Vec<Entry>), AllocError>
        requires { StaysSmall self (entries_of_refund self txn.now amount) }
        ensures entries { IfOk result (λ x. x.1.items ≡ entries_of_refund self txn.now amount) }
        ensures value { IfOk result (λ x. x.0 ≡ fold chain_after_entry self x.1.items) }
    {
        let entries = self.books.refund(alloc, txn, amount)?;
        self.books.enter_all(&entries)?;
        Ok((self, entries))
    }

    /// A transaction ends, and all that it still holds is let go.
    pub fn end(mut self, alloc: Global, txn: &Token) -> Result<(Chain, Vec<Entry>), AllocError>
        requires { StaysSmall self (entries_of_end self txn.now) }
        ensures entries { IfOk result (λ x. x.1.items ≡ entries_of_end self txn.now) }
        ensures value { IfOk result (λ x. x.0 ≡ fold chain_after_entry self x.1.items) }
    {
        let entries = self.books.end(alloc, txn)?;
        self.books.enter_all(&entries)?;
        Ok((self, entries))
    }

    /// Enters one entry: what began, was posted, held or ended; others change nothing. If an allocation fails, all stays as
    /// it was.
    pub fn enter(&mut self, entry: &Entry) -> Result<(), AllocError>
        requires { IsChainEnterable self.old entry.now }
        ensures entered { OnOk result (self.new ≡ chain_after_entry self.old entry.now) }
        ensures unchanged { OnErr result (self.new ≡ self.old) }
    {
        self.books.enter(entry)
    }

    /// Enters entries one by one. If an allocation fails, those before it stay entered.
    pub fn enter_all(&mut self, entries: &[Entry]) -> Result<(), AllocError>
        requires fit { AreFit self.old entries.now }
        requires small { StaysSmall self.old entries.now }
        ensures { OnOk result (self.new ≡ fold chain_after_entry self.old entries.now) }
    {
        self.books.enter_all(entries)
    }

    /// Sets the balance of an account, in minor units. An account with a balance of 0 is one too. If an allocation fails,
    /// all stays as it was.
    pub fn set_balance(&mut self, account: &Account, balance: i64) -> Result<(), AllocError>
        requires { IsSmall balance }
        ensures set { OnOk result (self.new ≡ with_balance self.old account.now balance) }
        ensures unchanged { OnErr result (self.new ≡ self.old) }
    {
        self.books.set_balance(account, balance)
    }

    /// Takes a transaction up again with its sums, in minor units. It is new, and each sum that the chain then keeps is
    /// below 2^62.
    pub fn restore(mut self, txn: &Txn, sums: &TxnSums) -> Result<Chain, AllocError>
        requires { IsRestorable self txn.now sums.now }
        ensures { IfOk result (λ chain. chain ≡ with_restored self txn.now sums.now) }
    {
        self.books.restore(txn, sums)?;
        Ok(self)
    }

    /// A transaction with what it holds, `None` exactly if it is unknown.
    pub fn hold(&self, txn: &Token) -> Option<Hold>
        ensures txn { option_map txn_of_hold result ≡ txn_named txn.now self.now.holdings.txns }
        ensures parts { IfSome result (λ hold. parts_of_hold hold ≡ parts_held (chain_facts self.now) hold.txn) }
        ensures small { IfSome result (λ hold. whole_of hold < 2 ^ 62) }
    {
        self.books.holds.get(txn)
    }

    /// What the programme has paid for a transaction, less what came back and what it holds. For an unknown transaction it is 0.
    pub fn owed(&self, txn: &Token) -> u64
        ensures { IfSome (txn_named txn.now self.now.holdings.txns) (λ t. result ≡ owed_to_programme (chain_facts self.now) t.txn) }
    {
        self.books.owed(txn)
    }

    /// Whether a transaction is known, and whether it has ended.
    pub fn state(&self, txn: &Token) -> TxnState
        ensures { result ≡ txn_state (txn_named txn.now self.now.holdings.txns) }
    {
        match self.books.holds.get(txn) {
            None => TxnState::Unknown,
            Some(hold) if hold.live => TxnState::Live,
            Some(_) => TxnState::Ended,
        }
    }

    /// The transaction of a token, `None` exactly if it isn't known.
    pub fn txn(&self, txn: &Token) -> Option<Txn>
        ensures { result ≡ option_map (λ t. t.txn) (txn_named txn.now self.now.holdings.txns) }
    {
        self.books.holds.txn(txn)
    }

    /// What a user can still spend in a currency: the balance, less what is held, in minor units.
    pub fn available(&self, user: &Token, currency: Currency) -> i64
        ensures { result ≡ available_in (chain_facts self.now) user.now currency }
    {
        let balance = self.books.ledger.balance(&Account::User(*user, currency));
        balance - self.books.holds.held_by(user, currency)
    }

    /// Whether the refunds of a transaction with this one pass what was cleared of it. For an unknown transaction they don't.
    pub fn over(&self, txn: &Token, amount: u64) -> bool
        ensures { result ≡ is_some_with (passes_cleared (chain_facts self.now) amount) (txn_named txn.now self.now.holdings.txns) }
    {
        self.books.over(txn, amount)
    }

    /// What an account has, in minor units: 0 if no post was made.
    pub fn balance(&self, account: &Account) -> i64
        ensures { result ≡ balance_in (chain_facts self.now) account.now }
    {
        self.books.ledger.balance(account)
    }

    /// The accounts that a post was made from or to. Each gateway's come first, by the number of its currency, then each
    /// network's and each programme's in the same order. Then come those of users, by the bytes of the user's token and
    /// the number of the currency.
    pub fn accounts(&self, alloc: Global) -> Result<Vec<Account>, AllocError>
        ensures { IfOk result (λ v. map account_key v.items ≡ finite.keys self.now.balances) }
    {
        self.books.ledger.accounts(alloc)
    }

    /// The accounts that a post was made from or to, with their balances in minor units, in the order of `accounts`.
    pub fn balances(&self, alloc: Global) -> Result<Vec<Saldo>, AllocError>
        ensures balances { IfOk result (λ v. map saldo_entry v.items ≡ finite.entries self.now.balances) }
        ensures named { IfOk result (λ v. list_all is_named v.items ≡ true) }
    {
        self.books.ledger.balances(alloc)
    }

    /// The sums of a transaction, in minor units, `None` exactly if it is unknown.
    pub fn sums(&self, txn: &Token) -> Option<TxnSums>
        ensures { result ≡ option_map (λ t. (carried_of self.now t).sums) (txn_named txn.now self.now.holdings.txns) }
    {
        self.books.txn_sums(txn)
    }

    /// Each transaction with its sums, in minor units, in the order in which they began.
    pub fn carried(&self, alloc: Global) -> Result<Vec<Carried>, AllocError>
        ensures { IfOk result (λ v. v.items ≡ map (carried_of self.now) self.now.holdings.txns) }
    {
        self.books.carried(alloc)
    }

    /// What all transactions of a user hold in a currency, in minor units.
    pub fn held_by(&self, user: &Token, currency: Currency) -> i64
        ensures { result ≡ held_in (chain_facts self.now) user.now currency }
    {
        self.books.holds.held_by(user, currency)
    }

    /// What a transaction holds in a part, in minor units.
    pub fn part(&self, txn: &Token, part: Part) -> i64
        requires { IsSome (txn_named txn.now self.now.holdings.txns) }
        ensures { result ≡ kept_at self.now.holdings.parts (part_key txn.now part) }
    {
        self.books.holds.part(txn, part)
    }

    /// Whether the expiry of a live transaction has come.
    pub fn is_due(&self, now: u64) -> bool
        ensures { result ≡ not (is_quiet (txns_due self.now.holdings now)) }
    {
        self.books.holds.is_due(now)
    }

    /// The live transactions whose expiry has come, by expiry and then by the number of the authorisation's record.
    pub fn due(&self, alloc: Global, now: u64) -> Result<Vec<Token>, AllocError>
        ensures { IfOk result (λ v. map (λ token. txn_due token) v.items ≡ map (λ item. item.thing) (txns_due self.now.holdings now)) }
    {
        self.books.holds.due(alloc, now)
    }
}

/// The entries of money that comes in: none if it is nothing.
fn load(
    alloc: Global,
    user: &Token,
    currency: Currency,
    amount: u64,
) -> Result<Vec<Entry>, AllocError>
    ensures { IfOk result (λ made. made.items ≡ load_money_entries user.now currency amount) }
{
    if amount == 0 {
        return Ok(Vec::new(alloc));
    }
    let post = Entry::Post {
        from: Account::Programme(currency),
        to: Account::User(*user, currency),
        amount,
        txn: None,
    };
    Ok(vec![in alloc; post]?)
}
