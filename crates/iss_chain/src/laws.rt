//! Where a chain stands in the core, and its entries among those of the rules, as laws of the definitions. Each law is
//! the contract of a function with an empty body.
ghost use Rattle.std.specs.Prelude.{◌≡◌, ℕ, Bool, List, []};
ghost use Rattle.iss_model.specs.declared.account.Part.TheVariants as part;
ghost use Rattle.iss_model.specs.declared.call.Opened.{Opened};
ghost use Rattle.iss_model.specs.declared.setting.Set.{Set};
ghost use Rattle.iss_model.specs.declared.decision.Reason.{Reason};
ghost use Rattle.iss_model.specs.declared.txn.Txn.{Txn};
ghost use Rattle.iss_model.specs.declared.entry.Entry.{Entry};
ghost use Rattle.iss_model.specs.rules.Activity.{TxnNow};
ghost use Rattle.iss_model.specs.rules.Facts.{Facts};
ghost use Rattle.iss_model.specs.rules.Acts.{Funds, act_entries};
ghost use Rattle.iss_model.specs.rules.Asks.{Ask};
ghost use Rattle.iss_model.specs.rules.Pieces.{Parts, parts_held, owed_to_programme};
ghost use Rattle.iss_model.specs.state.Cores.{CoreState, core_facts};
ghost use Rattle.iss_chain.specs.Calls.{fund_money_entries};
ghost use Rattle.iss_chain.specs.Among.{AreMadeOf};
ghost use Rattle.iss_chain.specs.OfTheRules.{FollowsTheCore, IsCleared, IsEnded, IsPartlyFunded, IsRefunded, IsReversed, IsStoodIn};
ghost use Rattle.iss_chain.specs.Values.{chain_part, chain_facts};

/// What entries do to a core's state, they do to the part of it that a chain keeps. What a transaction holds, and what
/// the programme is owed for it, is the same by that part as by the whole.
pub fn a_chain_is_part_of_the_core()
    ensures entered { (s : CoreState) (entries : List Entry)
        → FollowsTheCore s entries }
    ensures parts { (s : CoreState) (t : Txn) → parts_held (chain_facts (chain_part s)) t ≡ parts_held (core_facts s) t }
    ensures owed { (s : CoreState) (t : Txn) → owed_to_programme (chain_facts (chain_part s)) t ≡ owed_to_programme (core_facts s) t }
{}

/// The entries of the rules are those that a chain makes, with others between and after them. The others are calls to the
/// gateway, notices, use that is returned, and decisions.
pub fn the_rules_make_its_entries()
    ensures funded { (o : Opened) (t : Txn) → AreMadeOf [] (fund_money_entries t part.G o.amount) (act_entries (Funds o t)) }
    ensures partly { (o : Opened) (t : Txn) (amount : ℕ) → IsPartlyFunded o t amount }
    ensures stood { (number : ℕ) (ask : Ask) (at : ℕ) (s : Set) → IsStoodIn number ask at s }
    ensures reversed { (f : Facts) (token : List ℕ) (amount : ℕ) (now : TxnNow) → IsReversed f token amount now }
    ensures cleared { (f : Facts) (token : List ℕ) (amount : ℕ) (last : Bool) (at : ℕ) (now : TxnNow) →
        IsCleared f token amount last at now }
    ensures refunded { (f : Facts) (token : List ℕ) (amount : ℕ) (now : TxnNow) → IsRefunded f token amount now }
    ensures ended { (number : ℕ) (f : Facts) (t : Txn) (parts : Parts) (why : Reason) → IsEnded number f t parts why }
{}
