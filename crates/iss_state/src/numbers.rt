//! Numbers come one by one, and names are names of one thing.
ghost use Rattle.std.specs.Prelude.{◌≡◌, ℕ, true, List};
ghost use Rattle.iss_model.specs.declared.input.Input.{Input};
ghost use Rattle.iss_model.specs.declared.input.Record.{Record};
ghost use Rattle.iss_model.specs.rules.Facts.{Facts, next_notice};
ghost use Rattle.iss_model.specs.rules.Due.{DueThing, thing_entries};
ghost use Rattle.iss_model.specs.rules.Stepping.{entries_of, step};
ghost use Rattle.iss_model.specs.rules.Histories.{IsLegal};
ghost use Rattle.iss_model.specs.state.Cores.{CoreState, core_of};
ghost use Rattle.iss_state.specs.Stakes.{txn_tokens, are_distinct};
ghost use Rattle.iss_state.specs.Sound.{IsSoundAt, IfNewInForm, AreInForm};
ghost use Rattle.iss_state.specs.Numbers.{AreCallsNumbered, CallsStayNumbered, AreNumberedFrom};
ghost use Rattle.iss_state.specs.Begun.{HoldsOnceBegun, are_of_accepted, are_of_records};

/// Whatever the facts, the notices of a due item, and of a record's own entries, are numbered one by one from the next
/// number on.
pub fn notices_are_numbered()
    ensures due { (f : Facts) (thing : DueThing) (at : ℕ) → AreNumberedFrom (next_notice f) (thing_entries thing at f) }
    ensures own { (f : Facts) (i : Input) (at : ℕ) → AreNumberedFrom (next_notice f) (entries_of i at f) }
{}

/// The calls of legal records have the numbers from 1 on, in the order in which they were opened, and a step keeps them so.
pub fn calls_are_numbered()
    ensures records { (rs : List Record) → IsLegal rs → AreInForm rs → AreCallsNumbered (core_of rs) }
    ensures step { (n : ℕ) (s : CoreState) (r : Record) → IsSoundAt n s → IfNewInForm s r (CallsStayNumbered s r) }
{}

/// The transactions of legal records have tokens of their own, each that of an accepted event. Each began with one of the
/// records, and no other token holds anything.
pub fn transactions_have_names()
    ensures distinct { (rs : List Record) → IsLegal rs → AreInForm rs → are_distinct (txn_tokens (core_of rs).holdings.txns) ≡ true }
    ensures accepted { (rs : List Record) → IsLegal rs → AreInForm rs
        → are_of_accepted (core_of rs) ≡ true }
    ensures origins { (rs : List Record) → IsLegal rs → AreInForm rs → are_of_records (core_of rs) ≡ true }
    ensures unbegun { (rs : List Record) (token : List ℕ) → IsLegal rs → AreInForm rs → HoldsOnceBegun (core_of rs) token }
{}
