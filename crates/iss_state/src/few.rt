//! How many calls and notices records can make.
ghost use Rattle.std.specs.Prelude.{ℕ, List, length};
ghost use Rattle.iss_model.specs.declared.entry.Entry.{Entry};
ghost use Rattle.iss_model.specs.declared.input.Input.{Input};
ghost use Rattle.iss_model.specs.declared.input.Record.{Record};
ghost use Rattle.iss_model.specs.rules.Due.{DueThing};
ghost use Rattle.iss_model.specs.rules.Histories.{IsLegal};
ghost use Rattle.iss_model.specs.rules.Stepping.{step};
ghost use Rattle.iss_model.specs.state.Cores.{CoreState, no_core, with_record, core_of};
ghost use Rattle.iss_state.specs.Sound.{IsNewEvent};
ghost use Rattle.iss_state.specs.Pending.{IsWell, HasTakenUp};
ghost use Rattle.iss_agreement.specs.Stepped.{core_after};
ghost use Rattle.iss_state.specs.After.{after_entries, after_input, after_thing};
ghost use Rattle.iss_state.specs.Few.{HasFewNumbers, HasNoFewer, IsFewForOneMore, StaysFew};

/// Records each open at most one call, and bring at most four notices in sight. What is due opens no call, and makes no
/// notice that wasn't in sight. Entries lose no call, and no notice that was made.
pub fn few_numbers_are_given()
    ensures begins { HasFewNumbers 0 no_core }
    ensures records { (rs : List Record) → IsLegal rs → HasFewNumbers (length rs) (core_of rs) }
    ensures taken_up { (n : ℕ) (s : CoreState) (r : Record) → HasFewNumbers n s → HasFewNumbers n (with_record s r) }
    ensures due { (n : ℕ) (s : CoreState) (i : Input) (thing : DueThing) (at : ℕ) → HasTakenUp s i → StaysFew n s (after_thing s thing at) }
    ensures own { (n : ℕ) (s : CoreState) (i : Input) (at : ℕ) → HasTakenUp s i → IsFewForOneMore n s (after_input s i at) }
    ensures step { (n : ℕ) (s : CoreState) (r : Record) → IsWell s → IsNewEvent s r.input → IsFewForOneMore n s (core_after s r) }
    ensures lasting { (s : CoreState) (es : List Entry) → HasNoFewer s (after_entries s es) }
{}
