//! What transactions hold in every state.
ghost use Rattle.std.specs.Prelude.{ℕ, ◌≤◌, List};
ghost use Rattle.iss_model.specs.declared.input.Input.{Input};
ghost use Rattle.iss_model.specs.declared.input.Record.{Record};
ghost use Rattle.iss_model.specs.rules.Due.{DueThing};
ghost use Rattle.iss_model.specs.rules.Histories.{IsLegal};
ghost use Rattle.iss_model.specs.state.Cores.{CoreState, no_core, core_of};
ghost use Rattle.iss_agreement.specs.Stepped.{core_after};
ghost use Rattle.iss_state.specs.After.{due_entries, input_entries};
ghost use Rattle.iss_state.specs.Pending.{HasTakenUp, IfNewAndWell};
ghost use Rattle.iss_state.specs.Holdings.{EndsOnce, KeepHeldWell, IsHeldWell};

/// Legal records leave what transactions hold well: no part is below 0. A transaction that has ended holds nothing, and neither does one
/// whose authorisation's call is asked. A step keeps it so if the event is new.
pub fn holdings_are_well()
    ensures begins { IsHeldWell no_core }
    ensures records { (rs : List Record) → IsLegal rs → IsHeldWell (core_of rs) }
    ensures steps { (s : CoreState) (r : Record) → IfNewAndWell s r (IsHeldWell s → IsHeldWell (core_after s r)) }
{}

/// What an entry needs so that all stays held well is there, entry by entry. What is let go is held. What is held more is
/// of a live transaction whose authorisation's call isn't asked, and a transaction that ends holds nothing.
pub fn entries_keep_holdings()
    ensures due { (s : CoreState) (i : Input) (thing : DueThing) (at : ℕ) → HasTakenUp s i → KeepHeldWell s (due_entries s thing at) }
    ensures own { (s : CoreState) (i : Input) (at : ℕ) → at ≤ s.now → HasTakenUp s i → KeepHeldWell s (input_entries s i at) }
{}

/// A step ends a live transaction at most once, and never one that has ended.
pub fn transactions_end_once()
    ensures { (s : CoreState) (r : Record) (token : List ℕ) → IfNewAndWell s r (IsHeldWell s → EndsOnce s r token) }
{}
