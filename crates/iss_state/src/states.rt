//! Every state that records make is sound.
ghost use Rattle.std.specs.Prelude.{◌≡◌, ℕ, ◌+◌, ◌≤◌, List, length};
ghost use Rattle.iss_model.specs.declared.decision.Judged.TheVariants as judged;
ghost use Rattle.iss_model.specs.declared.input.Record.{Record};
ghost use Rattle.iss_model.specs.declared.input.Input.{Input};
ghost use Rattle.iss_model.specs.declared.limits.TheConstants.{MOST_RECORDS};
ghost use Rattle.iss_model.specs.rules.Activity.{CallNow};
ghost use Rattle.iss_model.specs.rules.Due.{DueThing};
ghost use Rattle.iss_model.specs.rules.Stepping.{step};
ghost use Rattle.iss_model.specs.rules.Judging.{judge};
ghost use Rattle.iss_model.specs.rules.Histories.{IsLegal};
ghost use Rattle.iss_model.specs.state.Cores.{CoreState, no_core, core_keeper, core_of};
ghost use Rattle.iss_agreement.specs.Stepped.{core_after};
ghost use Rattle.iss_state.specs.After.{after_all_due, after_input, after_thing};
ghost use Rattle.iss_state.specs.Asked.{AsksSmall};
ghost use Rattle.iss_state.specs.Sound.{AreInForm, IfNewInForm, IfReadyInForm, IsNewEvent, IsReadyWith, IsSoundAt, StaysReady};
ghost use Rattle.iss_state.specs.Entering.{SumsAreSmall};

/// Legal records in form leave a sound state for as many records.
#[tactic(auto, using(crate::proofs::invariants::Legal::records_sound))]
pub fn states_are_sound()
    ensures { (rs : List Record) → IsLegal rs → AreInForm rs → IsSoundAt (length rs) (core_of rs) }
{}

/// The empty state is sound for no record, and a step on a new record makes a sound state sound for one more.
/// In between, the state with the record taken up is ready for its entries, and these keep what is sound.
#[tactic(auto, using(crate::proofs::invariants::Steps::sound_begins))]
pub fn steps_keep_what_is_sound()
    ensures begins { IsSoundAt 0 no_core }
    ensures step { (n : ℕ) (s : CoreState) (r : Record) → IsSoundAt n s
        → IfNewInForm s r (IsSoundAt (n + 1) (core_after s r)) }
    ensures taken_up { (n : ℕ) (s : CoreState) (r : Record) → IsSoundAt n s → IsNewEvent s r.input → IsReadyWith n s r }
    ensures own { (n : ℕ) (s : CoreState) (i : Input) (at : ℕ) → IfReadyInForm n s i (IsSoundAt (n + 1) (after_input s i at)) }
{}

/// A due item that is settled keeps what is sound for as many records, and so do all that are due at a moment. A state that is ready stays ready.
pub fn due_items_keep_what_is_sound()
    ensures item { (n : ℕ) (s : CoreState) (thing : DueThing) (at : ℕ) → IsSoundAt n s
        → IsSoundAt n (after_thing s thing at) }
    ensures all { (n : ℕ) (s : CoreState) (at : ℕ) → IsSoundAt n s → IsSoundAt n (after_all_due s at) }
    ensures ready_after_item { (n : ℕ) (s : CoreState) (i : Input) (thing : DueThing) (at : ℕ) → StaysReady n i s (after_thing s thing at) }
    ensures ready_after_all { (n : ℕ) (s : CoreState) (i : Input) (at : ℕ) → StaysReady n i s (after_all_due s at) }
{}

/// In a state that is sound for as many records as there may be, each sum lies strictly between -2^62 and 2^62. A call
/// asks less than 2^62.
pub fn sums_are_small()
    ensures sound { (n : ℕ) (s : CoreState) → n ≤ MOST_RECORDS → IsSoundAt n s → SumsAreSmall s }
    ensures records { (rs : List Record) → length rs ≤ MOST_RECORDS → IsLegal rs → AreInForm rs → SumsAreSmall (core_of rs) }
    ensures asked { (n : ℕ) (s : CoreState) (number : ℕ) (c : CallNow) → n ≤ MOST_RECORDS → IsSoundAt n s
        → AsksSmall s number c }
{}

/// A record that is judged new brings no event that was accepted before. This is all that legality is needed for.
#[tactic(auto, using(crate::proofs::invariants::NewEvents::judged_new))]
pub fn new_records_bring_new_events()
    ensures { (s : CoreState) (r : Record) → judge core_keeper s r.input r.at ≡ judged.New r → IsNewEvent s r.input }
{}
