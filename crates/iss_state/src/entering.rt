//! What entering an entry needs holds of each entry of each list.
ghost use Rattle.std.specs.Prelude.{ℕ, ◌<◌};
ghost use Rattle.iss_model.specs.declared.input.Input.{Input};
ghost use Rattle.iss_model.specs.declared.limits.TheConstants.{MOST_RECORDS};
ghost use Rattle.iss_model.specs.rules.Due.{DueThing};
ghost use Rattle.iss_model.specs.state.Cores.{CoreState};
ghost use Rattle.iss_state.specs.Sound.{IfReadyInForm, IfSoundWithin};
ghost use Rattle.iss_state.specs.Entering.{AreEnterable};
ghost use Rattle.iss_state.specs.After.{due_entries, input_entries};

/// Each entry of a due item, and each of a record's own, fits the state that it is entered into. What it names stands,
/// and what it lets go is there. A new number is the next one, and it leaves small sums.
pub fn entries_can_be_entered()
    ensures due { (n : ℕ) (s : CoreState) (thing : DueThing) (at : ℕ) → IfSoundWithin n s (AreEnterable s (due_entries s thing at)) }
    ensures own { (n : ℕ) (s : CoreState) (i : Input) (at : ℕ) → n < MOST_RECORDS
        → IfReadyInForm n s i (AreEnterable s (input_entries s i at)) }
{}
