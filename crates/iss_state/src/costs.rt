//! What inputs, due items and acts cost beyond what was at stake.
ghost use Rattle.std.specs.Prelude.{◌≡◌, ℕ, true};
ghost use Rattle.iss_model.specs.declared.input.Input.{Input};
ghost use Rattle.iss_model.specs.rules.Due.{DueThing};
ghost use Rattle.iss_model.specs.state.Cores.{CoreState};
ghost use Rattle.iss_acts.specs.Causes.{Cause};
ghost use Rattle.iss_state.specs.Stakes.{IsOrderlyState};
ghost use Rattle.iss_state.specs.Costs.{ActsArePaid, InputIsPaid, begins_none};
ghost use Rattle.iss_state.specs.Effects.{Paid};
ghost use Rattle.iss_state.specs.After.{due_entries};

/// What is due costs nothing beyond what was at stake, and an input that begins no transaction what it brings. An act
/// costs no more than what its stage leaves to the next one. An ask has four times its amount in money, and twice in use.
pub fn inputs_are_paid()
    ensures due { (s : CoreState) (thing : DueThing) (at : ℕ) → IsOrderlyState s → Paid 0 0 s (due_entries s thing at) }
    ensures own { (s : CoreState) (i : Input) (at : ℕ) → IsOrderlyState s → begins_none i ≡ true
        → InputIsPaid s i at }
    ensures act { (by : Cause) (at : ℕ) (s : CoreState) → IsOrderlyState s → ActsArePaid by at s }
{}
