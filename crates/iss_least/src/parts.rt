//! Parts that events are approved for.
ghost use Rattle.iss_model.specs.declared.input.Record.{Record};
ghost use Rattle.iss_model.specs.declared.state.State.{State};
ghost use Rattle.iss_state.specs.InForm.{IsInForm};
ghost use Rattle.iss_states.specs.Order.{AreInOrder};
ghost use Rattle.iss_states.specs.Rebuilding.{rebuilt};
ghost use Rattle.iss_states.specs.Showing.{no_state};
ghost use Rattle.iss_least.specs.Least.{AgreeOnParts, ArePartsOfLeast, StaysOfLeast};

/// Each part that an event of a state is approved for is at least the least amount. It is so of the empty state. It stays so with
/// each new record, if events are in order and their parts agree. Then what a core keeps that is made again is in form.
pub fn parts_stay_of_least()
    ensures begins { ArePartsOfLeast no_state }
    ensures steps { (s : State) (r : Record) → StaysOfLeast s r }
    ensures forms { (s : State) → AreInOrder s → AgreeOnParts s → ArePartsOfLeast s → IsInForm (rebuilt s) }
{}
