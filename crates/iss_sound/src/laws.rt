//! Sound states.
ghost use Rattle.std.specs.Prelude.{◌≤◌, ◌↔◌, List, length};
ghost use Rattle.iss_model.specs.declared.input.Record.{Record};
ghost use Rattle.iss_model.specs.declared.limits.TheConstants.{MOST_RECORDS};
ghost use Rattle.iss_model.specs.declared.state.State.{State};
ghost use Rattle.iss_model.specs.rules.Histories.{IsLegal};
ghost use Rattle.iss_model.specs.state.Cores.{no_core};
ghost use Rattle.iss_states.specs.Order.{IsNewOnState};
ghost use Rattle.iss_states.specs.Rebuilding.{state_after};
ghost use Rattle.iss_states.specs.Showing.{no_state};
ghost use Rattle.iss_rebuilt.specs.Sums.{AreRecords};
ghost use Rattle.iss_named.specs.Again.{IsShownAgain};
ghost use Rattle.iss_well_formed.specs.Events.{AreJudged};
ghost use Rattle.iss_sound.specs.Sound.{HaveSoundState, IsSoundButSettings, IsSoundState};

/// The empty state is sound. A record that is new on a sound state leaves a sound one: so it is of every such state, whether or not it is
/// that of a history. The state of legal records, told over their whole book, is sound if they are in form and no more than there may be.
/// A core that is made again from a sound state shows just that state. One rule stands apart from the others: that each setting and each load
/// is decided as those before it have it.
pub fn states_stay_sound()
    ensures begins { IsSoundState no_state }
    ensures steps { (s : State) → (r : Record) → IsSoundState s → IsNewOnState s r → IsSoundState (state_after s r) }
    ensures records { (rs : List Record) → IsLegal rs → AreRecords rs → length rs ≤ MOST_RECORDS → HaveSoundState rs }
    ensures again { (s : State) → IsSoundState s → IsShownAgain s }
    ensures apart { (s : State) → IsSoundState s ↔ (IsSoundButSettings s × AreJudged no_core s.events) }
{}
