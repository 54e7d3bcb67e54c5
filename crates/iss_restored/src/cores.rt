//! Cores that are made again from sound states.
ghost use Rattle.iss_model.specs.declared.state.State.{State};
ghost use Rattle.iss_state.specs.Few.{HasFewNumbers};
ghost use Rattle.iss_state.specs.InForm.{IsInForm};
ghost use Rattle.iss_state.specs.Pending.{IsWell};
ghost use Rattle.iss_state.specs.Sound.{IsSoundAt};
ghost use Rattle.iss_states.specs.Counted.{CountsTxns};
ghost use Rattle.iss_states.specs.Rebuilding.{rebuilt};
ghost use Rattle.iss_sound.specs.Sound.{IsSoundButSettings, IsSoundState};
ghost use Rattle.iss_restored.specs.Made.{HoldsOfCore};

/// A core that is made again from a state has sums within the reach of its records, if all rules of a sound state hold, but that of settings.
/// It is well, and no more calls and notices were made than its records can make. What it has counted of single transactions is of those that
/// stand, and what it keeps is in form. So it meets all that holds of every core. The more does one that is made again from a sound state.
pub fn sound_states_make_cores()
    ensures within { (s : State) → IsSoundButSettings s → IsSoundAt s.records (rebuilt s) }
    ensures wells { (s : State) → IsSoundButSettings s → IsWell (rebuilt s) }
    ensures few { (s : State) → IsSoundButSettings s → HasFewNumbers s.records (rebuilt s) }
    ensures counted { (s : State) → IsSoundButSettings s → CountsTxns (rebuilt s) }
    ensures forms { (s : State) → IsSoundButSettings s → IsInForm (rebuilt s) }
    ensures cores { (s : State) → IsSoundButSettings s → HoldsOfCore (rebuilt s) }
    ensures sound { (s : State) → IsSoundState s → HoldsOfCore (rebuilt s) }
{}
