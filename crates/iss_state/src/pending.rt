//! What holds of every core, and what its entries need.
ghost use Rattle.std.specs.Prelude.{◌≡◌, ℕ, true, List};
ghost use Rattle.iss_model.specs.declared.input.Input.{Input};
ghost use Rattle.iss_model.specs.declared.input.Record.{Record};
ghost use Rattle.iss_model.specs.rules.Activity.{CallNow};
ghost use Rattle.iss_model.specs.rules.Due.{DueThing};
ghost use Rattle.iss_model.specs.rules.Histories.{IsLegal};
ghost use Rattle.iss_model.specs.state.Cores.{CoreState, no_core, with_record, core_of};
ghost use Rattle.iss_state.specs.Well.{IsRuledOnce, has_live};
ghost use Rattle.iss_state.specs.Sound.{is_accepted, IsNewEvent};
ghost use Rattle.iss_state.specs.Pending.{IsWell, AreAllowed, DecideKnown, HasTakenUp, StaysTakenUp};
ghost use Rattle.iss_state.specs.Dockets.{docket_of};
ghost use Rattle.iss_state.specs.After.{after_thing, due_entries, input_entries};
ghost use Rattle.iss_state.specs.Asked.{IfAsked};
ghost use Rattle.iss_agreement.specs.Stepped.{core_after};

/// Legal records leave a core well: its calls, its transactions and its decisions. A step keeps it so if the event is new, and then the
/// transaction of an asked call stands and is live.
#[tactic(auto, using(crate::proofs::calls::Legal::nothing_well, crate::proofs::calls::Legal::core_well))]
pub fn calls_are_well()
    ensures begins { IsWell no_core }
    ensures records { (rs : List Record) → IsLegal rs → IsWell (core_of rs) }
    ensures steps { (s : CoreState) (r : Record) → IsNewEvent s r.input → IsWell s → IsWell (core_after s r) }
    ensures live { (s : CoreState) (n : ℕ) (c : CallNow) → IfAsked s n c (has_live s.holdings.txns c.opened.txn ≡ true) }
{}

/// What entries need of the state that they are entered into is there, entry by entry. That is so for each due thing, and
/// then for a record's own. So it is once a record of a new event was taken up, and still while what is due is settled.
pub fn entries_are_allowed()
    ensures taken { (s : CoreState) (r : Record) → IsWell s → IsNewEvent s r.input → HasTakenUp (with_record s r) r.input }
    ensures settled { (s : CoreState) (i : Input) (thing : DueThing) (at : ℕ) → StaysTakenUp i s (after_thing s thing at) }
    ensures due { (s : CoreState) (i : Input) (thing : DueThing) (at : ℕ) → HasTakenUp s i
        → AreAllowed s (due_entries s thing at) }
    ensures own { (s : CoreState) (i : Input) (at : ℕ) → HasTakenUp s i → AreAllowed s (input_entries s i at) }
{}

/// What an entry decides was accepted: each entry of a due thing, and each of a record's own.
pub fn accepted_events_are_decided()
    ensures due { (s : CoreState) (i : Input) (thing : DueThing) (at : ℕ) → HasTakenUp s i
        → DecideKnown s (due_entries s thing at) }
    ensures own { (s : CoreState) (i : Input) (at : ℕ) → HasTakenUp s i
        → DecideKnown s (input_entries s i at) }
{}

/// Each accepted event is decided once, or isn't decided and waits for the one call that is asked for it.
pub fn events_are_decided_once()
    ensures { (s : CoreState) (event : List ℕ) → IsWell s → is_accepted s.accepted event ≡ true
        → IsRuledOnce (docket_of s) event }
{}
