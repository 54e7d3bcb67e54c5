//! Each accepted event is decided once.
ghost use Rattle.std.specs.Prelude.{◌≡◌, true, List};
ghost use Rattle.iss_model.specs.declared.input.Record.{Record};
ghost use Rattle.iss_model.specs.rules.Histories.{history_of, IsLegal};
ghost use Rattle.iss_laws.specs.Events.{each_event_decided};

/// On the book of every legal list of records each accepted event is decided once, or undecided with one call asked for
/// it.
#[tactic(auto, using(crate::proofs::EventsDecided::law_decided))]
pub fn events_are_decided()
    ensures { (rs : List Record) → IsLegal rs → each_event_decided (history_of rs) ≡ true }
{}
