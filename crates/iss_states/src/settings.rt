//! What was set is made again from the events that are done.
ghost use Rattle.std.specs.Prelude.{◌≡◌, List};
ghost use Rattle.iss_model.specs.declared.input.Record.{Record};
ghost use Rattle.iss_model.specs.rules.Histories.{IsLegal};
ghost use Rattle.iss_model.specs.state.Cores.{core_of, no_core};
ghost use Rattle.iss_states.specs.Rebuilding.{rebuilt};
ghost use Rattle.iss_states.specs.Showing.{shown};
ghost use Rattle.iss_states.specs.Settled.{WereJudged, set_again, set_part};

/// What legal records have set is what the settings that are done among their events set, in their order: users, cards, products with their
/// switches, groups, controls with the numbers of their first records, and sets. Each setting and load was decided by what the settings
/// before it had set. So a core that is made again from what is shown has just these settings.
#[tactic(auto, using(crate::proofs::SetSteps::legal_set, crate::proofs::Judged::legal_judged, crate::proofs::Rebuilt::settings_rebuilt))]
pub fn settings_are_made_again()
    ensures set { (rs : List Record) → IsLegal rs → set_part (core_of rs) ≡ set_again (core_of rs).decisions (core_of rs).accepted }
    ensures rebuilt { (rs : List Record) → IsLegal rs → set_part (rebuilt (shown (core_of rs))) ≡ set_part (core_of rs) }
    ensures judged { (rs : List Record) → IsLegal rs → WereJudged (core_of rs).decisions no_core (core_of rs).accepted }
{}
