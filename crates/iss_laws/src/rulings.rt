//! What a record rules.
ghost use Rattle.std.specs.Prelude.{List};
ghost use Rattle.iss_model.specs.declared.input.Record.{Record};
ghost use Rattle.iss_model.specs.rules.Histories.{Follows, IsLegal, history_of};
ghost use Rattle.iss_laws.specs.Rulings.{RulesAsDue};

/// A record that follows on legal ones decides the event of each call that it closes, and then its own, as the rules have
/// it. It decides nothing else, and asks the gateway about nothing else.
#[tactic(auto, using(crate::proofs::StepRulings::legal_rules))]
pub fn records_rule_as_due()
    ensures { (rs : List Record) (r : Record) → IsLegal rs → Follows (history_of rs) r
        → RulesAsDue rs r }
{}
