//! Each record decides what the rules have it decide.
ghost use Rattle.std.specs.Prelude.{◌≡◌, ℕ, true, List};
ghost use Rattle.iss_model.specs.declared.currency.Currency.{Currency};
ghost use Rattle.iss_model.specs.declared.input.Record.{Record};
ghost use Rattle.iss_model.specs.rules.Histories.{history_of, IsLegal};
ghost use Rattle.iss_laws.specs.Approvals.{approved_rightly, partly_approved_rightly};
ghost use Rattle.iss_laws.specs.Decisions.{DecidesByTheRules};

/// On the book of every legal list of records each record decides what the rules have it decide, in the same order, and
/// nothing else. First comes the event of each call that it closes, by how it closes it. Then comes its own, which is
/// declined with the first reason that holds at its turn. So an authorisation or increment is approved in full exactly if
/// no reason held and it is paid: by the user's own balance, by its funded call, or by a set that stood in. It is approved
/// for a part exactly if no reason held and its call was partly funded with that part. Each decline has the one reason of
/// the rules. The gateway is asked about an event exactly if they have it asked.
#[tactic(auto, using(crate::proofs::RuledRecords::law_rules, crate::proofs::ApprovedRecords::law_approved, crate::proofs::ApprovedRecords::law_partly_approved))]
pub fn records_decide_by_the_rules()
    ensures rulings { (rs : List Record) → IsLegal rs → DecidesByTheRules (history_of rs) }
    ensures approvals { (rs : List Record) → IsLegal rs → approved_rightly (history_of rs) ≡ true }
    ensures parts { (rs : List Record) (c : Currency) (n : ℕ) → IsLegal rs → partly_approved_rightly c n (history_of rs) ≡ true }
{}
