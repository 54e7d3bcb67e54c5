//! A core is made again from what it shows, so the state after a record is that of the longer history.
ghost use Rattle.std.specs.Prelude.{List};
ghost use Rattle.iss_model.specs.declared.input.Record.{Record};
ghost use Rattle.iss_model.specs.rules.Histories.{IsLegal};
ghost use Rattle.iss_model.specs.state.Cores.{core_of};
ghost use Rattle.iss_agreement.specs.Likeness.{AreAlike};
ghost use Rattle.iss_states.specs.Rebuilding.{rebuilt};
ghost use Rattle.iss_states.specs.Showing.{shown};
ghost use Rattle.iss_rebuilt.specs.Steps.{StateFollows};
ghost use Rattle.iss_rebuilt.specs.Sums.{AreRecords};

/// For legal records in form, a core that is made again from what their core shows is like that core: no rule tells the two apart. So the
/// state after a further record, whether or not it is legal, is that of the history with this record, told over its whole book.
#[tactic(auto, using(crate::proofs::AlikeAgain::alike_again, crate::proofs::AlikeAgain::state_again))]
pub fn cores_are_made_again()
    ensures alike { (rs : List Record) → IsLegal rs → AreRecords rs → AreAlike (rebuilt (shown (core_of rs))) (core_of rs) }
    ensures states { (rs : List Record) → (r : Record) → IsLegal rs → AreRecords rs → StateFollows rs r }
{}
