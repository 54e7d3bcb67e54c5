//! Each call to the gateway is asked once and paid at most once.
ghost use Rattle.std.specs.Prelude.{◌≡◌, true, List};
ghost use Rattle.iss_model.specs.declared.input.Record.{Record};
ghost use Rattle.iss_model.specs.rules.Histories.{history_of, IsLegal};
ghost use Rattle.iss_state.specs.Sound.{AreInForm};
ghost use Rattle.iss_laws.specs.Calls.{each_call_once, each_stands_once};

/// On the book of every legal list of records each call to the gateway is opened once and closed at most once. It has one
/// notice of the method void exactly if it failed or was abandoned, and no other notice names it. No other call is closed
/// or named. Assume that the fields of the records meet their forms, so that no call or part is of 0. Then each closing
/// as funded or partly funded has a post of its own, the first after it and in its record. It pays the call's amount, or
/// the part, from the gateway to its user. No other post comes from the gateway. A part is less than its call's amount,
/// and its call permits one.
#[tactic(auto, using(crate::proofs::CallsOnce::law_once, crate::proofs::CallsPaid::law_calls))]
pub fn calls_are_paid_once()
    ensures once { (rs : List Record) → IsLegal rs → each_stands_once (history_of rs) ≡ true }
    ensures paid { (rs : List Record) → IsLegal rs → AreInForm rs → each_call_once (history_of rs) ≡ true }
{}
