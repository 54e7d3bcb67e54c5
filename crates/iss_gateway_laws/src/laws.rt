//! What the gateway's account has, what the gateway alone gives, and how notices are numbered.
ghost use Rattle.std.specs.Prelude.{List};
ghost use Rattle.iss_model.specs.declared.input.Record.{Record};
ghost use Rattle.iss_model.specs.rules.Activity.{notices_of};
ghost use Rattle.iss_model.specs.rules.Histories.{history_of, IsLegal};
ghost use Rattle.iss_state.specs.Numbers.{NoticesNumberedFrom};
ghost use Rattle.iss_state.specs.Sound.{AreInForm};
ghost use Rattle.iss_gateway_laws.specs.Accounts.{IsEvenAccount};
ghost use Rattle.iss_gateway_laws.specs.Told.{EachIsTold};

/// On the book of every legal list of records whose fields meet their forms, the gateway's account has in each currency
/// what all notices gave back, less what all calls cost. A call cost its amount if it was funded, the part if a part was,
/// and else nothing.
#[tactic(auto, using(crate::proofs::Accounts::account_balance))]
pub fn account_is_even()
    ensures { (rs : List Record) → IsLegal rs → AreInForm rs → IsEvenAccount (history_of rs) }
{}

/// Whatever records make the book, each closing of a call as funded, partly funded or refused is of a record that answers
/// so. Each acknowledgement is of a record that acknowledges that notice.
#[tactic(auto, using(crate::proofs::Causes::all_told))]
pub fn words_of_the_gateway_are_told()
    ensures { (rs : List Record) → EachIsTold rs }
{}

/// Whatever records make the book, its notices have the numbers from 1 on, in their order.
#[tactic(auto, using(crate::proofs::Numbers::all_numbered))]
pub fn notices_are_in_order()
    ensures { (rs : List Record) → NoticesNumberedFrom 1 (notices_of (history_of rs).rows) }
{}
