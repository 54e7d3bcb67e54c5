//! Money is moved, and never made or lost, and each user's balance comes from what happened to it.
ghost use Rattle.std.specs.Prelude.{◌≡◌, true, List};
ghost use Rattle.iss_model.specs.declared.input.Record.{Record};
ghost use Rattle.iss_model.specs.rules.Histories.{history_of, IsLegal};
ghost use Rattle.iss_laws.specs.Balances.{BalancesAddUp, PostsStay};
ghost use Rattle.iss_laws.specs.UserBalances.{EachBalanceIsOwn, balances_are_own};

/// Whatever records make the book, each post stays in one currency, and in each currency the balances of all accounts add up to nothing.
#[tactic(auto, using(crate::proofs::Posts::posts_stay, crate::proofs::BalanceSums::add_up))]
pub fn balances_add_up()
    ensures posts { (rs : List Record) → PostsStay (history_of rs) }
    ensures sums { (rs : List Record) → BalancesAddUp (history_of rs) }
{}

/// On the book of every legal list of records each user's balance in each currency is a sum. It is what was loaded, less
/// what account transactions cleared, plus what they refunded, plus what gateway transactions hold. So the test of it
/// passes for each account, transaction and hold.
#[tactic(auto, using(crate::proofs::OwnBalances::law_owned, crate::proofs::OwnBalances::law_balances))]
pub fn balances_are_owned()
    ensures each { (rs : List Record) → IsLegal rs → EachBalanceIsOwn (history_of rs) }
    ensures named { (rs : List Record) → IsLegal rs → balances_are_own (history_of rs) ≡ true }
{}
