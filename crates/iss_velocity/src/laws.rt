//! What the counters are, and what a breach rests on: laws over the definitions.
ghost use Rattle.std.specs.Prelude.{◌≡◌, [], true, ℕ, ℤ, Bool, List, Option};
ghost use Rattle.iss_model.specs.declared.txn.UsageRow.{UsageRow};
ghost use Rattle.iss_model.specs.Tokens.{is_token};
ghost use Rattle.iss_model.specs.rules.Controls.{Group, ControlPut};
ghost use Rattle.iss_model.specs.rules.Facts.{Facts};
ghost use Rattle.iss_model.specs.rules.Asks as asks;
ghost use Rattle.iss_model.specs.rules.Asks.{ask_usage, breach, used_in};
ghost use Rattle.iss_model.specs.state.Cores.{ControlKept};
ghost use Rattle.iss_velocity.specs.Words.{breach_of, used_of};
ghost use Rattle.iss_velocity.specs.Puts.{control_after_limits, control_after_activity};
ghost use Rattle.iss_velocity.specs.Noted.{AreSumsOf, CountsNoEarlier, Noted, SortsByUser, StayUnder, SumsNote};

/// The breach that the rules name rests on the groups, the controls and the use of the ask alone. What was used rests on
/// the controls alone.
pub fn breach_looks_at_use()
    ensures breach { (f : Facts) (ask : asks.Ask) → breach f ask ≡ breach_of f.groups f.controls (ask_usage ask) ask.is_first }
    ensures used { (f : Facts) (name user : List ℕ) (at : ℕ) → used_in f name user at ≡ used_of f.controls name user at }
{}

/// Without a control there is no sum.
pub fn nothing_is_noted_at_first()
    ensures { AreSumsOf [] [] }
{}

/// If a row is noted, each control's sums stay sums over the rows that were noted: by user and span, and only those it
/// counts.
pub fn counters_are_sums_of_noted_use()
    ensures { (noted : List Noted) (controls : List ControlKept) (groups : List Group) (row : UsageRow) → SumsNote noted controls groups row }
{}

/// They stay so if a control is put, with a number that isn't below the origin of any row that was noted.
pub fn control_that_is_put_counts_no_earlier_use()
    ensures { (noted : List Noted) (controls : List ControlKept) (put : ControlPut) → CountsNoEarlier noted controls put }
{}

/// They stay so if limits or the activity change.
pub fn controls_that_stay_count_the_same()
    ensures limits { (name : List ℕ) (amount usage : Option ℕ) → StayUnder (control_after_limits name amount usage) }
    ensures activity { (name : List ℕ) (active : Bool) → StayUnder (control_after_activity name active) }
{}

/// Counters sort by the bytes of the user's token, then by the number of the window or of the authorisation's record, as whole numbers.
pub fn counters_sort_by_user_and_span()
    ensures { (a b : List ℕ) (m n : ℤ) → is_token a ≡ true → is_token b ≡ true
        → SortsByUser a b m n }
{}
