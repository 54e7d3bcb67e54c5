//! What is of its form stays so.
ghost use Rattle.std.specs.Prelude.{◌≡◌, ℕ, true, List};
ghost use Rattle.iss_model.specs.declared.currency.Currency.{Currency};
ghost use Rattle.iss_model.specs.declared.entry.Entry.{Entry};
ghost use Rattle.iss_model.specs.declared.input.Input.{Input};
ghost use Rattle.iss_model.specs.declared.input.Record.{Record};
ghost use Rattle.iss_model.specs.Forms.{is_stamp};
ghost use Rattle.iss_model.specs.rules.Activity.{CallNow};
ghost use Rattle.iss_model.specs.rules.Due.{DueThing};
ghost use Rattle.iss_model.specs.state.Cores.{CoreState, no_core, with_record, after_entry};
ghost use Rattle.iss_state.specs.InForm.{ApprovesSmall, AreEntriesInForm, IfInFormAt, IfInFormWith, IsInForm, is_entry_in_form};
ghost use Rattle.iss_state.specs.Asked.{IsApprovedSmall, IsFundedSmall};
ghost use Rattle.iss_state.specs.After.{after_entries, due_entries, input_entries};

/// The empty state is in form. It stays so when a record at a stamp is taken up, and when entries in form are entered.
pub fn states_stay_in_form()
    ensures begins { IsInForm no_core }
    ensures taken_up { (s : CoreState) (r : Record) → is_stamp r.at ≡ true → IsInForm s → IsInForm (with_record s r) }
    ensures one { (s : CoreState) (e : Entry) → is_entry_in_form e ≡ true → IsInForm s → IsInForm (after_entry s e) }
    ensures entered { (s : CoreState) (es : List Entry) → AreEntriesInForm es → IsInForm s → IsInForm (after_entries s es) }
{}

/// In a state in form, the part that a call was funded with is less than 2^62. The part that an event is approved for is
/// too. So is a part that an entry in form approves an event for.
pub fn parts_are_small()
    ensures funded { (s : CoreState) (n : ℕ) (c : CallNow) (amount : ℕ) → IsInForm s → IsFundedSmall s n c amount }
    ensures approved { (s : CoreState) (event : List ℕ) (amount : ℕ) → IsInForm s → IsApprovedSmall s event amount }
    ensures entered { (event : List ℕ) (currency : Currency) (amount : ℕ)
        → ApprovesSmall event currency amount }
{}

/// On a state in form, each entry of a due item that is settled at a stamp is in form. Each entry that an input in form
/// makes at a stamp is too.
pub fn entries_are_in_form()
    ensures due { (s : CoreState) (thing : DueThing) (at : ℕ) → IfInFormAt s at (AreEntriesInForm (due_entries s thing at)) }
    ensures own { (s : CoreState) (i : Input) (at : ℕ) → IfInFormWith s i at (AreEntriesInForm (input_entries s i at)) }
{}
