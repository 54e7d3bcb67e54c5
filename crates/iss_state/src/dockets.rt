//! Laws of dockets, each the contract of a function with an empty body.
ghost use Rattle.std.specs.Prelude.{◌≡◌, ℕ, true, List};
ghost use Rattle.iss_model.specs.declared.entry.Entry.{Entry};
ghost use Rattle.iss_state.specs.Dockets.{Docket};
ghost use Rattle.iss_state.specs.Well.{IsAccounted, IsRuledOnce, Known, IsWellAmong};
ghost use Rattle.iss_state.specs.Allowed.{IsAllowed, KeepsWell, is_of_known};

/// An entry that may come next, of what is known, leaves a docket well.
pub fn allowed_entries_keep_dockets_well()
    ensures { (known : Known) (d : Docket) (e : Entry) → IsAllowed d e → is_of_known known e ≡ true → KeepsWell known d e }
{}

/// An event that is decided, or that a call is asked for, is accounted for once. It is decided once with no call asked
/// for it, or it isn't decided and one call is asked.
pub fn events_of_a_docket_are_decided_once()
    ensures { (known : Known) (d : Docket) (event : List ℕ) → IsWellAmong known d → IsAccounted d event
        → IsRuledOnce d event }
{}
