//! What holds of every device.

ghost use Rattle.iss_halves.specs.Keeping.{TurnsKeep, TurnsGoOn, TurnEndsHere, AppendsKeep, AppendsGoOn, TurnedAppendsKeep, FreeIsRoom, TurnHasRoom};
ghost use Rattle.iss_halves.specs.Opening.{FoundMayBegin, HeldIsFound, HeldHasLayout, NotTooLong, HeldOnce, OpeningsKeep, OpeningsGoOn, OneForm};

/// A turn keeps the records for which a device stands, and an append adds one, also after a turn.
pub fn turns_and_appends_keep()
    ensures keep { TurnsKeep }
    ensures go_on { TurnsGoOn }
    ensures ends { TurnEndsHere }
    ensures append { AppendsKeep }
    ensures append_on { AppendsGoOn }
    ensures both { TurnedAppendsKeep }
    ensures free { FreeIsRoom }
    ensures room { TurnHasRoom }
{}

/// What an opening finds on a device is what the device holds, and closing its end gate keeps that.
pub fn what_is_found_is_held()
    ensures begins { FoundMayBegin }
    ensures held { HeldIsFound }
    ensures layout { HeldHasLayout }
    ensures length { NotTooLong }
    ensures once { HeldOnce }
    ensures form { OneForm }
    ensures keep { OpeningsKeep }
    ensures go_on { OpeningsGoOn }
{}
