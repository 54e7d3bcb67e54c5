//! Whether the balances of a state are sound.
ghost use Rattle.std.specs.Prelude.{◌≡◌, ◌↔◌, true, IfOk, IsTrue};
ghost use Rattle.std.specs.List.{list_all};
ghost use Rattle.iss_states.specs.Order.{AreInOrder};
ghost use Rattle.iss_states.specs.Rebuilding.{rebuilt};
ghost use Rattle.iss_well_formed.specs.Txns.{AreFair, AreSumsDone};
ghost use Rattle.iss_decided.specs.Approved.{AreApproved};
ghost use Rattle.iss_decided.specs.Verdicts.{do_parts_agree};
ghost use Rattle.iss_bounded.specs.Bounds.{asked_number};
ghost use Rattle.iss_bounded.specs.Many.{live_number};
ghost use Rattle.iss_known.specs.Known.{IsKnownOf, IsReadAgain};
ghost use Rattle.iss_sound_balances.specs.Sound.{AreBalancesSound};

use crate::listed::are_listed_well;
use crate::owed::owed_balances;
use crate::taken::take_out;
use iss_known::Known;
use iss_model::State;
use std::alloc::{AllocError, Global};

/// Whether each account has the balance that it is owed, balances are of known accounts and in
/// order, and few are of users. `known` is what the state's events make known, of which `asked`
/// calls are asked and `live` transactions are live.
pub fn are_balances_sound(
    alloc: Global,
    state: &State,
    known: &Known,
    asked: u32,
    live: u32,
) -> Result<bool, AllocError>
    requires order { AreInOrder state.now }
    requires parts { list_all do_parts_agree state.now.events ≡ true }
    requires done { AreSumsDone state.now }
    requires fair { AreFair state.now }
    requires approved { AreApproved state.now }
    requires again { IsReadAgain state.now }
    requires known { IsKnownOf known.now (rebuilt state.now) }
    requires asked { asked ≡ asked_number (rebuilt state.now).calls }
    requires live { live ≡ live_number (rebuilt state.now).holdings.txns }
    ensures { IfOk result (λ sound. IsTrue sound ↔ AreBalancesSound state.entry.now) }
{
    let balances = state.balances.0.as_slice();
    let others = u64::from(asked) + u64::from(live);
    if !are_listed_well(balances, known, state.records, others) {
        return Ok(false);
    }
    let mut owed = owed_balances(alloc, state, known)?;
    take_out(alloc, &mut owed, balances)
}
