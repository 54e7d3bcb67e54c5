//! What the programme stood in with, made again.
ghost use Rattle.std.specs.Prelude.{◌≡◌, pos, true, OnOk};
ghost use Rattle.iss_model.specs.declared.setting.Window.TheVariants as window;
ghost use Rattle.iss_model.specs.Calendar.{window_at};
ghost use Rattle.iss_model.specs.Forms.{is_stamp};
ghost use Rattle.iss_model.specs.state.Kept.{nothing_kept};
ghost use Rattle.iss_states.specs.Order.{AreInOrder};
ghost use Rattle.iss_states.specs.Rebuilding.{kept_by, rebuilt, stood_sum};
ghost use Rattle.iss_named.specs.Kept.{AreNamesKnown};
ghost use Rattle.iss_named.specs.Stood.{IsDayOfStamp};
ghost use Rattle.iss_bounded.specs.Bounds.{AreBounded};
ghost use Rattle.iss_restored_lists.specs.StandIns.{AreNotable};

use iss_commando::Sets;
use iss_model::{State, Stood};
use std::alloc::AllocError;

/// The milliseconds of a day.
const DAY: u64 = 86_400_000;

/// Takes up what the programme stood in with, as a core has it that is made again from the state. The sets stay as they are.
#[tactic(auto, using(crate::proofs::StandInsAgain::sums_notable))]
pub fn stand_ins_again(state: &State, sets: &mut Sets) -> Result<(), AllocError>
    requires order { AreInOrder state.now }
    requires names { AreNamesKnown state.now }
    requires bounded { AreBounded state.now }
    requires nothing { sets.old.stood ≡ nothing_kept }
    ensures { OnOk result (sets.new ≡ record sets.old { stood = (rebuilt state.entry.now).stand_ins.stood }) }
{
    note_all(&state.sums.0, sets)
}

/// Notes sums, no two of one product, user and day.
fn note_all(sums: &[Stood], sets: &mut Sets) -> Result<(), AllocError>
    requires notable { AreNotable sums.now }
    requires nothing { sets.old.stood ≡ nothing_kept }
    ensures { OnOk result (sets.new ≡ record sets.old { stood = kept_by stood_sum sums.now }) }
{
    for sum in sums {
        sets.note(&sum.product, &sum.user, sum.amount, first_stamp(sum.day))?;
    }
    Ok(())
}

/// The first stamp of a day of UTC.
fn first_stamp(day: i64) -> u64
    requires { IsDayOfStamp day }
    ensures stamp { is_stamp result ≡ true }
    ensures its_day { window_at window.Day result (pos 0) ≡ day }
{
    day as u64 * DAY
}
