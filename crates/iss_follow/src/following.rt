//! The words of a run, and what they do.
ghost use Rattle.iss_follow.specs.Words.{command_in};
ghost use Rattle.iss_follow.specs.Following.{StatusOn, OnCopy, Copied, Caught, Compared, LeavesOther};

use crate::words::{Command, Usage, command_of};
use iss_edge::Edge;
use iss_edge::status::USAGE;
use iss_follow_catch::catch;
use iss_follow_copy::copy;
use iss_follow_runs::exit_status;
use iss_follow_same::same;
use std::alloc::Global;

/// Does all that the program does, by the words after the program's name, and returns the exit status. `from` is the outside of the
/// device FROM, and `to` that of TO.
///
/// `copy FROM TO SIZE` makes TO, of SIZE bytes, a device in halves of FROM's instance, with the image of all that stands on FROM in its
/// first half, and no record after it. `catch FROM TO` commits to TO the records of FROM that it doesn't hold. `same FROM TO` writes
/// how many records FROM has, and whether both devices stand for the same, on channel 0 of FROM.
#[tactic(auto, using(crate::proofs::Statuses::ended, crate::proofs::Statuses::copy_status, crate::proofs::Statuses::catch_status, crate::proofs::Statuses::same_status, crate::proofs::Statuses::no_command, crate::proofs::Statuses::copy_leaves))]
pub fn follow<F: Edge, T: Edge>(alloc: Global, words: &[String], from: &mut F, to: &mut T) -> u8
    // The status is one of those that the words may have. It is 2 exactly if they are no command, and then nothing is done. If it
    // blames the output or a disk, that is at fault.
    ensures status { StatusOn F.faults T.faults from.old from.new to.old to.new (command_in words.now) result }

    // A copy ends with 4 exactly if TO has another size, or if no store can be opened on FROM; with 9 exactly if the image has no
    // room. At every status it says what a stop leaves of both devices.
    ensures copied { Copied words.now T.extent F.faults T.faults F.told T.told from.old from.new to.old to.new result }
    ensures left { OnCopy (command_in words.now) (λ size.
        LeavesOther size (T.extent to.old) from.old from.new to.old to.new result) }

    // Catching up ends with 10 exactly if TO isn't behind FROM, and with 9 exactly if a record of FROM that TO hasn't doesn't fit
    // there. A stop leaves what TO held and some first ones of those records, and at 0 it holds all of them.
    ensures caught { Caught words.now F.faults T.faults F.told T.told from.old from.new to.old to.new result }

    // Comparing writes its line at 0. A stop leaves what both devices held.
    ensures compared { Compared words.now F.faults T.faults F.told T.told from.old from.new to.old to.new result }
{
    match command_of(words) {
        Ok(Command::Copy { size }) => exit_status(copy(alloc, from, to, size)),
        Ok(Command::Catch) => exit_status(catch(alloc, from, to)),
        Ok(Command::Same) => exit_status(same(alloc, from, to)),
        Err(Usage) => USAGE,
    }
}
