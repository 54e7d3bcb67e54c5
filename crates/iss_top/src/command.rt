//! The words of a run, and what they do.
ghost use Rattle.iss_top.specs.Words.{command_in, OnDry, OnFormat, OnReplay, OnBalances, OnServe, OnDrill};
ghost use Rattle.iss_top.specs.Commands.{StatusOn, DryDoneOn, ReplayDoneOn, ReportDoneOn, ServeDoneOn, DrillDoneOn, FormatDoneOn};

use crate::balances::balances;
use crate::drilling::drilled;
use crate::dry::dry;
use crate::format::format;
use crate::replay::replay;
use crate::serving::serve_on_device;
use crate::stop::stop_status;
use crate::words::{Command, Usage, command_of};
use iss_edge::Edge;
use iss_edge::status::USAGE;
use std::alloc::Global;

/// Does all that the program does, by the words after the program's name, and returns the exit status.
///
/// The one word `dry` reads event lines from channel 0 to its end, and writes what they are told. These are lines of JSON
/// (RFC 8259), each by one emit. `format DEVICE SIZE INSTANCE` makes the device, of SIZE bytes, one in halves of this
/// instance that stands for no records. `replay DEVICE` opens the device, writes the requests and notices that still wait for the
/// gateway, and then takes event lines as `dry` does. What a line makes lasts on the device before any of its texts goes
/// out. `balances DEVICE` opens the device and writes what stands on it. Each account that money was moved to or from has
/// its balance, and a user's also what is held of it. A line of counts comes last. `serve DEVICE PORT GATEWAYPORT TURNS`
/// opens the device, and sends again what still waits for the gateway. Then it takes event lines from clients over HTTP
/// (RFC 9112), in at most TURNS waits. The ports are the outside's. `drill N` makes N events, takes them on a device in
/// memory, and writes a line of what they came to.
///
/// The status is 0 for a run that came to its end, and 2 for words that are no command. It is 3 if the input or a wait
/// failed, and 4 if the device has another size or no store can be opened on it. It is 5 if the output failed, 6 if a call
/// on the device failed, and 7 if an allocation failed. It is 8 if the input has more than 4294967296 bytes.
#[tactic(auto, using(crate::proofs::RunBytes::told_run, crate::proofs::RunBytes::told_emits, crate::proofs::RunBytes::told_stops, crate::proofs::Commands::told_ends_well, crate::proofs::ToldReplays::told_replay_ends_well, crate::proofs::ToldReports::told_report_ends_well, crate::proofs::Continues::transcripts_continue))]
pub fn run<E: Edge>(alloc: Global, words: &[String], edge: &mut E) -> u8
    // The status is one of those that the words may have. It is 2 exactly if they are no command, and then nothing is done.
    // If it blames the outside, that is at fault.
    ensures status { StatusOn E.faults edge.old edge.new (command_in words.now) result }

    // A dry run writes the transcript of the input's lines, or a prefix of it: each text by an emit of its own, in their
    // order. If it is stopped by its input, these are the lines that ended before. If the outside isn't at fault, and the
    // input isn't too long, it comes to its end, or an allocation fails. Whenever it takes more of its input, all that the
    // lines are told that ended until then has gone out.
    ensures dry { OnDry (command_in words.now) (DryDoneOn E.faults E.told E.heard edge.old edge.new result) }

    // On a device that stands for records, a run writes the transcript of the lines on them, or a prefix of it. At 0, 3 and
    // 8 the device then stands for those records and the ones that the lines made. A stop leaves the old records and a
    // prefix of the accepted inputs, which holds every input of which a byte went out. A second run continues the first.
    // The status is 4 only if no store can be opened on the device. If neither the outside nor the input's length ends it, it
    // comes to its end, or an allocation fails. It takes more of its input as a dry run does.
    ensures replay { OnReplay (command_in words.now) (ReplayDoneOn E.faults E.told E.heard edge.old edge.new result) }

    // A report writes its lines, each by an emit of its own, or the first of them. Nothing is taken. A stop leaves the
    // records that stood. The rest is as for `replay`.
    ensures balances { OnBalances (command_in words.now) (ReportDoneOn E.faults E.told edge.old edge.new result) }

    // What a run that serves heard and did is what the session of the device's records says, or a first part of it. What a
    // stop leaves is as for `replay`, and so is the rest. Clients and the gateway may fail without ending it.
    ensures serve { OnServe (command_in words.now) (λ turns.
        ServeDoneOn E.faults E.told E.heard edge.old edge.new turns result) }

    // A drill writes its line by one emit, or a prefix of it, and does nothing else.
    ensures drill { OnDrill (command_in words.now) (λ n. DrillDoneOn E.faults E.told edge.old edge.new n result) }

    // Formatting ends with 4 exactly if the device has another size, and then nothing is done. At 0 the device is in halves,
    // has the instance and stands for no records. At every status it says what a stop leaves.
    ensures format { OnFormat (command_in words.now) (λ size instance.
        FormatDoneOn E.extent E.faults E.told edge.old edge.new size instance result) }
{
    match command_of(words) {
        Ok(Command::Dry) => stop_status(dry(alloc, edge)),
        Ok(Command::Format { size, instance }) => format(edge, size, instance),
        Ok(Command::Replay) => stop_status(replay(alloc, edge)),
        Ok(Command::Balances) => stop_status(balances(alloc, edge)),
        Ok(Command::Serve { turns, .. }) => serve_on_device(alloc, turns, edge),
        Ok(Command::Drill { n }) => drilled(alloc, n, edge),
        Err(Usage) => USAGE,
    }
}
