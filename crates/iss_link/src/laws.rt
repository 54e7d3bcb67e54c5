//! Laws of what is heard on links.
ghost use Rattle.iss_link.specs.Hearing.{ClosingsAreGood};
ghost use Rattle.iss_link.specs.Causes.{UnfinishedOnlyAt, ConnectionOnlyAt, ApplicationExactly, RefusedExactly, PartExactly, AcknowledgedExactly, DroppedExactly};

use iss_edge::Showing;

/// What each answer on a link comes by. Nothing is heard only if bytes came and no answer is whole. A call isn't connected only if the
/// take failed or the bytes ended early. For a refusal, a part, an answer that decides nothing, an acknowledgement and none, the laws are exact.

pub fn answers_are_caused()
    ensures unfinished { UnfinishedOnlyAt }
    ensures connection { ConnectionOnlyAt }
    ensures application { ApplicationExactly }
    ensures refused { RefusedExactly }
    ensures part { PartExactly }
    ensures acknowledged { AcknowledgedExactly }
    ensures dropped { DroppedExactly }
{}

/// What is done when a link is listened to is a stretch that is good from j to j. A stop within it leaves a device that
/// shows the j records, and the run may go on.
pub fn answers_are_good_stretches<S: Showing>()
    ensures { ClosingsAreGood S.starts S.stands }
{}
