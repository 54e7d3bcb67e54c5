//! An answer on a watched channel: one take, and what its bytes come to.
ghost use Rattle.std.specs.Prelude.{◌≡◌, ◌<◌, ◌≤◌, ℕ, List, length, [], ◌∷◌, Some, None, IfOk, IfSome, IsSome, OnErr};
ghost use Rattle.iss_edge.specs.declared.outside.Answered.TheVariants.{Took};
ghost use Rattle.iss_edge.specs.World.{Later, Stays};
ghost use Rattle.iss_edge.specs.Outer.{Adds, ToldBoth};
ghost use Rattle.iss_channels.specs.Placed.{things_of};
ghost use Rattle.iss_model.specs.declared.limits.TheConstants.{INSTANCES};
ghost use Rattle.iss_http.specs.Heard.{reading_of};
ghost use Rattle.iss_jit.specs.Outcomes.{outcome_of};
ghost use Rattle.iss_model.specs.declared.call.Opened.{Opened};
ghost use Rattle.iss_model.specs.declared.input.Outcome.{Outcome};
ghost use Rattle.iss_session.specs.Desks.{of_notice};
ghost use Rattle.iss_session.specs.Links.{heard_as};
ghost use Rattle.iss_session.specs.declared.piece.TheConstants.{LONGEST_PIECE};
ghost use Rattle.iss_session.specs.Hearings.{link_at};
ghost use Rattle.iss_link.specs.Values.{subject_of, heard_of, links_at};
ghost use Rattle.iss_link.specs.Hearing.{ReadsLink, ListensOn, MeansOutcome, TakeFaultRose, got_in, channels_after};
ghost use Rattle.iss_link.specs.Worlds.{StillTold};

use crate::Heard;
use crate::watched::{About, Watched};
use iss_channels::ByChannel;
use iss_edge::{Channel, Edge};
use iss_http::Answer;
use iss_http::statuses::OK;
use iss_jit::answer as jit_answer;
use iss_model::{Opened, Outcome};
use std::alloc::{AllocError, Global};

/// The status of a gateway that acknowledges a notice.
const ACKNOWLEDGED: u16 = OK;

/// Takes once from a watched channel that is ready, and returns what its bytes come to. After a whole answer, the channel is closed and
/// watched no longer.
#[tactic(auto, using(crate::proofs::Worlds::told_some))]
pub(crate) fn listen<E: Edge>(
    links: &mut ByChannel<Watched>,
    buffer: &mut [u8],
    alloc: Global,
    edge: &mut E,
    ch: Channel,
    instance: u64,
) -> Result<Heard, AllocError>
    requires watched { IsSome (link_at ch (things_of links.old)) }
    requires ready { (E.channels edge.old).ready ≡ Some ch.0 }
    requires room { length buffer.old ≡ LONGEST_PIECE }
    requires instance { instance < INSTANCES }
    ensures room { length buffer.new ≡ LONGEST_PIECE }
    ensures listens { ListensOn E.channels E.faults E.told E.heard edge.old edge.new
        (links_at instance (things_of links.old)) (links_at instance (things_of links.new)) ch result }
    ensures alone { StillTold E.told edge.old edge.new }
    ensures later { Later (E.faults edge.old) (E.faults edge.new) }
    ensures kept { Stays E.extent edge.old edge.new }
    ensures channels { IfOk result (λ said. E.channels edge.new ≡ channels_after ch (heard_of said) (E.channels edge.old)) }
    ensures still { OnErr result (Stays E.channels edge.old edge.new) }
{
    let about = about(links, ch);
    let got = take(edge, ch, buffer);
    let Some(answer) = read(links, alloc, ch, buffer, got)? else {
        return Ok(Heard::Nothing);
    };
    let said = hear(alloc, &about, &answer, instance)?;
    links.remove(ch);
    edge.close(ch);
    Ok(said)
}

/// What the answer on a channel is about.
fn about(links: &ByChannel<Watched>, ch: Channel) -> About
    requires watched { IsSome (link_at ch (things_of links.now)) }
    ensures { IfSome (link_at ch (things_of links.now)) (λ link. subject_of result ≡ link.subject) }
{
    let Some(watched) = links.find(ch) else {
        unreachable!()
    };
    watched.about
}

/// Takes the next bytes of a channel into a buffer, none at their end, and returns how many came. `None` if it failed.
#[tactic(auto, using(crate::proofs::Worlds::told_some))]
fn take<E: Edge>(edge: &mut E, ch: Channel, buffer: &mut [u8]) -> Option<usize>
    requires ready { (E.channels edge.old).ready ≡ Some ch.0 }
    requires room { length buffer.old ≡ LONGEST_PIECE }
    ensures room { length buffer.new ≡ LONGEST_PIECE }
    ensures bound { IfSome result (λ count. count ≤ length buffer.new) }
    ensures told { ToldBoth E.told E.heard (Adds [] (Took ch (got_in buffer.new result) ∷ [])) edge.old edge.new }
    ensures alone { StillTold E.told edge.old edge.new }
    ensures failed { result ≡ None → TakeFaultRose ch (E.channels edge.old) (E.faults edge.old) (E.faults edge.new) }
    ensures later { Later (E.faults edge.old) (E.faults edge.new) }
    ensures kept { Stays E.extent edge.old edge.new }
    ensures channels { Stays E.channels edge.old edge.new }
{
    match edge.take(ch, buffer) {
        Ok(count) => Some(count),
        Err(_) => None,
    }
}

/// What a channel's bytes are after a take brought these, or failed, which ends them.
fn read(
    links: &mut ByChannel<Watched>,
    alloc: Global,
    ch: Channel,
    buffer: &[u8],
    got: Option<usize>,
) -> Result<Option<Answer>, AllocError>
    requires watched { IsSome (link_at ch (things_of links.old)) }
    requires bound { IfSome got (λ count. count ≤ length buffer.now) }
    ensures reads { IfOk result (ReadsLink ch (got_in buffer.now got) (things_of links.old) (things_of links.new)) }
{
    match got {
        None => Ok(Some(Answer::Ended)),
        Some(count) => feed(links, alloc, ch, &buffer[..count]),
    }
}

/// Adds the next bytes to what a channel's reader has, none at their end.
fn feed(
    links: &mut ByChannel<Watched>,
    alloc: Global,
    ch: Channel,
    piece: &[u8],
) -> Result<Option<Answer>, AllocError>
    requires watched { IsSome (link_at ch (things_of links.old)) }
    ensures { IfOk result (ReadsLink ch (Some piece.now) (things_of links.old) (things_of links.new)) }
{
    let Some(said) = links.receive(alloc, ch, piece) else {
        unreachable!()
    };
    said
}

/// What an answer means for what it is about.
fn hear(alloc: Global, about: &About, answer: &Answer, instance: u64) -> Result<Heard, AllocError>
    requires { instance < INSTANCES }
    ensures { IfOk result (λ said. heard_of said ≡ heard_as (outcome_of instance) (subject_of about.now) (reading_of answer.now)) }
{
    match about {
        About::Call(opened) => {
            let said = outcome(alloc, opened, answer, instance)?;
            Ok(Heard::Outcome(opened.call, said))
        }
        About::Notice(number) => Ok(acknowledged(*number, answer)),
    }
}

/// What an answer comes to for a call.
fn outcome(
    alloc: Global,
    opened: &Opened,
    answer: &Answer,
    instance: u64,
) -> Result<Outcome, AllocError>
    requires { instance < INSTANCES }
    ensures { IfOk result (MeansOutcome instance opened.now answer.now) }
{
    match answer {
        Answer::Whole(status, body) => jit_answer(alloc, *status, body, opened, instance),
        Answer::Garbled => Ok(Outcome::Application),
        Answer::Ended => Ok(Outcome::Connection),
    }
}

/// Whether an answer acknowledges a notice.
fn acknowledged(number: u32, answer: &Answer) -> Heard
    ensures { (read : Opened → ℕ → List ℕ → Outcome) → heard_of result ≡ heard_as read (of_notice number) (reading_of answer.now) }
{
    match answer {
        Answer::Whole(status, _) if *status == ACKNOWLEDGED => Heard::Acked(number),
        _ => Heard::Dropped(number),
    }
}
