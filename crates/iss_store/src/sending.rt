//! One text to the gateway on a channel of its own, or to a client, whose channel it closes.
ghost use Rattle.std.specs.Prelude.{◌≡◌, None};
ghost use Rattle.iss_edge.specs.World.{Told, Later, Rose, Stays};
ghost use Rattle.iss_store.specs.Saying.{StaysGood};
ghost use Rattle.iss_store.specs.Serving.{SendsDialled, SendsReply};

use iss_edge::{Channel, Edge};

/// Dials a channel and sends a text on it. `None` if the text doesn't go out whole; then the channel is closed if it was dialled.
#[tactic(auto, using(iss_session::proofs::ToldSendings::undialled_told, iss_session::proofs::ToldSendings::sent_told, iss_session::proofs::ToldSendings::torn_told, crate::proofs::StaysServed::told_sent_stays, crate::proofs::StaysServed::told_undialled_stays, crate::proofs::StaysServed::told_torn_stays, crate::proofs::ServedTexts::torn_link))]
pub(crate) fn send<E: Edge>(edge: &mut E, bytes: &[u8]) -> Option<Channel>
    ensures sends { SendsDialled E.told E.heard edge.old edge.new bytes.now result }
    ensures stays { Told StaysGood (E.told edge.old) (E.told edge.new) }
    ensures later { Later (E.faults edge.old) (E.faults edge.new) }
    ensures unsent { result ≡ None → Rose (E.faults edge.old).link (E.faults edge.new).link }
    ensures kept { Stays E.extent edge.old edge.new }
{
    let Ok(ch) = edge.dial() else {
        return None;
    };
    if edge.emit(ch, bytes).is_err() {
        edge.close(ch);
        return None;
    }
    Some(ch)
}

/// Sends a client its response, and closes its channel.
#[tactic(auto, using(iss_session::proofs::ToldSendings::replied_told, iss_session::proofs::ToldSendings::torn_reply_told, crate::proofs::StaysServed::told_replied_stays, crate::proofs::StaysServed::told_torn_reply_stays))]
pub fn reply<E: Edge>(edge: &mut E, ch: Channel, text: &[u8])
    ensures sends { SendsReply E.told E.heard edge.old edge.new ch text.now }
    ensures stays { Told StaysGood (E.told edge.old) (E.told edge.new) }
    ensures later { Later (E.faults edge.old) (E.faults edge.new) }
    ensures kept { Stays E.extent edge.old edge.new }
{
    if edge.emit(ch, text).is_err() {
        edge.close(ch);
        return;
    }
    edge.close(ch);
}
