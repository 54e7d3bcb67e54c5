//! Texts on channel 0.
ghost use Rattle.std.specs.Prelude.{◌≡◌, [], ◌∷◌, length, OnOk, OnErr};
ghost use Rattle.iss_edge.specs.World.{Told};
ghost use Rattle.iss_edge.specs.Outer.{Tears, ToldBoth};
ghost use Rattle.iss_texts.specs.TextRows.{AreEnds, cut_at};
ghost use Rattle.iss_texts.specs.Sending.{Says, SaysSome, SentEach, StopsAt, IsSending};

use iss_edge::{Channel, Edge, Failed};

/// Sends each text of a row on channel 0, in order, by an emit of its own. If one fails, nothing more is sent.
pub(crate) fn send_each<E: Edge>(edge: &mut E, bytes: &[u8], ends: &[usize]) -> Result<(), Failed>
    requires { AreEnds 0 (length bytes.now) ends.now }
    ensures told { OnOk result (Told (Says (cut_at 0 bytes.now ends.now)) (E.told edge.old) (E.told edge.new)) }
    ensures part { OnErr result (Told (SaysSome (cut_at 0 bytes.now ends.now)) (E.told edge.old) (E.told edge.new)) }
    ensures sent { OnOk result (ToldBoth E.told E.heard (SentEach (cut_at 0 bytes.now ends.now)) edge.old edge.new) }
    ensures stopped { OnErr result (ToldBoth E.told E.heard (StopsAt (cut_at 0 bytes.now ends.now)) edge.old edge.new) }
    ensures sending { IsSending (E.faults edge.old) (E.faults edge.new) result }
    ensures kept { E.extent edge.new ≡ E.extent edge.old }
    ensures channels { E.channels edge.new ≡ E.channels edge.old }
{
    let mut start = 0;
    for end in ends {
        send(edge, &bytes[start..*end])?;
        start = *end;
    }
    Ok(())
}

/// Sends a text on channel 0.
#[tactic(auto, using(crate::proofs::ToldSaying::told_emitted, crate::proofs::ToldSaying::told_prefix, crate::proofs::ToldSaying::told_sent, crate::proofs::ToldSaying::told_torn))]
fn send<E: Edge>(edge: &mut E, text: &[u8]) -> Result<(), Failed>
    ensures told { OnOk result (Told (Says (text.now ∷ [])) (E.told edge.old) (E.told edge.new)) }
    ensures part { OnErr result (Told (SaysSome (text.now ∷ [])) (E.told edge.old) (E.told edge.new)) }
    ensures sent { OnOk result (ToldBoth E.told E.heard (SentEach (text.now ∷ [])) edge.old edge.new) }
    ensures torn { OnErr result (ToldBoth E.told E.heard (Tears (record { 0 = 0 }) text.now) edge.old edge.new) }
    ensures sending { IsSending (E.faults edge.old) (E.faults edge.new) result }
    ensures kept { E.extent edge.new ≡ E.extent edge.old }
    ensures channels { E.channels edge.new ≡ E.channels edge.old }
{
    edge.emit(Channel(0), text)
}
