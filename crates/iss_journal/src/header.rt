//! The header of a device: its places 0 to 15.

ghost use Rattle.std.specs.Prelude.{◌≡◌, ◌<◌, ℕ, IfNone, IfSome};
ghost use Rattle.iss_journal.specs.Header.{header};
ghost use Rattle.iss_journal.specs.Formatting.{tail_of};
ghost use Rattle.iss_journal.specs.declared.layout.TheConstants.{HEADER_INSTANCES};

use crate::frame::{CLOSED, OPEN};
use crate::layout::HEADER;

/// The header of this instance: 1 if the device is formatted, `ISS1`, version 1, four zeros, and the instance in six bytes.
#[tactic(auto, unfolding(crate::specs::Header::header))]
pub(crate) fn header_of(instance: u64) -> [u8; HEADER]
    ensures { result ≡ header instance }
{
    let [_, _, a, b, c, d, e, f] = instance.to_be_bytes();
    [
        OPEN, b'I', b'S', b'S', b'1', 1, 0, 0, 0, 0, a, b, c, d, e, f,
    ]
}

/// Places 1 to 16 of a device with no records: the header without its first byte, and a closed end gate.
#[tactic(auto, unfolding(crate::specs::Header::header, crate::specs::Formatting::tail_of))]
pub(crate) fn tail_of(instance: u64) -> [u8; HEADER]
    ensures { result ≡ tail_of instance }
{
    let mut tail = [CLOSED; HEADER];
    tail[..HEADER - 1].copy_from_slice(&header_of(instance)[1..]);
    tail
}

/// The instance whose header this is.
pub(crate) fn instance_of(bytes: [u8; HEADER]) -> Option<u64>
    ensures found { IfSome result (λ instance. bytes ≡ header instance) }
    ensures small { IfSome result (λ instance. instance < HEADER_INSTANCES) }
    ensures none { IfNone result ((instance : ℕ) → instance < HEADER_INSTANCES → bytes ≡ header instance → ⊥) }
{
    let instance = u64::from_be_bytes([
        0, 0, bytes[10], bytes[11], bytes[12], bytes[13], bytes[14], bytes[15],
    ]);
    if bytes == header_of(instance) {
        Some(instance)
    } else {
        None
    }
}
