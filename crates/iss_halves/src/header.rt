//! The header of a device in halves: its places 0 to 15, and the selector after it.

ghost use Rattle.std.specs.Prelude.{◌≡◌, ◌<◌, ℕ, List, [], IfNone, IfSome};
ghost use Rattle.iss_journal.specs.declared.layout.TheConstants.{HEADER_INSTANCES};
ghost use Rattle.iss_halves.specs.Halves.{halves_header, selector_of};
ghost use Rattle.iss_halves.specs.Making.{halves_tail};

use crate::layout::SECOND;
use iss_journal::layout::HEADER;

/// How long the tail of a device with no records is.
const TAIL: usize = 21;

/// The header of this instance in halves: 1 if the device is formatted, `ISS1`, version 2, four zeros, and the instance in six bytes.
#[tactic(auto, unfolding(crate::specs::Halves::halves_header))]
pub(crate) fn header_of(instance: u64) -> [u8; HEADER]
    ensures { result ≡ halves_header instance }
{
    let [_, _, a, b, c, d, e, f] = instance.to_be_bytes();
    [1, b'I', b'S', b'S', b'1', 2, 0, 0, 0, 0, a, b, c, d, e, f]
}

/// Places 1 to 21 of a device with no records: the header without its first byte, the selector of the first half, an image of no bytes
/// after its length, and a closed end gate.
#[tactic(auto, unfolding(crate::specs::Making::halves_tail))]
pub(crate) fn tail_of(instance: u64) -> [u8; TAIL]
    ensures { result ≡ halves_tail instance [] }
{
    let [_, _, a, b, c, d, e, f] = instance.to_be_bytes();
    [
        b'I', b'S', b'S', b'1', 2, 0, 0, 0, 0, a, b, c, d, e, f, 0, 0, 0, 0, 0, 0,
    ]
}

/// The instance whose header in halves this is.
pub(crate) fn instance_of(bytes: [u8; HEADER]) -> Option<u64>
    ensures found { IfSome result (λ instance. bytes ≡ halves_header instance) }
    ensures small { IfSome result (λ instance. instance < HEADER_INSTANCES) }
    ensures none { IfNone result ((instance : ℕ) → instance < HEADER_INSTANCES → bytes ≡ halves_header instance → ⊥) }
{
    let instance = u64::from_be_bytes([
        0, 0, bytes[10], bytes[11], bytes[12], bytes[13], bytes[14], bytes[15],
    ]);
    if bytes == header_of(instance) {
        Some(instance)
    } else {
        None
    }
}

/// The selector that names a half.
pub(crate) fn selector_of(second: bool) -> u8
    ensures { result ≡ selector_of second }
{
    if second { SECOND } else { 0 }
}
