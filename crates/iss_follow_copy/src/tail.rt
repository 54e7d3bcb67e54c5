//! The bytes of a device in halves after its first one.
ghost use Rattle.std.specs.Prelude.{◌≡◌, ◌∷◌, ◌++◌, ◌-◌, ◌^◌, ◌<◌, ◌≤◌, length, IfOk};
ghost use Rattle.std.specs.Int.{w32, to_be_bytes};
ghost use Rattle.iss_journal.specs.Header.{instance_bytes};
ghost use Rattle.iss_halves.specs.declared.layout.TheConstants.{BESIDE_IMAGE, LEAST_HALVES_SIZE};
ghost use Rattle.iss_halves.specs.Halves.{half_size, halves_signature};
ghost use Rattle.iss_halves.specs.Making.{halves_tail};

use iss_halves::layout::{BESIDE_IMAGE, HALVES_START};
use std::alloc::{AllocError, Global};

/// How many bytes of an image have room in a half of a device of this size.
pub(crate) fn room_of(size: u64) -> u64
    requires { LEAST_HALVES_SIZE ≤ size }
    ensures { result ≡ half_size size - BESIDE_IMAGE }
{
    (size - HALVES_START) / 2 - BESIDE_IMAGE
}

/// What comes after the first byte of a device in halves of this instance, whose first half holds this image, of less than 2^32 bytes,
/// and no records: the rest of the header, the selector of the first half, the image after its length, and a closed gate.
#[tactic(auto, using(crate::proofs::Tails::tail_spelled))]
pub(crate) fn tail_of(alloc: Global, instance: u64, image: &[u8]) -> Result<Vec<u8>, AllocError>
    requires { length image.now < 2 ^ 32 }
    ensures { IfOk result (λ tail. tail.items ≡ halves_tail instance image.now) }
{
    let head = head_of(instance, image.len() as u32);
    let mut tail = Vec::with_capacity(alloc, head.len() + image.len() + 1)?;
    tail.extend_from_slice(&head)?;
    tail.extend_from_slice(image)?;
    tail.push(0)?;
    Ok(tail)
}

/// The header of a device in halves without its first byte, the selector of the first half, and the length of its image.
fn head_of(instance: u64, length: u32) -> [u8; 20]
    ensures { result ≡ halves_signature ++ instance_bytes instance ++ 0 ∷ to_be_bytes w32 length }
{
    let [_, _, a, b, c, d, e, f] = instance.to_be_bytes();
    let [g, h, i, j] = length.to_be_bytes();
    [
        b'I', b'S', b'S', b'1', 2, 0, 0, 0, 0, a, b, c, d, e, f, 0, g, h, i, j,
    ]
}
