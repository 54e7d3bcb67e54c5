//! Bytes that come in pieces, kept up to a limit.
ghost use Rattle.std.specs.Prelude.{◌≡◌, ◌≤◌, ◌++◌, length, take, OnOk};

use std::alloc::AllocError;

/// Adds a piece, as far as `most` bytes in all.
#[tactic(auto, using(crate::proofs::Cuts::kept_within))]
pub(crate) fn keep(bytes: &mut Vec<u8>, piece: &[u8], most: usize) -> Result<(), AllocError>
    requires { length bytes.old.items ≤ most }
    ensures kept { OnOk result (bytes.new.items ≡ take most (bytes.old.items ++ piece.now)) }
    ensures bounded { length bytes.new.items ≤ most }
{
    let room = most - bytes.len();
    bytes.extend_from_slice(&piece[..piece.len().min(room)])
}
