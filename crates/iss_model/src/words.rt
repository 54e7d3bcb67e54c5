//! The order of arrays of 36 bytes, eight bytes at a time.
ghost use Rattle.std.specs.Prelude.{◌≡◌, ◌+◌, ◌≤◌, take, drop};
ghost use Rattle.std.specs.Ordering.{nat_cmp};
ghost use Rattle.std.specs.Cmp.Lexicographic.{slice_cmp};
ghost use Rattle.std.specs.Slice.Scan.{big_endian};

use crate::limits::LONGEST_TOKEN;
use std::cmp::Ordering;

/// The order of two arrays by their first bytes that differ.
pub(crate) fn order(a: &[u8; LONGEST_TOKEN], b: &[u8; LONGEST_TOKEN]) -> Ordering
    ensures { result ≡ slice_cmp nat_cmp a.now b.now }
{
    for i in 0..4 {
        let ordering = word(a, 8 * i).cmp(&word(b, 8 * i));
        if ordering.is_ne() {
            return ordering;
        }
    }
    last_bytes(a).cmp(&last_bytes(b))
}

/// The eight bytes from `at` on as a big-endian number.
fn word(bytes: &[u8; LONGEST_TOKEN], at: usize) -> u64
    requires { at + 8 ≤ LONGEST_TOKEN }
    ensures { result ≡ big_endian 0 (take 8 (drop at bytes.now)) }
{
    u64::from_be_bytes([
        bytes[at],
        bytes[at + 1],
        bytes[at + 2],
        bytes[at + 3],
        bytes[at + 4],
        bytes[at + 5],
        bytes[at + 6],
        bytes[at + 7],
    ])
}

/// The last four bytes as a big-endian number.
fn last_bytes(bytes: &[u8; LONGEST_TOKEN]) -> u32
    ensures { result ≡ big_endian 0 (take 4 (drop 32 bytes.now)) }
{
    u32::from_be_bytes([bytes[32], bytes[33], bytes[34], bytes[35]])
}
