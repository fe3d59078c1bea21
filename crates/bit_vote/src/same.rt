//! Whether rows of bytes are equal, compared a vector of 32 bytes at a time.

ghost use Rattle.std.specs.Prelude.{◌≡◌, ◌↔◌, ◌≤◌, ◌+◌, IsTrue, length};
ghost use Rattle.std.specs.Simd.Lanes.{chunk};

use std::simd::prelude::*;

/// How many bytes a vector has.
const LANES: usize = 32;

/// The 32 bytes from `at` on.
fn block_of(bytes: &[u8], at: usize) -> u8x32
    requires { at + 32 ≤ length bytes.now }
    ensures block { result ≡ chunk at 32 bytes.now }
    ensures length { length result ≡ 32 }
{
    u8x32::from_slice(&bytes[at..])
}

/// Whether two blocks are equal.
fn is_same_block(a: u8x32, b: u8x32) -> bool
    requires one { length a ≡ 32 }
    requires other { length b ≡ 32 }
    ensures { IsTrue result ↔ (a ≡ b) }
{
    a.simd_ne(b).to_bitmask() == 0
}

/// Whether two slices of one length are equal.
pub fn same_bytes(a: &[u8], b: &[u8]) -> bool
    requires { length a.now ≡ length b.now }
    ensures { IsTrue result ↔ (a.now ≡ b.now) }
{
    let blocks = a.len() / LANES;
    for block in 0..blocks {
        let at = block * LANES;
        if !is_same_block(block_of(a, at), block_of(b, at)) {
            return false;
        }
    }
    for at in blocks * LANES..a.len() {
        if a[at] != b[at] {
            return false;
        }
    }
    true
}
