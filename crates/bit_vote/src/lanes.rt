//! The vote, a vector of 32 bytes at a time.

ghost use Rattle.std.specs.Prelude.{◌≡◌, ℕ, ◌<◌, ◌≤◌, ◌+◌, ◌*◌, ◌/◌, length, slice_index};
ghost use Rattle.bit_vote.specs.Vote.{present, column, byte_vote, vote as vote_of};

use crate::plain::{count_present, start, vote_byte};
use std::simd::prelude::*;

/// How many bytes a vector has.
const LANES: usize = 32;

/// The 32 bytes of the row from `at` on.
fn block_at<const B: usize>(row: &[u8; B], at: usize) -> u8x32
    requires { at + 32 ≤ B }
    ensures length { length result ≡ 32 }
    ensures bytes { (k : ℕ) → k < 32 → slice_index result k ≡ slice_index row.now (at + k) }
{
    let whole = &row[..];
    u8x32::from_slice(&whole[at..])
}

/// Puts 32 bytes into the row, from `at` on.
fn put_block<const B: usize>(row: &mut [u8; B], at: usize, block: u8x32)
    requires within { at + 32 ≤ B }
    requires length { length block ≡ 32 }
    ensures length { length row.new ≡ B }
    ensures below { (k : ℕ) → k < at → slice_index row.new k ≡ slice_index row.old k }
    ensures block { (k : ℕ) → k < 32 → slice_index row.new (at + k) ≡ slice_index block k }
{
    let whole = &mut row[..];
    block.copy_to_slice(&mut whole[at..]);
}

/// The vote of the 32 bytes from `at` on. Each lane does what `vote_byte` does.
fn vote_block<const B: usize>(list: &[Option<[u8; B]>], count: usize, at: usize) -> u8x32
    requires within { at + 32 ≤ B }
    requires few { length list.now ≤ 5 }
    requires count { count ≡ length (present list.now) }
    requires some { 0 < count }
    requires at_most { count ≤ 5 }
    ensures length { length result ≡ 32 }
    ensures voted { (k : ℕ) → k < 32 → slice_index result k ≡ byte_vote (column (present list.now) (at + k)) }
{
    let (one, two) = start(count);
    let mut ones = u8x32::splat(one);
    let mut twos = u8x32::splat(two);
    let mut fours = u8x32::splat(0);
    for cell in list {
        if let Some(row) = cell {
            let bytes = block_at(row, at);
            let both = ones & bytes;
            ones ^= bytes;
            fours |= twos & both;
            twos ^= both;
        }
    }
    fours
}

/// The same vote as `vote`, 32 bytes at a time.
pub fn vote_lanes<const B: usize>(list: &[Option<[u8; B]>]) -> Option<[u8; B]>
    requires few { length list.now ≤ 5 }
    ensures { result ≡ vote_of list.now }
{
    let count = count_present(list);
    if list.len() >= 2 * count {
        return None;
    }
    let mut row = [0; B];
    for block in 0..B / LANES {
        let at = block * LANES;
        put_block(&mut row, at, vote_block(list, count, at));
    }
    for at in B / LANES * LANES..B {
        row[at] = vote_byte(list, count, at);
    }
    Some(row)
}
