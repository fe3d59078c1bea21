//! Reads the cells of a frame.

ghost use Rattle.std.specs.Prelude.{◌≡◌, ◌<◌, ◌+◌, ◌*◌, ◌^◌, ◌⊎◌, ℕ, List, Option, Some, None, IfSome, IsSome, IsTrue, ◌↔◌, length, take, replicate, option_map, unwrap_or};
ghost use Rattle.bit_vote.specs.Vote.{Cell};
ghost use Rattle.frame_format.specs.Grammar.{IsInGrammar};
ghost use Rattle.frame_format.specs.Frames.{AreCells, IsOfAll, IsOfOne, IsWide, cell_bytes, decoded, first_cell, frame_head, reads_as, width_in};

use crate::HEAD;
use crate::writing::head;
use bit_vote::{Cells, same_bytes};
use ftpp_base::{Ne, Slot};

/// Whether the bytes begin with the head of a frame of the slot and the sender, and have this many bytes behind it.
fn is_headed(slot: Slot, sender: Ne, bytes: &[u8], more: usize) -> bool
    ensures { IsTrue result ↔ (length bytes.now ≡ HEAD + more) × (take HEAD bytes.now ≡ frame_head slot sender) }
{
    if bytes.len() < HEAD || bytes.len() - HEAD != more {
        return false;
    }
    let wanted = head(slot, sender);
    same_bytes(&bytes[..HEAD], &wanted)
}

/// The cell that the bytes are: an absent one is 0 and zeros, a present one is 1 and its row.
fn read_cell<const B: usize>(bytes: &[u8]) -> Option<Option<[u8; B]>>
    requires { length bytes.now ≡ B + 1 }
    ensures found { IfSome result (λ cell. IsWide B cell × (bytes.now ≡ cell_bytes B cell)) }
    ensures only { (cell : Cell) → IsWide B cell → bytes.now ≡ cell_bytes B cell → result ≡ Some cell }
{
    let mut row = [0; B];
    row.copy_from_slice(&bytes[1..]);
    match bytes[0] {
        0 => {
            if same_bytes(&row, &[0; B]) {
                Some(None)
            } else {
                None
            }
        }
        1 => Some(Some(row)),
        _ => None,
    }
}

/// The cells that the bytes are.
fn read_cells<const N: usize, const B: usize>(bytes: &[u8]) -> Option<Cells<N, B>>
    requires width { B < 2 ^ 32 }
    requires whole { length bytes.now ≡ N * (B + 1) }
    ensures found { IfSome result (λ cells. AreCells N B bytes.now cells) }
    ensures only { (cells : List Cell) → AreCells N B bytes.now cells → result ≡ Some cells }
{
    let mut cells = Cells::absent();
    let mut rest = bytes;
    for i in 0..N {
        let (front, back) = rest.split_at(B + 1);
        match read_cell(front) {
            None => return None,
            Some(cell) => cells.set(i, cell),
        }
        rest = back;
    }
    Some(cells)
}

/// The cells of a frame of round A2 or B2, one for each of four or five elements; None exactly for bytes
/// that are no frame of the slot and the sender. Rows have 32 bytes in A2 and 64 in B2.
pub fn decode<const N: usize, const B: usize>(
    slot: Slot,
    sender: Ne,
    bytes: &[u8],
) -> Option<Cells<N, B>>
    requires size { (N ≡ 4) ⊎ (N ≡ 5) }
    requires round { IsOfAll slot.round }
    requires width { B ≡ width_in slot.round }
    ensures decoded { result ≡ decoded N slot sender bytes.now }
    ensures heard { unwrap_or result (replicate N None) ≡ reads_as N slot sender bytes.now }
    ensures grammar { IsSome result ↔ IsInGrammar N slot sender bytes.now }
{
    if is_headed(slot, sender, bytes, N * (B + 1)) {
        read_cells(&bytes[HEAD..])
    } else {
        None
    }
}

/// The cell of a frame of round A1 or B1; None exactly for bytes that are no frame of the slot and the
/// sender. A row has 32 bytes in A1 and 64 in B1. How many elements there are makes no difference.
pub fn decode_one<const B: usize>(slot: Slot, sender: Ne, bytes: &[u8]) -> Option<Option<[u8; B]>>
    requires round { IsOfOne slot.round }
    requires width { B ≡ width_in slot.round }
    ensures decoded { (n : ℕ) → result ≡ option_map first_cell (decoded n slot sender bytes.now) }
    ensures heard { (n : ℕ) → unwrap_or result None ≡ first_cell (reads_as n slot sender bytes.now) }
    ensures grammar { (n : ℕ) → IsSome result ↔ IsInGrammar n slot sender bytes.now }
{
    if is_headed(slot, sender, bytes, B + 1) {
        read_cell(&bytes[HEAD..])
    } else {
        None
    }
}

/// Whether the bytes begin as the frame of a sender in the slot, those of another sender as that one's, and both are equal
/// behind their heads. Then both are read as the same cells, so that only one of them need be read.
pub fn is_like(slot: Slot, sender: Ne, bytes: &[u8], other: Ne, before: &[u8]) -> bool
    ensures { IsTrue result → (n : ℕ) → reads_as n slot sender bytes.now ≡ reads_as n slot other before.now }
{
    if before.len() < HEAD {
        return false;
    }
    let more = before.len() - HEAD;
    if !is_headed(slot, sender, bytes, more) {
        return false;
    }
    if !is_headed(slot, other, before, more) {
        return false;
    }
    same_bytes(&bytes[HEAD..], &before[HEAD..])
}
