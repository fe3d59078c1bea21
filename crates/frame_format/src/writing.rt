//! Writes cells as a frame.

ghost use Rattle.std.specs.Prelude.{◌≡◌, ◌≤◌, ◌+◌, ◌++◌, ◌⊎◌, [], ◌∷◌, length};
ghost use Rattle.frame_format.specs.Frames.{IsOfAll, IsOfOne, cell_bytes, frame_bytes, frame_head, kind_byte, width_in};

use crate::{FRAME_BYTES, FrameBuf, HEAD};
use bit_vote::Cells;
use byteorder::{BigEndian, ByteOrder};
use ftpp_base::{Ne, Round, Slot};

/// The first byte of a round's frames.
fn kind(round: Round) -> u8
    ensures { result ≡ kind_byte round }
{
    match round {
        Round::A1 => 0xa1,
        Round::A2 => 0xa2,
        Round::B1 => 0xb1,
        Round::B2 => 0xb2,
    }
}

/// The bytes before the cells: kind, cycle, sender.
pub(crate) fn head(slot: Slot, sender: Ne) -> [u8; HEAD]
    ensures { result ≡ frame_head slot sender }
{
    let mut bytes = [0; HEAD];
    bytes[0] = kind(slot.round);
    BigEndian::write_u32(&mut bytes[1..], slot.cycle);
    bytes[5] = sender.byte();
    bytes
}

/// Appends bytes to a frame.
fn append(out: &mut FrameBuf, bytes: &[u8])
    requires { length out.old.items + length bytes.now ≤ FRAME_BYTES }
    ensures { out.new.items ≡ out.old.items ++ bytes.now }
{
    let _ = out.try_extend_from_slice(bytes);
}

/// Begins a frame anew, with its head.
fn begin(out: &mut FrameBuf, slot: Slot, sender: Ne)
    ensures { out.new.items ≡ frame_head slot sender }
{
    let bytes = head(slot, sender);
    out.clear();
    append(out, &bytes);
}

/// Appends a cell: 1 and its row, or 0 and zeros.
fn put_cell<const B: usize>(out: &mut FrameBuf, cell: Option<[u8; B]>)
    requires { length out.old.items + (B + 1) ≤ FRAME_BYTES }
    ensures items { out.new.items ≡ out.old.items ++ cell_bytes B cell.entry }
    ensures length { length out.new.items ≡ length out.old.items + (B + 1) }
{
    match cell {
        None => {
            out.push(0);
            append(out, &[0; B]);
        }
        Some(row) => {
            out.push(1);
            append(out, &row);
        }
    }
}

/// Writes a frame of round A2 or B2, with a cell for each of four or five elements. Rows have 32
/// bytes in A2 and 64 in B2.
pub fn encode<const N: usize, const B: usize>(
    slot: Slot,
    sender: Ne,
    cells: &Cells<N, B>,
    out: &mut FrameBuf,
)
    requires size { (N ≡ 4) ⊎ (N ≡ 5) }
    requires round { IsOfAll slot.round }
    requires width { B ≡ width_in slot.round }
    ensures { out.new.items ≡ frame_bytes slot sender cells.now }
{
    begin(out, slot, sender);
    for i in 0..N {
        put_cell(out, cells.get(i));
    }
}

/// Writes a frame of round A1 or B1, with one cell. A row has 32 bytes in A1 and 64 in B1.
pub fn encode_one<const B: usize>(slot: Slot, sender: Ne, cell: Option<[u8; B]>, out: &mut FrameBuf)
    requires round { IsOfOne slot.round }
    requires width { B ≡ width_in slot.round }
    ensures { out.new.items ≡ frame_bytes slot sender (cell.entry ∷ []) }
{
    begin(out, slot, sender);
    put_cell(out, cell);
}
