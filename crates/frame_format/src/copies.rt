//! Copies a frame.

ghost use Rattle.std.specs.Prelude.{◌≡◌};

use crate::FrameBuf;

/// Copies all bytes of a frame in one step; over a frame of the same length without clearing it first.
pub fn copy_frame(from: &FrameBuf, into: &mut FrameBuf)
    ensures { into.new ≡ from.now }
{
    if into.len() == from.len() {
        into.as_mut_slice().copy_from_slice(from.as_slice());
    } else {
        into.clear();
        let _ = into.try_extend_from_slice(from.as_slice());
    }
}
