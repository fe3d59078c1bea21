//! The link of an element that takes its frames where they were delivered.

ghost use Rattle.std.specs.Prelude.{◌≡◌, ◌<◌, [], length, replicate, slice_set};
ghost use Rattle.link_fabric.specs.Rows.{rows_of};
ghost use Rattle.cluster.specs.Carrying.{HasShape, bytes_in, sent_in};

use crate::telling::frame_of;
use arrayvec::ArrayVec;
use frame_format::{FrameBuf, copy_frame};
use ftpp_base::Ne;
use link_fabric::Link;

/// What comes to an element are the frames in the table of a round, by sender and receiver. Nothing was sent through it
/// yet: an element sends nothing while it takes frames, so there is room for its frames only from the first one on.
#[derive(Drop)]
pub(crate) struct TableLink<'a, const N: usize> {
    owner: Ne,
    rows: &'a [Vec<FrameBuf>],
    sent: Option<ArrayVec<FrameBuf, N>>,
    ghost among: { owner < N },
    ghost count: { length rows.now ≡ N },
    ghost shape: { HasShape N (bytes_in rows.now) },
    ghost sent_wide: { length (sent_in N sent) ≡ N },
}

impl<'a, const N: usize> TableLink<'a, N> {
    /// The link of an element to a table.
    pub(crate) fn new(owner: Ne, rows: &'a [Vec<FrameBuf>]) -> TableLink<'a, N>
        requires among { owner < N }
        requires count { length rows.now ≡ N }
        requires shape { HasShape N (bytes_in rows.now) }
        ensures owner { result.owner ≡ owner }
        ensures rows { result.rows.now ≡ rows.now }
    {
        TableLink {
            owner,
            rows,
            sent: None,
        }
    }
}

/// An empty frame for each element.
fn silence<const N: usize>() -> ArrayVec<FrameBuf, N>
    ensures { rows_of result.items ≡ replicate N [] }
{
    let mut frames = ArrayVec::new();
    for _ in 0..N {
        frames.push(FrameBuf::new());
    }
    frames
}

/// A frame for an element, and empty ones for the others.
fn only<const N: usize>(to: Ne, frame: &FrameBuf) -> ArrayVec<FrameBuf, N>
    requires { to < N }
    ensures { rows_of result.items ≡ slice_set (replicate N []) to frame.now.items }
{
    let mut frames = silence();
    copy_frame(frame, &mut frames[to.index()]);
    frames
}

impl<'a, const N: usize> Link<N> for TableLink<'a, N> {
    ghost use Rattle.cluster.specs.Taken.{sent_through, sent_through_wide, taken_from, taken_wide};

    ghost me = { λ l. l.owner };

    ghost came = { λ l. taken_from l };

    ghost leaves = { λ l. sent_through l };

    ghost came_width = { λ l. taken_wide l };

    ghost leaves_width = { λ l. sent_through_wide l };

    fn take(&mut self, from: Ne, into: &mut FrameBuf) {
        copy_frame(frame_of::<N>(self.rows, from, self.owner), into);
    }

    fn seen(&self, from: Ne) -> Option<&FrameBuf> {
        Some(frame_of::<N>(self.rows, from, self.owner))
    }

    fn put(&mut self, to: Ne, frame: &FrameBuf) {
        match &mut self.sent {
            Some(frames) => copy_frame(frame, &mut frames[to.index()]),
            None => self.sent = Some(only(to, frame)),
        }
    }
}
