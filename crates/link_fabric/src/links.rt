//! The link of one element.

ghost use Rattle.std.specs.Prelude.{◌≡◌, ◌≢◌, ℕ, ◌<◌, ◌⊎◌, ◌==◌, List, [], IfSome, if◌then◌else◌, length, slice_index_or, slice_set, replicate};
ghost use Rattle.link_fabric.specs.Rows.{rows_of};

use arrayvec::ArrayVec;
use frame_format::{FrameBuf, copy_frame};
use ftpp_base::Ne;

/// Where an element takes the frames that came and puts the frames that leave. It has a row of bytes for each
/// element, both for what came and for what leaves; the rows at the element's own place are never used.
pub trait Link<const N: usize> {
    /// The number of the element whose link it is.
    ghost me: { Self → ℕ };

    /// The frames that came, by sender.
    ghost came: { Self → List (List ℕ) };

    /// The frames that leave, by receiver.
    ghost leaves: { Self → List (List ℕ) };

    /// Copies the frame that came from an element, and leaves it there.
    fn take(&mut self, from: Ne, into: &mut FrameBuf)
        requires below { from < N }
        requires other { from ≢ me self.old }
        ensures frame { into.new.items ≡ slice_index_or (came self.old) from [] }
        ensures me { me self.new ≡ me self.old }
        ensures came { came self.new ≡ came self.old }
        ensures leaves { leaves self.new ≡ leaves self.old };

    /// Lends the frame that came from an element; None where a link can only copy it.
    fn seen(&self, from: Ne) -> Option<&FrameBuf>
        requires below { from < N }
        requires other { from ≢ me self.now }
        ensures frame { IfSome result (λ frame. frame.now.items ≡ slice_index_or (came self.now) from []) }
    {
        let _ = from;
        None
    }

    /// Replaces the frame that leaves for an element.
    fn put(&mut self, to: Ne, frame: &FrameBuf)
        requires below { to < N }
        requires other { to ≢ me self.old }
        ensures frame { leaves self.new ≡ slice_set (leaves self.old) to frame.now.items }
        ensures me { me self.new ≡ me self.old }
        ensures came { came self.new ≡ came self.old };

    /// Replaces the frame that leaves for each other element.
    fn put_all(&mut self, owner: Ne, frame: &FrameBuf)
        requires size { (N ≡ 4) ⊎ (N ≡ 5) }
        requires owner { owner ≡ me self.old }
        requires width { length (leaves self.old) ≡ N }
        ensures frames { (to : ℕ) → to < N → slice_index_or (leaves self.new) to [] ≡ (if to == owner then slice_index_or (leaves self.old) to [] else frame.now.items) }
        ensures me { me self.new ≡ me self.old }
        ensures came { came self.new ≡ came self.old }
    {
        for k in 0..N {
            let to = Ne::at(k);
            if to != owner {
                self.put(to, frame);
            }
        }
    }

    /// There is a row for each sender.
    ghost came_width: { (s : Self) → length (came s) ≡ N };

    /// There is a row for each receiver.
    ghost leaves_width: { (s : Self) → length (leaves s) ≡ N };
}

/// The link of an element of a cluster: what the fabric delivered to it, and what it sends.
#[derive(Drop)]
pub struct LinkEnd<const N: usize> {
    pub owner: Ne,
    came: ArrayVec<FrameBuf, N>,
    /// The frame that leaves for each other element but those that have a frame of their own in `leaves`.
    shared: FrameBuf,
    leaves: ArrayVec<FrameBuf, N>,
    /// Which elements have a frame of their own.
    has_own: [bool; N],
    ghost came_len: { length came.items ≡ N },
    ghost leaves_len: { length leaves.items ≡ N },
    ghost has_own_len: { length has_own ≡ N },
}

impl<const N: usize> LinkEnd<N> {
    ghost use Rattle.link_fabric.specs.Ends.{came_of, leaves_of};

    /// The link of an element to which no frame came yet: all rows are empty.
    pub fn new(me: Ne) -> Self
        requires { me < N }
        ensures owner { result.owner ≡ me }
        ensures came { came_of result ≡ replicate N [] }
        ensures leaves { leaves_of result ≡ replicate N [] }
    {
        LinkEnd {
            owner: me,
            came: silence(),
            shared: FrameBuf::new(),
            leaves: silence(),
            has_own: [false; N],
        }
    }

    /// A frame comes from an element, in place of the one that came before.
    #[tactic(auto, using(crate::proofs::Written::rows_write), unfolding(crate::specs::Ends::leaves_of))]
    pub fn arrive(&mut self, from: Ne, frame: &FrameBuf)
        requires below { from < N }
        requires other { from ≢ self.old.owner }
        ensures frame { came_of self.new ≡ slice_set (came_of self.old) from frame.now.items }
        ensures owner { self.new.owner ≡ self.old.owner }
        ensures leaves { leaves_of self.new ≡ leaves_of self.old }
    {
        copy_frame(frame, &mut self.came[from.index()]);
    }

    /// The frame that leaves for an element.
    pub fn leaving(&self, to: Ne) -> &FrameBuf
        requires below { to < N }
        requires other { to ≢ self.now.owner }
        ensures { result.now.items ≡ slice_index_or (leaves_of self.now) to [] }
    {
        if self.has_own[to.index()] {
            &self.leaves[to.index()]
        } else {
            &self.shared
        }
    }
}

/// An empty frame for each element.
fn silence<const N: usize>() -> ArrayVec<FrameBuf, N>
    ensures { rows_of result.items ≡ replicate N [] }
{
    let mut row = ArrayVec::new();
    for _ in 0..N {
        row.push(FrameBuf::new());
    }
    row
}

impl<const N: usize> Link<N> for LinkEnd<N> {
    ghost use Rattle.link_fabric.specs.Ends.{came_of, came_wide, leaves_of, leaves_wide};

    ghost me = { λ s. s.owner };

    ghost came = { λ s. came_of s };

    ghost leaves = { λ s. leaves_of s };

    ghost came_width = { λ s. came_wide s };

    ghost leaves_width = { λ s. leaves_wide s };

    fn take(&mut self, from: Ne, into: &mut FrameBuf) {
        copy_frame(&self.came[from.index()], into);
    }

    fn seen(&self, from: Ne) -> Option<&FrameBuf> {
        Some(&self.came[from.index()])
    }

    fn put(&mut self, to: Ne, frame: &FrameBuf) {
        copy_frame(frame, &mut self.leaves[to.index()]);
        self.has_own[to.index()] = true;
    }

    fn put_all(&mut self, _owner: Ne, frame: &FrameBuf) {
        copy_frame(frame, &mut self.shared);
        let nobody = [false; N];
        self.has_own = nobody;
    }
}
