//! A link of one's own: the buffers of one element's device.

ghost use Rattle.std.specs.Prelude.{◌≡◌, ◌<◌, ◌≢◌, length, replicate, []};
ghost use Rattle.std.proofs.Common.{rules};
ghost use Rattle.std.proofs.lemmas.Grind.{common_steps};
ghost use Rattle.link_fabric.specs.Rows.{rows_of};

use arrayvec::ArrayVec;
use frame_format::{FrameBuf, copy_frame};
use ftpp_base::Ne;
use link_fabric::Link;

/// The buffers of one element's device, with a wire to each other element: a row for what came from each, and a row for
/// what leaves for each. Its driver fills the inbox and empties the outbox.
#[derive(Drop)]
pub struct Mailbox {
    pub owner: Ne,
    pub inbox: ArrayVec<FrameBuf, 4>,
    pub outbox: ArrayVec<FrameBuf, 4>,
    pub ghost inbox_len: { length inbox.items ≡ 4 },
    pub ghost outbox_len: { length outbox.items ≡ 4 },
}

/// Four empty frames.
fn empty() -> ArrayVec<FrameBuf, 4>
    ensures { length result.items ≡ 4 }
{
    ArrayVec::from([
        FrameBuf::new(),
        FrameBuf::new(),
        FrameBuf::new(),
        FrameBuf::new(),
    ])
}

impl Mailbox {
    /// The mailbox of an element, before anything came.
    pub fn new(owner: Ne) -> Mailbox
        requires { owner < 4 }
        ensures { result.owner ≡ owner }
    {
        Mailbox {
            owner,
            inbox: empty(),
            outbox: empty(),
        }
    }
}

impl Link<4> for Mailbox {
    ghost me = { λ s. s.owner };

    ghost came = { λ s. rows_of s.inbox.items };

    ghost leaves = { λ s. rows_of s.outbox.items };

    ghost came_width = { λ s. Prim.search (rules, common_steps) };

    ghost leaves_width = { λ s. Prim.search (rules, common_steps) };

    fn take(&mut self, from: Ne, into: &mut FrameBuf) {
        copy_frame(&self.inbox[from.index()], into);
    }

    fn seen(&self, from: Ne) -> Option<&FrameBuf> {
        Some(&self.inbox[from.index()])
    }

    #[tactic(auto, using(link_fabric::proofs::Written::rows_write))]
    fn put(&mut self, to: Ne, frame: &FrameBuf) {
        copy_frame(frame, &mut self.outbox[to.index()]);
    }
}
