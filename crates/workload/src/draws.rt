//! The stream of numbers that the script is drawn from.

ghost use Rattle.std.specs.Prelude.{◌≡◌, ◌<◌, ◌≤◌};
ghost use Rattle.workload.specs.Draws.{pick, draws};

const MULTIPLIER: u64 = 6_364_136_223_846_793_005;

const INCREMENT: u64 = 1_442_695_040_888_963_407;

/// What is drawn for a cycle.
#[derive(Drop)]
pub(crate) struct Draws {
    /// The group that posts, 1 to 6.
    pub group: u8,
    /// The destination of the posts, 1 to 6.
    pub dest: u8,
    /// A byte of the packet.
    pub byte: u8,
    /// 0 for no posts, 1 for posts of class 2, and 2 or 3 for posts of class 1.
    pub kind: u8,
    /// Which edit there is, 0 to 7.
    pub edit: u8,
    /// Which of the other elements the edit is for, 0 to 3.
    pub to: u8,
    /// Which byte of the frame is changed, 0 to 7.
    pub place: u8,
}

/// The stream, by its state.
#[derive(Drop)]
pub(crate) struct Stream {
    pub state: u64,
}

impl Stream {
    /// A number below `n`.
    #[tactic(auto, using(crate::proofs::Steps::stepped), unfolding(crate::specs::Draws::next_state))]
    pub fn pick(&mut self, n: u16) -> u8
        requires some { 1 ≤ n }
        requires byte { n ≤ 256 }
        ensures drawn { result ≡ (pick n self.old.state).0 }
        ensures state { self.new.state ≡ (pick n self.old.state).1 }
        ensures below { result < n }
    {
        self.state = self.state.wrapping_mul(MULTIPLIER).wrapping_add(INCREMENT);
        ((self.state >> 33) % u64::from(n)) as u8
    }

    /// What is drawn for the next cycle.
    #[tactic(auto, unfolding(crate::specs::Draws::draws))]
    pub fn draws(&mut self) -> Draws
        ensures drawn { result ≡ (draws self.old.state).0 }
        ensures state { self.new.state ≡ (draws self.old.state).1 }
    {
        let group = 1 + self.pick(6);
        let dest = 1 + self.pick(6);
        let byte = self.pick(256);
        let kind = self.pick(4);
        let edit = self.pick(8);
        let to = self.pick(4);
        let place = self.pick(8);
        Draws {
            group,
            dest,
            byte,
            kind,
            edit,
            to,
            place,
        }
    }
}
