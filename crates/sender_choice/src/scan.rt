//! The plain chooser keeps one place for each group number, and looks at all of them.

ghost use Rattle.std.specs.Prelude.{◌≡◌};
ghost use Rattle.sender_choice.specs.Sinces.{nothing_held};

use crate::Chooser;
use ftpp_base::VidSet;
use std::marker::Model;

/// The plain chooser, which looks at every group number.
#[derive(Clone, Copy, Debug)]
pub struct ScanChooser {
    /// Since when each group number waits, if it is held.
    sinces: [Option<u32>; 256],
}

impl Model for ScanChooser {
    ghost use Rattle.std.specs.Prelude.{◌≡◌, List, Option, ℕ, length};

    ghost Value = { List (Option ℕ) };

    ghost view = { λ s. s.sinces };

    ghost invariant = { λ s. length s.sinces ≡ 256 };

    ghost inverse = { λ l. record { sinces = l } };
}

impl ScanChooser {
    ghost use Rattle.sender_choice.specs.Scan.{scanned};

    /// A chooser that holds no group.
    pub fn new() -> ScanChooser
        ensures { scanned result ≡ nothing_held }
    {
        ScanChooser {
            sinces: [None; 256],
        }
    }
}

impl Chooser for ScanChooser {
    ghost use Rattle.sender_choice.specs.Scan.{scanned};

    ghost held = { scanned };

    fn set(&mut self, vid: u8, since: u32) {
        self.sinces[usize::from(vid)] = Some(since);
    }

    fn clear(&mut self, vid: u8) {
        self.sinces[usize::from(vid)] = None;
    }

    fn since(&self, vid: u8) -> Option<u32> {
        self.sinces[usize::from(vid)]
    }

    fn oldest(&self, eligible: &VidSet) -> Option<(u8, u32)> {
        let mut best = None;
        for place in 0..self.sinces.len() {
            let vid = place as u8;
            if eligible.has(vid) {
                best = older(best, vid, self.sinces[place]);
            }
        }
        best
    }
}

ghost use Rattle.sender_choice.specs.Scan.{older_with};

/// The older of two groups: the best so far, whose number is lower, and another, if that is held.
fn older(best: Option<(u8, u32)>, vid: u8, since: Option<u32>) -> Option<(u8, u32)>
    ensures { result ≡ older_with best vid since }
{
    match (best, since) {
        (_, None) => best,
        (Some((_, earlier)), Some(since)) if earlier <= since => best,
        (_, Some(since)) => Some((vid, since)),
    }
}
