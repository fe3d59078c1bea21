//! What every crate speaks of: elements, processors, rounds, limits, sets and gates.
#![tactic(auto)]

mod element;
mod gate;
mod limits;
mod sets;

use arrayvec::ArrayVec;
pub use element::{Ne, Proc, Round, Slot};
pub use gate::{Gate, OpenGate};
pub use limits::{MOST_CYCLES, MOST_ELEMENTS, MOST_GROUPS, MOST_PROCESSORS, PORTS};
pub use sets::{Set8, VidSet};

/// A list of at most `N` items that takes no memory of its own.
pub type Row<T, const N: usize> = ArrayVec<T, N>;

/// The system gave no memory.
#[derive(Clone, Copy, Debug, PartialEq, Eq)]
pub struct NoMemory;

#[cfg(test)]
mod tests {
    use super::*;

    #[test]
    fn elements_are_below_the_total_and_five(rt: HostRuntime) {
        for (n, total, taken) in [
            (5, 9, false),
            (4, 4, false),
            (3, 4, true),
            (4, 5, true),
            (0, 0, false),
        ] {
            let element = Ne::new(n, total);
            assert_eq!(rt; element.is_some(), taken, "{n} of {total}");
            assert!(rt; !taken || element == Some(Ne::at(usize::from(n))));
        }
    }

    #[test]
    fn sets_hold_what_was_put(rt: HostRuntime) {
        let set = Set8::EMPTY.with(0).with(7);
        assert_eq!(rt; set, Set8 { bits: 0x81 });
        assert!(rt; set.has(7) && !set.has(6));
        let mut groups = VidSet::new();
        groups.put(254);
        assert!(rt; groups.has(254) && !groups.has(253));
        OpenGate.enter(0);
    }
}
