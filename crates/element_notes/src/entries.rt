//! Entries about the elements of a set.

ghost use Rattle.std.specs.Prelude.{◌≡◌, ◌+◌, ◌<◌, ◌≤◌, [], ◌∷◌, ◌++◌, length, if◌then◌else◌};
ghost use Rattle.element_notes.specs.Words.{entry_about, entries_about};

use ftpp_base::{Ne, Row, Set8};
use syndrome_log::{Syndrome, SyndromeKind};

/// The entries of a cycle.
pub(crate) type Notes = Row<Syndrome, 64>;

/// What the entries of one kind in a cycle have in common.
#[derive(Clone, Copy)]
pub(crate) struct Heading {
    pub(crate) cycle: u32,
    pub(crate) kind: SyndromeKind,
}

/// Who is accused of what was seen about an element: the element itself, or the one that relayed
/// its row.
#[derive(Drop)]
pub(crate) enum Accused {
    Itself,
    Relay(Ne),
}

/// The entry about an element.
fn entry_about(heading: &Heading, accused: &Accused, ne: Ne) -> Syndrome
    ensures { result ≡ entry_about heading.now accused.now ne }
{
    let accused = match accused {
        Accused::Itself => ne,
        Accused::Relay(relay) => *relay,
    };
    Syndrome {
        cycle: heading.cycle,
        kind: heading.kind,
        accused,
        other: ne,
    }
}

/// Puts an entry at the end, where it is to be noted.
fn push_if(out: &mut Notes, noted: bool, entry: Syndrome)
    requires { length out.old.items < 64 }
    ensures items { out.new.items ≡ out.old.items ++ (if noted then entry ∷ [] else []) }
    ensures few { length out.new.items ≤ length out.old.items + 1 }
{
    if noted {
        out.push(entry);
    }
}

/// Appends an entry about each element of a set, ascending.
pub(crate) fn note_each(out: &mut Notes, heading: &Heading, accused: &Accused, n: u8, nes: &Set8)
    requires elements { n ≤ 5 }
    requires room { length out.old.items ≤ 59 }
    ensures items { out.new.items ≡ out.old.items ++ entries_about heading.now accused.now n nes.now }
    ensures few { length out.new.items ≤ length out.old.items + n }
{
    if nes.bits == 0 {
        return;
    }
    for k in 0..n {
        let entry = entry_about(heading, accused, Ne::at(k as usize));
        push_if(out, nes.has(k), entry);
    }
}
