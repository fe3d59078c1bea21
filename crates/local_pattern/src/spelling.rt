//! One entry as four bytes: flags, destination, class, source.

ghost use Rattle.std.specs.Prelude.{◌≡◌, true, IsNone, IfSome, [], ◌∷◌};
ghost use Rattle.local_pattern.specs.declared.Entry.{Entry};
ghost use Rattle.local_pattern.specs.Pattern.{IsPlain, Shows, entry_bytes, read_entry, quiet, room};

use crate::Entry;
use crate::flags::{flags_byte, flags_of};
use packet_format::Descriptor;

/// No request and no space.
pub(crate) const QUIET: Entry = Entry {
    not_empty: false,
    not_full: false,
    desc: Descriptor {
        dest: 0,
        class: 0,
        source: 0,
    },
};

/// Room and no request.
pub(crate) const ROOM: Entry = Entry {
    not_empty: false,
    not_full: true,
    desc: Descriptor {
        dest: 0,
        class: 0,
        source: 0,
    },
};

/// The four bytes of `ROOM` as one number, the first byte lowest.
const ROOM_WORD: u32 = 2;

/// The four bytes of an entry. Where its output is empty its descriptor is zeros.
pub(crate) fn spelled(entry: &Entry) -> [u8; 4]
    requires { IsPlain entry.now }
    ensures { result ≡ entry_bytes entry.now }
{
    [
        flags_byte(entry.not_empty, entry.not_full),
        entry.desc.dest,
        entry.desc.class,
        entry.desc.source,
    ]
}

/// The entry that four bytes show; None where they are outside the grammar.
fn shown(flags: u8, dest: u8, class: u8, source: u8) -> Option<Entry>
    ensures found { IfSome result (λ e. Shows (flags ∷ dest ∷ class ∷ source ∷ []) e × IsPlain e) }
    ensures only { IsNone result → (e : Entry) → Shows (flags ∷ dest ∷ class ∷ source ∷ []) e → ⊥ }
{
    let (not_empty, not_full) = flags_of(flags)?;
    if !not_empty && (dest != 0 || class != 0 || source != 0) {
        return None;
    }
    Some(Entry {
        not_empty,
        not_full,
        desc: Descriptor {
            dest,
            class,
            source,
        },
    })
}

/// Whether four bytes are those of room and no request.
pub(crate) fn is_room(flags: u8, dest: u8, class: u8, source: u8) -> bool
    ensures { result ≡ true → read_entry (flags ∷ dest ∷ class ∷ source ∷ []) ≡ room }
{
    u32::from_le_bytes([flags, dest, class, source]) == ROOM_WORD
}

/// The entry that four bytes are read as: outside the grammar no request and no space.
pub(crate) fn read(flags: u8, dest: u8, class: u8, source: u8) -> Entry
    ensures { result ≡ read_entry (flags ∷ dest ∷ class ∷ source ∷ []) }
{
    match shown(flags, dest, class, source) {
        Some(entry) => entry,
        None => QUIET,
    }
}
