//! The flags of a port as one byte.

ghost use Rattle.std.specs.Prelude.{⊤, ◌≡◌, ◌<◌, ◌+◌, [], ◌∷◌, codes, IsSome, IfSome, ◌↔◌, if◌then◌else◌};

use bitflags::{Flag, Flags, bitflag_items};

/// The flags of a port.
#[derive(Clone, Copy, PartialEq, Eq, Debug)]
pub struct PortFlags(u8);

bitflag_items! {
    impl PortFlags: u8 {
        const NOT_EMPTY = 1;
        const NOT_FULL = 2;
    }
}

impl Flags for PortFlags {
    type Bits = u8;

    ghost exact = { ⊤ };

    ghost table = { (codes "NOT_EMPTY", 1) ∷ (codes "NOT_FULL", 2) ∷ [] };

    ghost set_of = { λ p. p.0 };

    fn flags<'a>() -> &'a [Flag<PortFlags>] {
        PortFlags::FLAGS
    }

    fn bits(&self) -> u8 {
        self.0
    }

    fn from_bits_retain(bits: u8) -> PortFlags {
        PortFlags(bits)
    }
}

/// The byte of a port's flags: output not empty, input not full.
pub fn flags_byte(not_empty: bool, not_full: bool) -> u8
    ensures { result ≡ (if not_empty then 1 else 0) + (if not_full then 2 else 0) }
{
    let mut flags = PortFlags::from_bits_retain(0);
    if not_empty {
        flags.insert(PortFlags::NOT_EMPTY);
    }
    if not_full {
        flags.insert(PortFlags::NOT_FULL);
    }
    flags.bits()
}

/// The flags of a byte, output not empty and input not full; None where other bits are set.
pub fn flags_of(byte: u8) -> Option<(bool, bool)>
    ensures known { IsSome result ↔ (byte < 4) }
    ensures flags { IfSome result (λ f. byte ≡ (if f.0 then 1 else 0) + (if f.1 then 2 else 0)) }
{
    let Some(flags) = PortFlags::from_bits(byte) else {
        return None;
    };
    let not_empty = flags.contains(PortFlags::NOT_EMPTY);
    let not_full = flags.contains(PortFlags::NOT_FULL);
    Some((not_empty, not_full))
}
