//! Laws of numbers and of delivered packets as bytes. Each function states its laws as its clauses, and
//! does nothing.

ghost use Rattle.std.specs.Prelude.{◌≡◌, ℕ, List, length};
ghost use Rattle.byteorder.specs.Endian.{big_bytes, big_number};
ghost use Rattle.packet_format.specs.declared.Delivered.{Delivered};
ghost use Rattle.packet_format.specs.Numbers.{AreBytes, two_bytes, four_bytes, number_from};
ghost use Rattle.packet_format.specs.Packets.{IsDelivered};

/// Two and four bytes are the bytes of the number that they spell. `byteorder` writes the same bytes for
/// a number, and reads the same number.
pub fn numbers_as_bytes()
    ensures two_back { (bytes : List ℕ) → length bytes ≡ 2 → AreBytes bytes → two_bytes (number_from bytes) ≡ bytes }
    ensures four_back { (bytes : List ℕ) → length bytes ≡ 4 → AreBytes bytes → four_bytes (number_from bytes) ≡ bytes }
    ensures two_written { (n : ℕ) → big_bytes 2 n ≡ two_bytes n }
    ensures four_written { (n : ℕ) → big_bytes 4 n ≡ four_bytes n }
    ensures two_read { (bytes : List ℕ) → length bytes ≡ 2 → big_number 2 bytes ≡ number_from bytes }
    ensures four_read { (bytes : List ℕ) → length bytes ≡ 4 → big_number 4 bytes ≡ number_from bytes }
{}

/// A delivered packet has one spelling, and bytes spell at most one packet. So what is read is encoded to
/// the same bytes, and what was encoded is read back.
pub fn one_spelling()
    ensures bytes { (xs ys : List ℕ) (d : Delivered) → IsDelivered xs d → IsDelivered ys d → xs ≡ ys }
    ensures packet { (xs : List ℕ) (d e : Delivered) → IsDelivered xs d → IsDelivered xs e → d ≡ e }
{}
