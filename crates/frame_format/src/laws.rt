//! Laws of frames: the body of each function is empty, and its clauses are the law.

ghost use Rattle.std.specs.Prelude.{◌≡◌, ◌↔◌, ℕ, List, Some};
ghost use Rattle.ftpp_base.specs.declared.element.Slot.{Slot};
ghost use Rattle.bit_vote.specs.Vote.{Cell};
ghost use Rattle.frame_format.specs.Frames.{IsFrame, decoded, frame_bytes, reads_as};
ghost use Rattle.frame_format.specs.Grammar.{EncodedIsSpelled, GrammarIsDecoded, OneMeaning, OneSpelling, SpelledIsDecoded};

/// What bytes are decoded to is what the grammar says, for each number of elements, round and sender.
pub fn decoded_by_grammar()
    ensures { (n : ℕ) (slot : Slot) (sender : ℕ) (bytes : List ℕ) (cells : List Cell)
        → (decoded n slot sender bytes ≡ Some cells) ↔ IsFrame n slot sender bytes cells }
{}

/// What is read is encoded to the same bytes.
pub fn read_is_written()
    ensures { (n : ℕ) (slot : Slot) (sender : ℕ) (bytes : List ℕ) (cells : List Cell)
        → decoded n slot sender bytes ≡ Some cells → frame_bytes slot sender cells ≡ bytes }
{}

/// What was encoded is read back.
pub fn written_is_read()
    ensures { (n : ℕ) (slot : Slot) (sender : ℕ) (cells : List Cell)
        → IsFrame n slot sender (frame_bytes slot sender cells) cells
        → reads_as n slot sender (frame_bytes slot sender cells) ≡ cells }
{}

/// Reading and writing keep to the grammar, whose definition says field by field which bytes are a frame: bytes are decoded
/// exactly where they are in it, and to the cells that they spell; and cells are encoded to bytes that spell them.
pub fn grammar_of_frames()
    ensures grammar { GrammarIsDecoded }
    ensures decoded { SpelledIsDecoded }
    ensures encoded { EncodedIsSpelled }
{}

/// Cells have one spelling in a slot and of a sender, and bytes spell one frame at most: one slot, one sender and one list of cells.
pub fn one_spelling()
    ensures bytes { OneSpelling }
    ensures frame { OneMeaning }
{}
