//! What is proved of scripts.

ghost use Rattle.std.specs.Prelude.{◌≡◌, ℕ, List, Ok};
ghost use Rattle.script_text.specs.Reading.{Plan, script_of};
ghost use Rattle.script_text.specs.Printing.{IsScript};
ghost use Rattle.script_text.specs.Playable.{IsPlayable};

/// What is read from a text for `n` elements can be played by them: cycles of acts, of edits and of rejoins do
/// not fall, a cycle has at most 80 acts and one rejoin, and each of them names elements and ports that are there.
pub fn what_is_read_can_be_played()
    ensures { (n : ℕ) (bytes : List ℕ) (plan : Plan) → script_of n bytes ≡ Ok plan → IsPlayable n plan }
{}

/// What can be played is a script: it can be printed, and the text is read to it again.
pub fn what_can_be_played_is_a_script()
    ensures { (n : ℕ) (plan : Plan) → IsPlayable n plan → IsScript n plan }
{}
