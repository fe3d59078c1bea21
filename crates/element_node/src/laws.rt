//! What holds of the definitions of a node: each function here stands for a law, which its clause states, and does nothing.

ghost use Rattle.element_node.specs.Whole.{SpelledIsWhole};

/// An input that is spelled from acts and frames is whole, and what a node writes for it are the answers to these acts and
/// the frames of the element that takes these frames.
pub fn spelled_is_whole()
    ensures { SpelledIsWhole }
{}
