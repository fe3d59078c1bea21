//! A row of calls to any chooser.

ghost use Rattle.std.specs.Prelude.{◌≡◌, length};

use crate::Chooser;
use ftpp_base::VidSet;

/// A call to a chooser.
#[derive(Clone, Copy, Debug)]
pub enum ChoiceCall {
    /// Holds a group since a cycle.
    Set { vid: u8, since: u32 },
    /// Holds a group no longer.
    Clear { vid: u8 },
    /// Asks for the oldest held group of a set.
    Oldest { eligible: VidSet },
}

ghost use Rattle.sender_choice.specs.Calls.{held_after, held_after_all, MayCall, MayCallAll, IsAnswer, AreAnswers};

/// Makes the calls in order. `out` has one answer for each, None for `Set` and `Clear`.
pub fn drive<C: Chooser>(chooser: &mut C, calls: &[ChoiceCall], out: &mut [Option<(u8, u32)>])
    requires room { MayCallAll (C.held chooser.old) calls.now }
    requires width { length out.old ≡ length calls.now }
    ensures held { C.held chooser.new ≡ held_after_all (C.held chooser.old) calls.now }
    ensures answers { AreAnswers (C.held chooser.old) calls.now out.new }
{
    for (place, call) in calls.iter().enumerate() {
        out[place] = answer(chooser, call);
    }
}

/// Makes one call.
fn answer<C: Chooser>(chooser: &mut C, call: &ChoiceCall) -> Option<(u8, u32)>
    requires room { MayCall (C.held chooser.old) call.now }
    ensures held { C.held chooser.new ≡ held_after (C.held chooser.old) call.now }
    ensures answer { IsAnswer (C.held chooser.old) call.now result }
{
    match call {
        ChoiceCall::Set { vid, since } => {
            chooser.set(*vid, *since);
            None
        }
        ChoiceCall::Clear { vid } => {
            chooser.clear(*vid);
            None
        }
        ChoiceCall::Oldest { eligible } => chooser.oldest(eligible),
    }
}
