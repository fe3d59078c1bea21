//! Why a line of a script is refused.

ghost use Rattle.std.specs.Prelude.{◌≡◌};
ghost use Rattle.script_words.specs.Refusals.{refused_code};

/// The first test that a line of a script fails.
#[derive(Clone, Copy, Debug, PartialEq, Eq)]
pub enum Refused {
    /// The keywords and the number of words match no form.
    NoForm,
    /// No line of cycles came before, or this is a second one.
    CyclesLine,
    /// A number, or the bits of a flip, is malformed or out of its range.
    Number,
    /// The cycle is not in the run, or before that of the line before.
    Cycle,
    /// The processor is malformed or not there.
    Processor,
    /// The bytes of a packet or of a frame are malformed.
    Bytes,
    /// A line of the faulty element that may not stand here, or an edit while no element is faulty.
    FaultyLine,
    /// The round or the receiver of an edit is unknown.
    RoundOrReceiver,
    /// One post or read more than a cycle may have.
    TooManyActs,
    /// The input ended without a line of cycles.
    NoCycles,
    /// A rejoin that may not stand here.
    Rejoin,
}

impl Refused {
    /// The number of the test: 1 to 10 or 15.
    pub fn code(self) -> u8
        ensures { result ≡ refused_code self }
    {
        match self {
            Refused::NoForm => 1,
            Refused::CyclesLine => 2,
            Refused::Number => 3,
            Refused::Cycle => 4,
            Refused::Processor => 5,
            Refused::Bytes => 6,
            Refused::FaultyLine => 7,
            Refused::RoundOrReceiver => 8,
            Refused::TooManyActs => 9,
            Refused::NoCycles => 10,
            Refused::Rejoin => 15,
        }
    }
}
