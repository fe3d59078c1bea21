//! Laws of the traces of played runs: the body of each function is empty, and its clause is the law.

ghost use Rattle.audited_runs.specs.Audited.{AnswersFollows, AuditsOfTraces, EndsFollowing, LoadsPlayable, SomeRunIsCalm, TraceFollows};
ghost use Rattle.audited_runs.specs.OneAnswer.{OneAnswer};
ghost use Rattle.audited_runs.specs.Played.{PlaysInputs, PlaysRunFrames};
ghost use Rattle.audited_runs.specs.ReadBack.{ReadsBack};

/// What comes from outside in each cycle of a played run is as the laws over whole runs ask.
pub fn plays_inputs()
    ensures { PlaysInputs }
{}

/// The frames that a trace prints are those of a run, and a line can spell each.
pub fn plays_run_frames()
    ensures { PlaysRunFrames }
{}

/// The text of a trace is read to its frames.
pub fn reads_back()
    ensures { ReadsBack }
{}

/// There is a script without a rejoin that can be played, on a valid table.
pub fn some_run_is_calm()
    ensures { SomeRunIsCalm }
{}

/// The trace of a played run without a rejoin follows for its faulty element, or for none.
pub fn trace_follows()
    ensures { TraceFollows }
{}

/// So that it follows is the one right answer of an audit.
pub fn answers_follows()
    ensures { AnswersFollows }
{}

/// And a call that audits it ends with the line that says so.
pub fn ends_following()
    ensures { EndsFollowing }
{}

/// What a call loads is a script that can be played, on a valid table.
pub fn loads_playable()
    ensures { LoadsPlayable }
{}

/// **What a call of `trace` writes, a call of `audit` answers `follows`.**
pub fn audits_of_traces()
    ensures { AuditsOfTraces }
{}

/// A text has one right answer at most.
pub fn one_answer()
    ensures { OneAnswer }
{}
