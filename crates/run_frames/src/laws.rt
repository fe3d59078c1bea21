//! What holds of the frames of every run: each function here stands for a law, which its clause states, and does nothing.

ghost use Rattle.run_frames.specs.Frames.{FramesExist, SomeTraceFollows};
ghost use Rattle.run_frames.specs.NodeInRun.{NodeInRun};

/// A node whose input is that of an element of a run, fault-free in every cycle, writes the answers of that element's queues
/// and the frames that it sends in the run.
pub fn node_in_run()
    ensures { NodeInRun }
{}

/// For every run there are frames as an audit and the nodes ask for them.
pub fn frames_exist()
    ensures { FramesExist }
{}

/// For every run without a rejoin there is a trace that follows for its faulty element.
pub fn some_trace_follows()
    ensures { SomeTraceFollows }
{}
