// Laws of what is promised of a trace that was written, which say nothing of code.
ghost use Rattle.replay_commands.specs.Laws.{TracesAreReplayed, ReplaysAreDone};

/// Where a trace was written at a path at which no file of the program is sought, its replay is done with the same options and as many steps;
/// so `replay` answers that or want of memory, where no read fails.
pub fn traces_are_replayed()
    ensures due { TracesAreReplayed }
    ensures done { ReplaysAreDone }
{}
