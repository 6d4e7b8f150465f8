// Laws of what is promised of what is written, which say nothing of code.
ghost use Rattle.dyl_commands.specs.Laws.{ListingsAreOne, MergedFilesOpen, MergedFilesRun, MergesAreOne, SnapshotsAreOne, TracesAreOne};

use replay_check::runs_have_one_trace;
use spec_reading::reading_answers;
use spec_snapshots::written_contents_are_one;
use wasm_encode::one_shortest_module;

/// The file that a merge wrote is decoded, and its module is valid and opens over the same host functions, where it isn't longer than a file
/// that is run may be; so `exec` of it answers a run, want of memory, or a fault of reading it.
pub fn merged_files_run()
    ensures opens { MergedFilesOpen }
    ensures run { MergedFilesRun }
{
    reading_answers();
}

/// Two merges of one set write the same bytes.
pub fn merges_are_one()
    ensures { MergesAreOne }
{
    one_shortest_module();
}

/// Two snapshots of one set have the same bytes.
pub fn snapshots_are_one()
    ensures { SnapshotsAreOne }
{
    written_contents_are_one();
    one_shortest_module();
}

/// Two listings of one set are one text, and so are two traces of one run.
pub fn texts_are_one()
    ensures listings { ListingsAreOne }
    ensures traces { TracesAreOne }
{
    runs_have_one_trace();
}
