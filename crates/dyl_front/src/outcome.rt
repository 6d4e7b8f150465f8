// What a call of the program comes to.
ghost use Rattle.std.specs.Prelude.{◌≡◌, []};
ghost use Rattle.dyl_front.specs.Status.{end_status, board_status, status_of};

use dyl_gen::GenFault;
use spec_boards::BoardRan;
use spec_linking::spec_execution::SingleFault;
use spec_linking::{LinkFault, SetFault};
use spec_merging::MergeFault;
use spec_merging::wasm_form::List;
use spec_snapshots::SnapFault;
use spec_traces::TraceFault;
use spec_traces::spec_hosts::{Ran, RunEnd};
use std::alloc::Global;

/// An option that has a value, or the number of a generated set.
#[derive(Clone, Copy, Debug, PartialEq, Eq)]
pub enum Opt {
    /// Names of modules that may be opened later, between commas.
    Dl,
    /// Directories to search, between colons.
    Path,
    /// The most pages of memory.
    Pages,
    /// The bytes of the stack.
    Stack,
    /// The most steps of a run.
    Steps,
    /// The most steps of a turn.
    Slice,
    /// The most turns of a board.
    Turns,
    /// The number of a generated set.
    N,
}

/// What is wrong with the words.
#[derive(Clone, Copy, Debug, PartialEq, Eq)]
pub enum UsageKind {
    /// There is no command.
    NoCommand,
    /// There is no such command.
    UnknownCommand,
    /// The words after the command are none that it takes.
    Words,
    /// The value is no number in the range of its option.
    Number(Opt),
    /// An item of the list is empty.
    Name(Opt),
}

/// The answer of `serve`.
#[derive(Drop)]
pub enum Outcome {
    /// The command is done. For `gen` the list has the run of the loaded set and then that of the merged module; for others it is empty.
    Done(List<Ran>),
    /// The module was run.
    Ran(Ran),
    /// The sets were run in turns.
    Board(BoardRan),
    /// The words are no order.
    Usage(UsageKind),
    /// The order's files are no closed set. The fault is never `Memory`, nor is the fault of a member that it carries.
    Set(SetFault),
    /// The set does not link. The fault is never `Memory`.
    Link(LinkFault),
    /// The merged module isn't written. The fault is never `Memory`.
    Merge(MergeFault),
    /// The module is not run. The fault is never `Memory`.
    Single(SingleFault),
    /// No set is made. The fault is never `Memory`.
    Gen(GenFault),
    /// The trace is not that of a run. The fault is never `Memory` nor that of a module that isn't run: these are outcomes of their own.
    Trace(TraceFault),
    /// The module was run, and the text of the run's trace, which isn't written, would have more than 67,108,864 bytes.
    TooLong(Ran),
    /// There is no snapshot of the set. The fault is never `Memory`.
    Snap(SnapFault),
    /// The output could not be written.
    WriteFault,
    /// No memory could be had.
    Memory,
}

impl Outcome {
    /// That a command is done which makes no runs of its own.
    pub fn done(alloc: Global) -> Outcome
        ensures { result ≡ Outcome.Done [] }
    {
        Outcome::Done(List::of(Vec::new(alloc)))
    }
}

/// The exit status of a run by its end: that of a shell's `timeout` where steps are used up, and of a process that aborted where it
/// trapped.
fn end_status(end: RunEnd) -> u8
    ensures { result ≡ end_status end }
{
    match end {
        RunEnd::Return => 0,
        RunEnd::Exit(code) => (code % 256) as u8,
        RunEnd::StepLimit | RunEnd::TurnLimit => 124,
        RunEnd::DepthLimit => 125,
        RunEnd::HostCallLimit => 126,
        RunEnd::Trap(_) => 134,
    }
}

/// The exit status of a board: that of the first program whose own isn't 0.
fn board_status(runs: &[Ran]) -> u8
    ensures { result ≡ board_status runs.now }
{
    for run in runs {
        let status = end_status(run.end);
        if status != 0 {
            return status;
        }
    }
    0
}

/// The exit status of an outcome, by sysexits.h where that has one.
pub fn status(outcome: &Outcome) -> u8
    ensures { result ≡ status_of outcome.now }
{
    match outcome {
        Outcome::Done(_) => 0,
        Outcome::Ran(ran) => end_status(ran.end),
        Outcome::Board(board) => board_status(board.runs.items()),
        Outcome::Usage(_) => 64,
        Outcome::Set(SetFault::ReadFault { .. }) => 66,
        Outcome::Set(_)
        | Outcome::Link(_)
        | Outcome::Merge(_)
        | Outcome::Single(_)
        | Outcome::Gen(_)
        | Outcome::Trace(_)
        | Outcome::TooLong(_)
        | Outcome::Snap(_) => 65,
        Outcome::Memory => 71,
        Outcome::WriteFault => 74,
    }
}
