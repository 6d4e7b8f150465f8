//! Several loaded programs that run in turns, one turn at a time: who is next is picked by a callback.
#![tactic(auto)]

ghost use Rattle.slice_board.specs.Laws.{TurnsAreSteps, TurnsLeaveTheOthers, CallsAreFirst, CallsAreTheirs, ProgramsStandAlone, ProgramsRunAsAlone};

mod board;
mod picker;
mod steps;

pub use board::{Board, BoardFault, BoardRefused, Seat};
pub use picker::{Pick, Picker};
pub use spec_boards::{Stop, Turn};
use spec_loading::linked_sets_never_get_stuck;

/// A turn of a program makes real steps of its own run, and stops where it is due; one that is spent made all its steps. What a program has called
/// are the first calls of its own run.
pub fn turns_make_steps()
    ensures steps { TurnsAreSteps }
    ensures others { TurnsLeaveTheOthers }
    ensures first { CallsAreFirst }
{
    linked_sets_never_get_stuck();
}

/// What was answered on a board, in the order of its turns, are the calls of its programs' own runs, each with its answer.
pub fn calls_are_joined()
    ensures { CallsAreTheirs }
{
    linked_sets_never_get_stuck();
}

/// Programs on a board don't see each other: what comes of one of them, over any picks, comes of it as the one program of a board, over as many
/// turns, with the same answers.
pub fn programs_stand_alone()
    ensures { ProgramsStandAlone }
{}

/// A program of a board that doesn't end by the limit of turns makes the run that its set makes alone, within the same limit of steps.
pub fn programs_run_as_alone()
    ensures { ProgramsRunAsAlone }
{}
