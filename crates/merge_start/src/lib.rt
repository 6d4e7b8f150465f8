//! The code that a merged module has for the loader's work, its runs by the definition of code steps, and the law of one step for the
//! frames of the loader.
//!
//! `specs/` has the words of the code, what runs of pieces of code are, what a merged module must have for it, and the points of it that
//! stand for the loader's frames.
#![tactic(auto)]

mod functions;
mod numbers;
mod openings;
mod part;
mod passive;
mod phases;
mod segments;
mod words;

ghost use Rattle.merge_start.specs.Laws.{FramesStepAsMerged, MatchedRunsAgree, MembersOpenAsMerged, MembersPromoteAsMerged, OtherRunsAgree, PlacingIsDone, SameCodeIsReady, SetsRunAsMerged, SetsRunWithin, SetsStepAsMerged, SetsStepAsOthers, SetsStepWithin, UnusedIsAnswered};
ghost use Rattle.merge_start.specs.Typed.{GeneratedIsTyped};

pub use functions::phase_functions;
pub use numbers::StartNumbers;
pub use openings::{entry_function, open_functions};
pub use passive::{PassiveParts, passive_parts};

/// The code that places a member leaves the store and the memory that the loader's placing leaves, where a trap ends both too.
pub fn generated_code_places()
    ensures { PlacingIsDone }
{}

/// A frame of the loader on top of the call stack steps as the generated code does that stands for it: a task, the call of the entry, the
/// answer of a handle, alone or with the closure of the member promoted.
pub fn frames_step_as_merged()
    ensures { FramesStepAsMerged }
{}

/// The call of the function that opens a member leads to what stands for the frame of the loader that opens it, for itself or so that its
/// closure is promoted.
pub fn members_open_as_merged()
    ensures opens { MembersOpenAsMerged }
    ensures promotes { MembersPromoteAsMerged }
{}

/// Where no member uses the loader, a call of one of its functions has no step, in the set or in the module.
pub fn unused_loader_is_not_called()
    ensures { UnusedIsAnswered }
{}

/// A linked set steps as its merged module does, where this answers calls of the loader's functions as the set does; the two runs agree from
/// any two matching states, and from the opening states on. What a step of the set costs bounds the steps of the module, and the call stack of
/// the module is at most as deep as the set has room for.
pub fn sets_run_as_merged()
    ensures step { SetsStepAsMerged }
    ensures costs { SetsStepWithin }
    ensures matched { MatchedRunsAgree }
    ensures runs { SetsRunAsMerged }
    ensures within { SetsRunWithin }
{}

/// Both laws ask of the merged module only what its types, imports, functions and bodies say. So they hold of each module that has these,
/// whatever else it has: the set steps as that module does, and the two runs agree from any two matching states.
pub fn same_code_runs_alike()
    ensures premises { SameCodeIsReady }
    ensures step { SetsStepAsOthers }
    ensures runs { OtherRunsAgree }
{}

/// The generated code is well typed (WebAssembly Core 2.0, section 3.3), where the module has what it names.
pub fn generated_code_is_typed()
    ensures { GeneratedIsTyped }
{}
