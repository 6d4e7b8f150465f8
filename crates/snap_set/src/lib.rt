//! The snapshot of a linked set after its start-up: a module that begins where the run of the set has just called its entry.
//!
//! `specs/` says of which state it is made, or why there is none; when bytes are a snapshot of a state; and what the snapshot holds.
#![tactic(auto)]

ghost use Rattle.snap_set.specs.Laws.{FirstIsJustStarted, HeldIsSnapshot, OneFirst, PartsCanBeHeld, ReferencesAreKept, SomeFirst, SpelledSnapshot, TablesRefer};

use merge_module::{merged_modules_are_formed, merged_modules_are_ready, spelled_modules_merge};
use spec_keeping::linked_sets_keep;
use spec_loading::{
    linked_code_is_there, linked_functions_are_typed, linked_sets_never_get_stuck,
    linked_sets_step_soundly, opening_store_has_first_values, slots_fit,
};

/// A function that exists in the set is one of the merged module, by its number there.
pub fn references_are_kept()
    ensures { ReferencesAreKept }
{}

/// The merged module with other contents is a snapshot of the state whose parts it holds: it is valid, opens with the memory of the state,
/// begins with the call of the entry, and its run agrees with that of the merged module.
pub fn snapshots_agree()
    ensures { HeldIsSnapshot }
{}

/// Of each start-up one state is the first of which something is to be said, and one thing is said of it: a snapshot is made of it, or why there
/// is none. No more steps lead to it than may be made.
pub fn first_states_are_one()
    ensures one { OneFirst }
    ensures some { SomeFirst }
{
    linked_sets_never_get_stuck();
    linked_sets_step_soundly();
    linked_functions_are_typed();
    linked_sets_keep();
}

/// The first started state has just called the entry of main, by steps that ask nothing.
pub fn first_started_states_have_entered()
    ensures { FirstIsJustStarted }
{
    linked_sets_never_get_stuck();
    linked_sets_step_soundly();
    linked_functions_are_typed();
    linked_sets_keep();
}

/// What a snapshot holds of a state of start-up is the same as what the set has there, and the merged module can hold it: its globals are of
/// their types, its tables and its memory within their maxima, and its segments as they were or empty. The tables refer to functions of the
/// module.
pub fn parts_can_be_held()
    ensures held { PartsCanBeHeld }
    ensures refer { TablesRefer }
{
    linked_code_is_there();
    linked_functions_are_typed();
    slots_fit();
    linked_sets_never_get_stuck();
    linked_sets_keep();
    opening_store_has_first_values();
    merged_modules_are_ready();
    spelled_modules_merge();
}

/// Bytes that spell the snapshot of the first started state are a snapshot of the set.
pub fn spelled_snapshots_are_snapshots()
    ensures { SpelledSnapshot }
{
    merged_modules_are_ready();
    spelled_modules_merge();
    merged_modules_are_formed();
    first_started_states_have_entered();
    parts_can_be_held();
}
