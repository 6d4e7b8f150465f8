//! The merged module of a linked set, as a definition, and what is so of it.
#![tactic(auto)]

ghost use Rattle.merge_module.specs.Laws.{MergedIsReady, MergedStands, SpelledMerges, MergedIsFormed, MergedHasShape, MergedIsInLine, MergedIsShort};

use merge_dl::{
    lengths_are_given, loader_calls_are_answered, loader_code_is_typed, members_are_searched,
};
use merge_find::searches_are_small;
use merge_start::{generated_code_is_typed, sets_run_as_merged, unused_loader_is_not_called};
use spec_loading::{linked_code_is_there, linked_functions_are_typed, slots_fit};
use wasm_encode::weights_bound_lengths;

/// The merged module of a linked set meets, with the numbers of the set, what the laws of one step and of agreeing runs ask of a module
/// (`sets_run_as_merged`): it has the functions of the members, code for each frame of the loader, and functions that answer the calls of
/// the loader's, and it opens with what the set begins with.
pub fn merged_modules_are_ready()
    ensures { MergedIsReady }
{
    linked_code_is_there();
    linked_functions_are_typed();
    slots_fit();
    unused_loader_is_not_called();
    lengths_are_given();
    members_are_searched();
    loader_calls_are_answered();
}

/// The merged module of a linked set stands for the set: it is valid, it opens under the host names of the set, and its run agrees with that
/// of the loaded set, within what its steps cost. Bytes that spell it merge the set.
pub fn spelled_modules_merge()
    ensures stands { MergedStands }
    ensures merges { SpelledMerges }
{
    linked_code_is_there();
    linked_functions_are_typed();
    slots_fit();
    sets_run_as_merged();
    unused_loader_is_not_called();
    lengths_are_given();
    members_are_searched();
    loader_calls_are_answered();
    generated_code_is_typed();
    loader_code_is_typed();
    searches_are_small();
}

/// The merged module of a linked set has a form that can be written, and imports the host functions of the set alone; it has the planned table
/// and memory, and exports its entry function and the memory. How much there is to write of it is in line with the set, and no section of it is
/// too long to be written, where the set is brief.
pub fn merged_modules_are_formed()
    ensures formed { MergedIsFormed }
    ensures shape { MergedHasShape }
    ensures light { MergedIsInLine }
    ensures short { MergedIsShort }
{
    linked_code_is_there();
    linked_functions_are_typed();
    slots_fit();
    weights_bound_lengths();
    searches_are_small();
}
