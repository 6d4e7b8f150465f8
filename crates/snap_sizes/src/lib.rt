//! How long a snapshot is: no section of it is too long to be written, where there isn't much of the set and of its tables.
#![tactic(auto)]

ghost use Rattle.snap_sizes.specs.Laws.{SnapshotIsShort};

use merge_module::merged_modules_are_formed;
use snap_set::parts_can_be_held;
use spec_keeping::linked_sets_keep;
use spec_loading::{linked_code_is_there, linked_functions_are_typed, slots_fit};
use wasm_encode::weights_bound_lengths;

/// The sections of a snapshot take fewer than 2^32 bytes each, where so do 512 times the bytes of the set's files and names and 8 for each entry
/// of its tables, and the host table brings few types of its own.
pub fn snapshots_are_short()
    ensures { SnapshotIsShort }
{
    linked_code_is_there();
    linked_functions_are_typed();
    slots_fit();
    weights_bound_lengths();
    merged_modules_are_formed();
    parts_can_be_held();
    linked_sets_keep();
}
