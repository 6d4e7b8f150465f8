//! What the run of a linked set keeps: the maxima of its tables and of its memory, and each segment that isn't dropped.
#![tactic(auto)]

ghost use Rattle.spec_keeping.specs.Keeping.{SetRunKeeps};

/// At each state of the run of a linked set there are as many globals and tables as at first, the tables and the memory have their first
/// maxima, and each segment is what it was, or empty.
pub fn linked_sets_keep()
    ensures { SetRunKeeps }
{}
