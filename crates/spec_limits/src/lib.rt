//! What limits the run of a merged module needs, to end as the run of its set does.
#![tactic(auto)]

ghost use Rattle.spec_limits.specs.Ending.{MergedRunsEndAlike};
ghost use Rattle.spec_limits.specs.SameRuns.{MergedRunsDoTheSame, MergedRunsToItsEnd, SetRunsDoTheSame, SetRunsToItsEnd};

pub use spec_hosts;
pub use spec_loading;

/// Where the run of a linked set ends by itself, with room for few activations, the run of a module that merges it ends so too under the
/// same answers, within the limits of a running interpreter, if it may make as many steps as those of the set cost, and one.
pub fn merged_runs_end_alike()
    ensures { MergedRunsEndAlike }
{}

/// The merged module of a linked set does what the set does, and the set what the module does: over the same answers, if one of them ends by
/// itself, and neither is ended by its limit of steps or one of depth, they end alike, with the same host calls, the same memory, and the same
/// changes of every device. Where the set ends by itself a run of the module does so within the limits that `merged_runs_end_alike` names; where
/// the module does, a run of the set that may make enough steps, and meets no limit of depth.
pub fn merged_runs_do_the_same()
    ensures merged { MergedRunsDoTheSame }
    ensures set { SetRunsDoTheSame }
    ensures merged_ends { MergedRunsToItsEnd }
    ensures set_ends { SetRunsToItsEnd }
{}
