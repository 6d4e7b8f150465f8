// Checking a trace.
ghost use Rattle.std.specs.Prelude.{◌≡◌, ◌<◌, length, IfOk};
ghost use Rattle.spec_traces.specs.spec_hosts.spec_runtime.Courses.{no_steps};
ghost use Rattle.run_loaded.specs.Courses.{Origin};
ghost use Rattle.run_loaded.specs.Programs.{recorded_of, IsOf};
ghost use Rattle.replay_check.specs.Checks.{HoldNumbers, Checks};
ghost use Rattle.replay_check.specs.Following.{Compares};
ghost use Rattle.replay_check.specs.Laws.{OneAgreeing, OneTrace, TracesAgree};

use crate::program::Program;
use crate::replay::Replay;
use run_loaded::Loaded;
use spec_traces::spec_hosts::wasm_form::Memory;
use spec_traces::{Trace, TraceFault};
use std::alloc::Global;
use wasm_single::SingleFault;

/// Checks that a trace is that of a run of a program, by making the run again over the recorded answers. `Steps` where it has more than so many
/// steps; else `Single` where the module isn't opened, as `Single::load` answers; else `Differs` where the run isn't that of the trace, with how many
/// calls it agrees. `Memory` where no memory could be had.
pub fn check_trace(alloc: Global, p: &Program, t: &Trace, most: u64) -> Result<(), TraceFault>
    requires few { length t.now.calls < 4294967296 }
    requires steps { t.now.steps < 18446744073709551615 }
    requires numbers { HoldNumbers p.now }
    ensures { Checks p.now t.now most result }
{
    if t.steps > most {
        return Err(TraceFault::Steps);
    }
    match p.load(alloc) {
        Ok(loaded) => match compare(alloc, loaded, t) {
            Ok(None) => Ok(()),
            Ok(Some(call)) => Err(TraceFault::Differs { call }),
            Err(Memory) => Err(TraceFault::Memory),
        },
        Err(SingleFault::Memory) => Err(TraceFault::Memory),
        Err(why) => Err(TraceFault::Single(why)),
    }
}

/// Compares the run of a loaded program with a trace. Where it isn't that of the trace, with how many calls it agrees.
fn compare(alloc: Global, loaded: Loaded, t: &Trace) -> Result<Option<u32>, Memory>
    requires fresh { recorded_of loaded ≡ no_steps }
    requires of { (o : Origin) × IsOf loaded o }
    requires few { length t.now.calls < 4294967296 }
    requires steps { t.now.steps < 18446744073709551615 }
    ensures { IfOk result (λ told. (o : Origin) → IsOf loaded.entry o → Compares o t.now told) }
{
    let mut replay = Replay::new(loaded);
    let told = replay.compare(alloc, t);
    replay.end();
    told
}

/// A run agrees with a trace up to one call, and where it is that of the trace with all of them.
pub fn runs_agree_up_to_one_call()
    ensures one { OneAgreeing }
    ensures whole { TracesAgree }
{}

/// A run that was told so has one trace. So its text either is short enough to be stored or isn't.
pub fn runs_have_one_trace()
    ensures { OneTrace }
{}
