// The ends of runs and of traces.
ghost use Rattle.std.specs.Prelude.{◌≡◌, Some, Decides};
ghost use Rattle.spec_traces.specs.Texts.{run_end};
ghost use Rattle.replay_check.specs.Following.{is_deep};

use spec_traces::TraceEnd;
use spec_traces::spec_hosts::RunEnd;
use wasm_machine::Event;

/// Whether a step would be too deep.
pub(crate) fn is_deep(event: &Event) -> bool
    ensures { result ≡ is_deep event.now }
{
    matches!(event, Event::Deep)
}

/// Whether the end that a run has come to is that of a trace.
pub(crate) fn is_told(end: TraceEnd, told: Option<RunEnd>) -> bool
    ensures { Decides result (told ≡ Some (run_end end)) }
{
    let Some(told) = told else {
        return false;
    };
    match end {
        TraceEnd::Return => matches!(told, RunEnd::Return),
        TraceEnd::Exit(code) => matches!(told, RunEnd::Exit(other) if other == code),
        TraceEnd::Trap(why) => matches!(told, RunEnd::Trap(other) if other == why),
        TraceEnd::StepLimit => matches!(told, RunEnd::StepLimit),
        TraceEnd::DepthLimit => matches!(told, RunEnd::DepthLimit),
        TraceEnd::HostCallLimit => matches!(told, RunEnd::HostCallLimit),
    }
}
