// What came of a step.
ghost use Rattle.std.specs.Prelude.{◌≡◌};
ghost use Rattle.run_loaded.specs.Events.{end_by, asked_by};

use spec_hosts::RunEnd;
use wasm_machine::{Asked, Event};

/// The end that a step came to, if it came to one. A call of the loader and a mark are never told of a run.
pub fn end_by(event: &Event) -> Option<RunEnd>
    ensures { result ≡ end_by event.now }
{
    match event {
        Event::Returned => Some(RunEnd::Return),
        Event::Trapped(trap) => Some(RunEnd::Trap(*trap)),
        Event::Exited(code) => Some(RunEnd::Exit(*code)),
        Event::Deep => Some(RunEnd::DepthLimit),
        Event::Moved | Event::Waits(_) | Event::Loader { .. } | Event::Marked(_) => None,
    }
}

/// The host call that a run waits for after a step, if it waits.
pub fn asked_by(event: Event) -> Option<Asked>
    ensures { result ≡ asked_by event }
{
    match event {
        Event::Waits(asked) => Some(asked),
        _ => None,
    }
}
