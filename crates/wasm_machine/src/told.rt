// What is told of a run by where its machine stands, and of the values of its types.
ghost use Rattle.std.specs.Prelude.{◌≡◌, ◌<◌, ◌^◌, All, true, IfOk, OnErr};
ghost use Rattle.spec_safety.specs.ValueTypes.{AreBytes, IsOfBytes};
ghost use Rattle.spec_safety.specs.SoundModules.{HoldsBytes};
ghost use Rattle.wasm_form.specs.declared.runtime.Write.{Write as WriteSeen};
ghost use Rattle.wasm_form.specs.declared.module.Data.{Data as DataSeen};
ghost use Rattle.wasm_machine.specs.Steps.{event_of, steps_told, stands_told, is_wait, AreNumbers};

use crate::event::Event;
use crate::machine::Standing;
use std::alloc::Global;
use wasm_form::{Answer, Asked, Data, List, Memory, Module, Write};

/// What is told of how a run stands after an answer, and of an end again.
pub fn event_of(standing: Standing) -> Event
    ensures { result ≡ event_of standing }
{
    match standing {
        Standing::Returned => Event::Returned,
        Standing::Trapped(trap) => Event::Trapped(trap),
        Standing::Exited(code) => Event::Exited(code),
        Standing::Moving | Standing::Asking(..) | Standing::Loading | Standing::Lost =>
            Event::Moved,
    }
}

/// How a run stands that was asked for a step, by what is told of it: a copy, but of `Deep`, which leaves the run going on. `Memory` where no
/// memory could be had, which is only for the arguments of a call.
pub fn stands_told(alloc: Global, event: &Event) -> Result<Event, Memory>
    ensures stands { IfOk result (λ e. e ≡ stands_told event.now) }
    ensures wanting { OnErr result (is_wait event.now ≡ true) }
{
    match event {
        Event::Waits(asked) => {
            let args = Vec::from_slice(alloc, asked.args.items())?;
            Ok(Event::Waits(Asked {
                entry: asked.entry,
                args: List::of(args),
            }))
        }
        Event::Loader {
            call,
            first,
            second,
        } => Ok(Event::Loader {
            call: *call,
            first: *first,
            second: *second,
        }),
        Event::Marked(tag) => Ok(Event::Marked(*tag)),
        Event::Returned => Ok(Event::Returned),
        Event::Trapped(trap) => Ok(Event::Trapped(*trap)),
        Event::Exited(code) => Ok(Event::Exited(*code)),
        Event::Moved | Event::Deep => Ok(Event::Moved),
    }
}

/// How many steps were made where this is told of a run that goes on by itself.
pub fn steps_told(event: &Event) -> u64
    ensures { result ≡ steps_told event.now }
{
    match event {
        Event::Deep => 0,
        _ => 1,
    }
}

/// Numbers of 64 bits are in their range.
fn are_in_range(numbers: &[u64])
    ensures { All (λ n. n < 2 ^ 64) numbers.now }
{}

/// The arguments of a call that is told are numbers of 64 bits.
pub fn are_numbers(event: &Event)
    ensures { AreNumbers event.now }
{
    if let Event::Waits(asked) = event {
        are_in_range(asked.args.items());
    }
}

/// Bytes are in their range.
fn are_bytes(bytes: &[u8])
    ensures { AreBytes bytes.now }
{}

/// Writes are of bytes.
fn write_bytes(writes: &[Write])
    ensures { All (λ (w : WriteSeen). AreBytes w.bytes) writes.now }
{
    for write in writes {
        are_bytes(write.bytes.items());
    }
}

/// Data segments are of bytes.
fn hold_bytes(datas: &[Data])
    ensures { All (λ (d : DataSeen). AreBytes d.bytes) datas.now }
{
    for data in datas {
        are_bytes(data.bytes.items());
    }
}

/// The writes of an answer are of bytes.
pub fn is_of_bytes(a: &Answer)
    ensures { IsOfBytes a.now }
{
    if let Answer::Reply { writes, .. } = a {
        write_bytes(writes.items());
    }
}

/// The data segments of a module are of bytes.
pub fn holds_bytes(m: &Module)
    ensures { HoldsBytes m.now }
{
    hold_bytes(m.datas.items());
}
