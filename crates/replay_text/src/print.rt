// The text of a trace printed.
ghost use Rattle.std.specs.Prelude.{◌≡◌, ◌++◌, ◌∷◌, [], map, flat_map, codes, decimal, IfOk, OnOk};
ghost use Rattle.dyl_print.specs.Printed.{escaped, bytes_word};
ghost use Rattle.spec_traces.specs.Texts.{run_end, spaced, put_line, answer_lines, call_line, call_lines, end_line, trace_text};
ghost use Rattle.spec_traces.specs.Lines.{text_of};

use dyl_print::{put_bytes, put_end, put_escaped, put_number, put_text};
use spec_traces::spec_hosts::RunEnd;
use spec_traces::spec_hosts::wasm_form::{Answer, Memory, Write};
use spec_traces::{Trace, TraceCall, TraceEnd};
use std::alloc::Global;

/// The end of a run that is told.
fn run_end(end: TraceEnd) -> RunEnd
    ensures { result ≡ run_end end }
{
    match end {
        TraceEnd::Return => RunEnd::Return,
        TraceEnd::Exit(code) => RunEnd::Exit(code),
        TraceEnd::Trap(trap) => RunEnd::Trap(trap),
        TraceEnd::StepLimit => RunEnd::StepLimit,
        TraceEnd::DepthLimit => RunEnd::DepthLimit,
        TraceEnd::HostCallLimit => RunEnd::HostCallLimit,
    }
}

/// Puts a space and a number.
fn put_spaced(alloc: Global, n: u64, to: &mut Vec<u8>) -> Result<(), Memory>
    ensures { OnOk result (to.new.items ≡ to.old.items ++ spaced (decimal n ∷ [])) }
{
    put_text(" ", to)?;
    put_number(alloc, n, to)
}

/// Puts a space and a name.
fn put_name(name: &str, to: &mut Vec<u8>) -> Result<(), Memory>
    ensures { OnOk result (to.new.items ≡ to.old.items ++ spaced (escaped name.now ∷ [])) }
{
    put_text(" ", to)?;
    put_escaped(name, to)
}

/// Puts numbers, each behind a space.
fn put_numbers(alloc: Global, numbers: &[u64], to: &mut Vec<u8>) -> Result<(), Memory>
    ensures { OnOk result (to.new.items ≡ to.old.items ++ spaced (map decimal numbers.now)) }
{
    for n in numbers {
        put_spaced(alloc, *n, to)?;
    }
    Ok(())
}

/// Puts the line of a host call.
fn put_call_line(alloc: Global, call: &TraceCall, to: &mut Vec<u8>) -> Result<(), Memory>
    ensures { OnOk result (to.new.items ≡ to.old.items ++ text_of (call_line call.now ∷ [])) }
{
    put_text("call", to)?;
    put_spaced(alloc, call.steps, to)?;
    put_name(call.module.as_str(), to)?;
    put_name(call.name.as_str(), to)?;
    put_numbers(alloc, call.args.items(), to)?;
    put_text("\n", to)
}

/// Puts the line of a write.
fn put_write(alloc: Global, write: &Write, to: &mut Vec<u8>) -> Result<(), Memory>
    ensures { OnOk result (to.new.items ≡ to.old.items ++ text_of (put_line write.now ∷ [])) }
{
    put_text("put", to)?;
    put_spaced(alloc, u64::from(write.at), to)?;
    put_text(" ", to)?;
    put_bytes(write.bytes.items(), to)?;
    put_text("\n", to)
}

/// Puts the lines of writes.
fn put_writes(alloc: Global, writes: &[Write], to: &mut Vec<u8>) -> Result<(), Memory>
    ensures { OnOk result (to.new.items ≡ to.old.items ++ text_of (map put_line writes.now)) }
{
    for write in writes {
        put_write(alloc, write, to)?;
    }
    Ok(())
}

/// Puts the line of results.
fn put_results(alloc: Global, results: &[u64], to: &mut Vec<u8>) -> Result<(), Memory>
    ensures { OnOk result (to.new.items ≡ to.old.items ++ text_of ((codes "reply" ++ spaced (map decimal results.now)) ∷ [])) }
{
    put_text("reply", to)?;
    put_numbers(alloc, results, to)?;
    put_text("\n", to)
}

/// Puts the line of an exit.
fn put_exit(alloc: Global, code: u32, to: &mut Vec<u8>) -> Result<(), Memory>
    ensures { OnOk result (to.new.items ≡ to.old.items ++ text_of ((codes "exit" ++ spaced (decimal code ∷ [])) ∷ [])) }
{
    put_text("exit", to)?;
    put_spaced(alloc, u64::from(code), to)?;
    put_text("\n", to)
}

/// Puts the lines of an answer.
fn put_answer(alloc: Global, answer: &Answer, to: &mut Vec<u8>) -> Result<(), Memory>
    ensures { OnOk result (to.new.items ≡ to.old.items ++ text_of (answer_lines answer.now)) }
{
    match answer {
        Answer::Reply { results, writes } => {
            put_writes(alloc, writes.items(), to)?;
            put_results(alloc, results.items(), to)
        }
        Answer::Exit(code) => put_exit(alloc, *code, to),
    }
}

/// Puts the lines of a host call.
fn put_call(alloc: Global, call: &TraceCall, to: &mut Vec<u8>) -> Result<(), Memory>
    ensures { OnOk result (to.new.items ≡ to.old.items ++ text_of (call_lines call.now)) }
{
    put_call_line(alloc, call, to)?;
    put_answer(alloc, &call.answer, to)
}

/// Puts the lines of host calls.
fn put_calls(alloc: Global, calls: &[TraceCall], to: &mut Vec<u8>) -> Result<(), Memory>
    ensures { OnOk result (to.new.items ≡ to.old.items ++ text_of (flat_map call_lines calls.now)) }
{
    for call in calls {
        put_call(alloc, call, to)?;
    }
    Ok(())
}

/// Puts the last line.
fn put_end_line(alloc: Global, trace: &Trace, to: &mut Vec<u8>) -> Result<(), Memory>
    ensures { OnOk result (to.new.items ≡ to.old.items ++ text_of (end_line trace.now ∷ [])) }
{
    put_text("end", to)?;
    put_spaced(alloc, trace.steps, to)?;
    put_text(" ", to)?;
    put_end(alloc, run_end(trace.end), to)?;
    put_text("\n", to)
}

/// The text of a trace. `Memory` where no memory could be had.
pub fn print_trace(alloc: Global, t: &Trace) -> Result<Vec<u8>, Memory>
    ensures { IfOk result (λ bytes. bytes.items ≡ trace_text t.now) }
{
    let mut bytes = Vec::new(alloc);
    put_text("trace 1\n", &mut bytes)?;
    put_calls(alloc, t.calls.items(), &mut bytes)?;
    put_end_line(alloc, t, &mut bytes)?;
    Ok(bytes)
}
