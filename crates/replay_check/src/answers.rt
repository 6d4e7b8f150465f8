// The host calls of a trace and their answers.
ghost use Rattle.std.specs.Prelude.{◌≡◌, length, Decides};
ghost use Rattle.spec_traces.specs.spec_hosts.spec_runtime.Memories.{MemoryInstance};
ghost use Rattle.spec_traces.specs.spec_hosts.spec_runtime.Hosts.{number_fits, numbers_fit, writes_fit, fits_results};

use dyl_link::host_table::HostName;
use spec_traces::TraceCall;
use spec_traces::spec_hosts::wasm_form::{Answer, ValType, Write};
use wasm_machine::Asked;
use wasm_space::Space;

// The bytes of a page.
const PAGE: usize = 65_536;

/// Whether a call of a trace is what a host function is asked.
pub(crate) fn is_call(host: &HostName, asked: &Asked, call: &TraceCall) -> bool
    ensures { Decides result ((host.now.module ≡ call.now.module) × (host.now.name ≡ call.now.name) × (asked.now.args ≡ call.now.args)) }
{
    host.module.as_str() == call.module.as_str()
        && host.name.as_str() == call.name.as_str()
        && asked.args.items() == call.args.items()
}

/// Whether an answer has results of these types, and writes inside a memory.
pub(crate) fn fits(answer: &Answer, types: &[ValType], memory: &Space) -> bool
    ensures { result ≡ fits_results types.now memory.now answer.now }
{
    match answer {
        Answer::Reply { results, writes } => {
            numbers_fit(types, results.items())
                && writes_fit(writes.items(), memory.size() as usize * PAGE)
        }
        Answer::Exit(_) => true,
    }
}

/// Whether a number is one of an integer type.
fn number_fits(ty: ValType, n: u64) -> bool
    ensures { result ≡ number_fits ty n }
{
    match ty {
        ValType::I32 => n <= u32::MAX as u64,
        ValType::I64 => true,
        ValType::F32 | ValType::F64 | ValType::FuncRef | ValType::ExternRef => false,
    }
}

/// Whether there are as many numbers as types, each of its type.
fn numbers_fit(types: &[ValType], numbers: &[u64]) -> bool
    ensures { result ≡ numbers_fit types.now numbers.now }
{
    if types.len() != numbers.len() {
        return false;
    }
    for (k, ty) in types.iter().enumerate() {
        if !number_fits(*ty, numbers[k]) {
            return false;
        }
    }
    true
}

/// Whether each write lies inside a memory of so many bytes.
fn writes_fit(writes: &[Write], size: usize) -> bool
    ensures { (memory : MemoryInstance) → length memory.bytes ≡ size → result ≡ writes_fit writes.now memory }
{
    for write in writes {
        let len = write.bytes.items().len();
        if len > size || write.at as usize > size - len {
            return false;
        }
    }
    true
}
