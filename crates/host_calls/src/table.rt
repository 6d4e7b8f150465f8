// A call of a function of the table.
ghost use Rattle.std.specs.Prelude.{◌≡◌, false, Some, bytes_eq, IfOk, IsTrue};
ghost use Rattle.spec_hosts.specs.spec_runtime.Names.{host_match, Fits};
ghost use Rattle.spec_hosts.specs.spec_runtime.Hosts.{numbers_fit, answer_fits};
ghost use Rattle.spec_hosts.specs.Calls.{wasi_name};
ghost use Rattle.host_table.specs.Table.{entry_number};
ghost use Rattle.host_calls.specs.Replies.{answer_of, HasType};
ghost use Rattle.host_calls.specs.Embedders.{names_of, answers_of, call_of};

use host_table::{HostName, HostTable, Reply};
use host_wasi::little_bytes;
use spec_hosts::names_have_their_types;
use spec_hosts::wasm_form::{Answer, Asked, FuncType, List, Memory, Write};
use std::alloc::Global;
use wasm_space::Space;

/// The answer of a reply of a function of this type.
fn answer_of(alloc: Global, ty: &FuncType, reply: Reply) -> Result<Answer, Memory>
    ensures { IfOk result (λ a. a ≡ answer_of ty.now reply) }
{
    let mut results = Vec::new(alloc);
    if !ty.results.items().is_empty() {
        results.push(reply.result)?;
    }
    let mut writes = Vec::new(alloc);
    if let Some(put) = reply.put {
        let bytes = little_bytes(alloc, put.len, put.bytes)?;
        writes.push(Write {
            at: put.at,
            bytes: List::of(bytes),
        })?;
    }
    Ok(Answer::Reply {
        results: List::of(results),
        writes: List::of(writes),
    })
}

/// The answer of the callback of a function that is declared and isn't of WASI.
pub(crate) fn ask_table(
    alloc: Global,
    table: &HostTable,
    host: &HostName,
    entry: Option<u32>,
    asked: &Asked,
    memory: &Space,
) -> Result<Answer, Memory>
    requires other { bytes_eq host.now.«module» wasi_name ≡ false }
    requires bound { entry ≡ entry_number table.now host.now.«module» host.now.name }
    requires declared { host_match (names_of table.now) host.now.«module» host.now.name host.now.ty ≡ Fits }
    requires arguments { IsTrue (numbers_fit host.now.ty.params asked.now.args) }
    ensures answered { IfOk result (λ a. (answers_of table.now) (call_of host.now asked.now) memory.now a) }
    ensures fits { IfOk result (λ a. IsTrue (answer_fits (call_of host.now asked.now) memory.now a)) }
{
    let entry = declared_entry(table, host, entry);
    let size = u64::from(memory.size()) * 65536;
    let reply = table.call(entry, asked.args.items(), size);
    answer_of(alloc, &host.ty, reply)
}

/// The entry of a function that is declared and isn't of WASI, which is there.
fn declared_entry(table: &HostTable, host: &HostName, entry: Option<u32>) -> u32
    requires other { bytes_eq host.now.«module» wasi_name ≡ false }
    requires bound { entry ≡ entry_number table.now host.now.«module» host.now.name }
    requires declared { host_match (names_of table.now) host.now.«module» host.now.name host.now.ty ≡ Fits }
    ensures found { entry_number table.now host.now.«module» host.now.name ≡ Some result }
    ensures typed { HasType table.now result host.now.ty }
{
    names_have_their_types();
    match entry {
        Some(entry) => entry,
        None => unreachable!(),
    }
}
