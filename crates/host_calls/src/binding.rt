// What answers a host function.
ghost use Rattle.std.specs.Prelude.{map, IfOk};
ghost use Rattle.host_table.specs.Names.{host_name_of};
ghost use Rattle.host_calls.specs.Bindings.{IsBinding, AreBindings};

use host_table::{HostName, HostTable};
use host_wasi::{Call, call_named};
use spec_hosts::wasm_form::Memory;
use std::alloc::Global;

/// What answers a host function: WASI, by the call that has its name, if one has; or an entry of a table, if there is one.
#[derive(Clone, Copy, Debug, PartialEq, Eq)]
pub enum Binding {
    Wasi(Option<Call>),
    Table(Option<u32>),
}

/// What answers a host function.
fn binding_of(table: &HostTable, host: &HostName) -> Binding
    ensures { IsBinding table.now (host_name_of host.now) result }
{
    if host.module.as_str() == "wasi_snapshot_preview1" {
        Binding::Wasi(call_named(host.name.as_str()))
    } else {
        Binding::Table(table.find(host.module.as_str(), host.name.as_str()))
    }
}

/// What answers each of some host functions.
pub(crate) fn bindings_of(
    alloc: Global,
    table: &HostTable,
    hosts: &[HostName],
) -> Result<Vec<Binding>, Memory>
    ensures { IfOk result (λ bindings. AreBindings table.now (map (λ h. host_name_of h) hosts.now) bindings.items) }
{
    let mut bindings = Vec::new(alloc);
    for host in hosts {
        bindings.push(binding_of(table, host))?;
    }
    Ok(bindings)
}
