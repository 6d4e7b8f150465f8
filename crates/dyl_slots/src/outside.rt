// The functions of the loader and of the host that have slots.
ghost use Rattle.std.specs.Prelude.{◌≡◌, ◌+◌, ◌++◌, ◌<◌, ◌^◌, map, length, IfOk, OnOk};
ghost use Rattle.std.specs.List.{list_any, position_from};
ghost use Rattle.wasm_form.specs.declared.runtime.Ref.TheVariants as refs;
ghost use Rattle.spec_loading.specs.spec_linking.Slots.{same_call, same_ref};
ghost use Rattle.dyl_slots.specs.Outside.{calls_in, call_in, hosts_in, with_host_in};

use dyl_imports::dyl_scope::DistinctNumbers;
use std::alloc::Global;
use wasm_form::{LoaderCall, Memory, Ref};

fn is_call(r: Ref, call: LoaderCall) -> bool
    ensures { result ≡ same_ref (refs.Loader call) r }
{
    match r {
        Ref::Loader(other) => call == other,
        Ref::Own { .. } | Ref::Host(_) | Ref::Stub { .. } => false,
    }
}

fn has_call(list: &[Ref], call: LoaderCall) -> bool
    ensures { result ≡ list_any (same_ref (refs.Loader call)) list.now }
{
    for r in list {
        if is_call(*r, call) {
            return true;
        }
    }
    false
}

fn add_call(calls: &mut Vec<LoaderCall>, list: &[Ref], call: LoaderCall) -> Result<(), Memory>
    ensures { OnOk result (calls.new.items ≡ calls.old.items ++ call_in list.now call) }
{
    if has_call(list, call) {
        calls.push(call)?;
    }
    Ok(())
}

// The calls of the loader among references.
fn calls_in(alloc: Global, list: &[Ref]) -> Result<Vec<LoaderCall>, Memory>
    ensures { IfOk result (λ v. v.items ≡ calls_in list.now) }
{
    let mut calls = Vec::new(alloc);
    add_call(&mut calls, list, LoaderCall::Dlopen)?;
    add_call(&mut calls, list, LoaderCall::Dlsym)?;
    add_call(&mut calls, list, LoaderCall::Dlclose)?;
    add_call(&mut calls, list, LoaderCall::Dlerror)?;
    Ok(calls)
}

fn add_host(alloc: Global, hosts: &mut DistinctNumbers, r: Ref) -> Result<(), Memory>
    ensures { OnOk result (hosts.new ≡ with_host_in hosts.old r) }
{
    match r {
        Ref::Host(n) => hosts.add(alloc, n),
        Ref::Own { .. } | Ref::Loader(_) | Ref::Stub { .. } => Ok(()),
    }
}

// The host functions among references, each once; those below `count` are found fast.
fn hosts_in(alloc: Global, list: &[Ref], count: usize) -> Result<DistinctNumbers, Memory>
    ensures { IfOk result (λ hosts. hosts ≡ hosts_in list.now) }
{
    let mut hosts = DistinctNumbers::new(alloc, count)?;
    for r in list {
        add_host(alloc, &mut hosts, *r)?;
    }
    Ok(hosts)
}

// The calls of the loader and the host functions that have slots.
#[derive(Drop)]
pub(crate) struct Outside {
    pub calls: Vec<LoaderCall>,
    pub hosts: DistinctNumbers,
}

pub(crate) fn outside_of(alloc: Global, list: &[Ref], count: usize) -> Result<Outside, Memory>
    ensures calls { IfOk result (λ o. o.calls.items ≡ calls_in list.now) }
    ensures hosts { IfOk result (λ o. o.hosts ≡ hosts_in list.now) }
{
    let calls = calls_in(alloc, list)?;
    let hosts = hosts_in(alloc, list, count)?;
    Ok(Outside { calls, hosts })
}

fn push_calls(list: &mut Vec<Ref>, calls: &[LoaderCall]) -> Result<(), Memory>
    ensures { OnOk result (list.new.items ≡ list.old.items ++ map refs.Loader calls.now) }
{
    for call in calls {
        list.push(Ref::Loader(*call))?;
    }
    Ok(())
}

fn push_hosts(list: &mut Vec<Ref>, hosts: &[u32]) -> Result<(), Memory>
    ensures { OnOk result (list.new.items ≡ list.old.items ++ map refs.Host hosts.now) }
{
    for n in hosts {
        list.push(Ref::Host(*n))?;
    }
    Ok(())
}

// The functions outside the members that have slots, in slot order.
pub(crate) fn outside_list(alloc: Global, outside: &Outside) -> Result<Vec<Ref>, Memory>
    ensures { IfOk result (λ v. v.items ≡ map refs.Loader outside.now.calls.items ++ map refs.Host outside.now.hosts) }
{
    let mut list = Vec::new(alloc);
    push_calls(&mut list, &outside.calls)?;
    push_hosts(&mut list, outside.hosts.list())?;
    Ok(list)
}

// The slot of a call of the loader, where these calls have slots from `first` on.
pub(crate) fn call_slot(calls: &[LoaderCall], first: u32, call: LoaderCall) -> Option<u32>
    requires { first + length calls.now < 2 ^ 32 }
    ensures { result ≡ position_from (same_call call) first calls.now }
{
    for n in 0..calls.len() {
        if call == calls[n] {
            return Some(first + n as u32);
        }
    }
    None
}
