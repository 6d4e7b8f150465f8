// The lines of fresh slots.
ghost use Rattle.std.specs.Prelude.{◌≡◌, ◌++◌, [], codes, decimal, length, map, unwrap_or, slice_get, IfOk, OnOk, string_bytes};
ghost use Rattle.spec_merging.specs.wasm_form.declared.runtime.Ref.TheVariants as refs;
ghost use Rattle.spec_linking.specs.LinkedSets.{hosts_of};
ghost use Rattle.spec_linking.specs.Slots.{slot_of, fresh_functions, fresh_slots};
ghost use Rattle.dyl_link.specs.dyl_search.Gathers.{member_of};
ghost use Rattle.dyl_link.specs.host_table.Names.{host_name_of};
ghost use Rattle.dyl_link.specs.Sets.{functions_in};
ghost use Rattle.dyl_front.specs.Listing.{space, call_name, function_name, host_name, slot_text, slot_line, slot_lines, place_text};
ghost use Rattle.dyl_front.specs.Named.{exports_in, AreFirst};

use crate::lines::put_around;
use crate::names::{first_exports, name_among, name_of};
use dyl_link::dyl_search::Member;
use dyl_link::host_table::HostName;
use dyl_link::{Linked, functions_are_there};
use spec_merging::wasm_form::{Export, List, LoaderCall, Memory, Ref};
use std::alloc::Global;

/// The exports of one of these members.
fn exports_among(members: &[Member], m: u32) -> &[Export]
    ensures { result.now ≡ exports_in (slice_get (map member_of members.now) m) }
{
    match members.get(m as usize) {
        Some(member) => member.checked.module().exports.items(),
        None => &[],
    }
}

/// The exports of a member.
fn exports_of(linked: &Linked, m: u32) -> &[Export]
    ensures { result.now ≡ exports_in (slice_get linked.now.set.members m) }
{
    exports_among(linked.members(), m)
}

/// How many functions are listed for a member.
fn listed_count(functions: &[List<Ref>], m: u32) -> usize
    ensures { result ≡ length (unwrap_or (slice_get functions.now m) []) }
{
    match functions.get(m as usize) {
        Some(functions) => functions.items().len(),
        None => 0,
    }
}

/// How many functions a member has.
fn function_count(linked: &Linked, m: u32) -> usize
    ensures { result ≡ functions_in linked.now m }
{
    linked.links();
    functions_are_there();
    listed_count(linked.functions(), m)
}

/// The first name that one of these members defines as this function.
fn function_among(members: &[Member], m: u32, f: u32) -> &str
    ensures { result.now ≡ function_name (slice_get (map member_of members.now) m) f }
{
    match members.get(m as usize) {
        Some(member) => name_among(f, member.checked.module().exports.items()),
        None => "",
    }
}

/// The first name that a member defines as this function.
fn function_name(linked: &Linked, m: u32, f: u32) -> &str
    ensures { result.now ≡ function_name (slice_get linked.now.set.members m) f }
{
    function_among(linked.members(), m, f)
}

/// The name of one of these host functions.
fn host_among(hosts: &[HostName], n: u32) -> &str
    ensures { result.now ≡ host_name (map host_name_of hosts.now) n }
{
    match hosts.get(n as usize) {
        Some(host) => host.name.as_str(),
        None => "",
    }
}

/// The name of a host function.
fn host_name(linked: &Linked, n: u32) -> &str
    ensures { result.now ≡ host_name (hosts_of linked.now) n }
{
    host_among(linked.hosts(), n)
}

/// The name of a function of the loader.
fn call_name(call: LoaderCall) -> &'static str
    ensures { result.now ≡ call_name call }
{
    match call {
        LoaderCall::Dlopen => "dlopen",
        LoaderCall::Dlsym => "dlsym",
        LoaderCall::Dlclose => "dlclose",
        LoaderCall::Dlerror => "dlerror",
    }
}

/// Where a function is: in a member, in the loader, at the host, or nowhere.
pub(crate) fn place_text(alloc: Global, r: Ref) -> Result<String, Memory>
    ensures { IfOk result (λ text. string_bytes text ≡ place_text r) }
{
    let text = match r {
        Ref::Own { unit, .. } => format!(in alloc; "{unit}")?,
        Ref::Loader(_) => format!(in alloc; "loader")?,
        Ref::Host(_) => format!(in alloc; "host")?,
        Ref::Stub { .. } => format!(in alloc; "weak")?,
    };
    Ok(text)
}

/// The line of a slot up to the name of its function.
fn slot_start(alloc: Global, slot: u32, place: &str) -> Result<String, Memory>
    ensures { IfOk result (λ text. string_bytes text ≡ codes "slot " ++ decimal slot ++ space ++ place.now ++ space) }
{
    let text = format!(in alloc; "slot {slot} {place} ")?;
    Ok(text)
}

/// Puts the line of a slot.
fn put_slot_text(
    alloc: Global,
    slot: u32,
    r: Ref,
    name: &str,
    to: &mut Vec<u8>,
) -> Result<(), Memory>
    ensures { OnOk result (to.new.items ≡ to.old.items ++ slot_text slot (place_text r) name.now) }
{
    let place = place_text(alloc, r)?;
    put_around(&slot_start(alloc, slot, &place)?, name, "\n", to)
}

/// Puts the line of a slot of this function, which is no stub.
fn put_slot(alloc: Global, linked: &Linked, r: Ref, to: &mut Vec<u8>) -> Result<(), Memory>
    ensures { OnOk result (to.new.items ≡ to.old.items ++ slot_line linked.now.set.members (hosts_of linked.now) r (unwrap_or (slot_of linked.now r) 0)) }
{
    let slot = linked.slot(r).unwrap_or(0);
    match r {
        Ref::Own { unit, func } => {
            put_slot_text(alloc, slot, r, function_name(linked, unit, func), to)
        }
        Ref::Loader(call) => put_slot_text(alloc, slot, r, call_name(call), to),
        Ref::Host(n) => put_slot_text(alloc, slot, r, host_name(linked, n), to),
        Ref::Stub { .. } => Ok(()),
    }
}

/// Puts the line of the slot of function f of member m, which has this name.
fn put_own(
    alloc: Global,
    linked: &Linked,
    m: u32,
    f: u32,
    name: &str,
    to: &mut Vec<u8>,
) -> Result<(), Memory>
    requires { name.now ≡ function_name (slice_get linked.now.set.members m) f }
    ensures { OnOk result (to.new.items ≡ to.old.items ++ slot_line linked.now.set.members (hosts_of linked.now) (refs.Own m f) (unwrap_or (slot_of linked.now (refs.Own m f)) 0)) }
{
    let r = Ref::Own { unit: m, func: f };
    let slot = linked.slot(r).unwrap_or(0);
    put_slot_text(alloc, slot, r, name, to)
}

/// Puts the lines of the fresh slots of member m, by the places of its first exports.
fn put_named(
    alloc: Global,
    linked: &Linked,
    m: u32,
    fresh: &[u32],
    exports: &[Export],
    firsts: &[Option<usize>],
    to: &mut Vec<u8>,
) -> Result<(), Memory>
    requires exports { exports.now ≡ exports_in (slice_get linked.now.set.members m) }
    requires firsts { AreFirst firsts.now exports.now }
    ensures { OnOk result (to.new.items ≡ to.old.items ++ slot_lines linked.now.set.members (hosts_of linked.now) (slot_of linked.now) (map (refs.Own m) fresh.now)) }
{
    for f in fresh {
        put_own(alloc, linked, m, *f, name_of(firsts, exports, *f), to)?;
    }
    Ok(())
}

/// Puts the lines of the fresh slots of member m.
fn put_fresh(
    alloc: Global,
    linked: &Linked,
    m: u32,
    fresh: &[u32],
    to: &mut Vec<u8>,
) -> Result<(), Memory>
    ensures { OnOk result (to.new.items ≡ to.old.items ++ slot_lines linked.now.set.members (hosts_of linked.now) (slot_of linked.now) (map (refs.Own m) fresh.now)) }
{
    let exports = exports_of(linked, m);
    let firsts = first_exports(alloc, exports, function_count(linked, m))?;
    put_named(alloc, linked, m, fresh, exports, &firsts, to)
}

/// Puts the lines of all members' fresh slots.
fn put_all_fresh(alloc: Global, linked: &Linked, to: &mut Vec<u8>) -> Result<(), Memory>
    ensures { OnOk result (to.new.items ≡ to.old.items ++ slot_lines linked.now.set.members (hosts_of linked.now) (slot_of linked.now) (fresh_functions linked.now)) }
{
    for m in 0..linked.member_count() {
        put_fresh(alloc, linked, m, linked.fresh(m), to)?;
    }
    Ok(())
}

/// Puts the lines of slots of these functions.
fn put_slots(
    alloc: Global,
    linked: &Linked,
    functions: &[Ref],
    to: &mut Vec<u8>,
) -> Result<(), Memory>
    ensures { OnOk result (to.new.items ≡ to.old.items ++ slot_lines linked.now.set.members (hosts_of linked.now) (slot_of linked.now) functions.now) }
{
    for r in functions {
        put_slot(alloc, linked, *r, to)?;
    }
    Ok(())
}

/// Puts the lines of all fresh slots.
#[tactic(auto, using(crate::proofs::SlotLines::lines_append))]
pub(crate) fn put_all_slots(alloc: Global, linked: &Linked, to: &mut Vec<u8>) -> Result<(), Memory>
    ensures { OnOk result (to.new.items ≡ to.old.items ++ slot_lines linked.now.set.members (hosts_of linked.now) (slot_of linked.now) (fresh_slots linked.now)) }
{
    put_all_fresh(alloc, linked, to)?;
    put_slots(alloc, linked, linked.outside(), to)
}
