// The types of host functions: of each the number that the first imported function gives it, or else a type that is added.
ghost use Rattle.std.specs.Prelude.{◌≡◌, ℕ, ◌+◌, ◌<◌, ◌≤◌, ◌^◌, [], length, map, nat_eq, None, Some, IfOk, OnOk, slice_index_or, if◌then◌else◌};
ghost use Rattle.std.specs.List.{list_any, position_or_len};
ghost use Rattle.spec_reading.specs.spec_binary.SameTypes.{same_function_type};
ghost use Rattle.spec_loading.specs.spec_linking.Definitions.{or_other};
ghost use Rattle.spec_loading.specs.spec_linking.LinkedSets.{hosts_of};
ghost use Rattle.dyl_link.specs.host_table.Names.{host_name_of};
ghost use Rattle.merge_index.specs.Kept.{numbers_in};
ghost use Rattle.merge_module.specs.MergedModule as merged;
ghost use Rattle.merge_module.specs.MergedModule.{with_type, types_added};
ghost use Rattle.merge_whole.specs.Counts.{members_of};
ghost use Rattle.merge_whole.specs.Hosts as hosted;
ghost use Rattle.merge_whole.specs.Hosts.{given_to, given_at, given_from, use_in};

use crate::built::stubs::imported_types;
use dyl_link::Linked;
use dyl_link::dyl_search::Member;
use dyl_link::host_table::HostName;
use merge_index::Numbers;
use std::alloc::Global;
use wasm_copies::copied_type;
use wasm_form::{FuncType, Memory, Ref};

// ---- numbers that imported functions give

fn host_of(r: Option<Ref>) -> Option<u32>
    ensures { result ≡ hosted.host_of r }
{
    match r {
        Some(Ref::Host(e)) => Some(e),
        _ => None,
    }
}

// Notes a number for a host function, unless it has one.
fn note(uses: &mut [Option<u32>], h: u32, t: u32)
    ensures { (e : ℕ) → e < length uses.old → slice_index_or uses.new e None ≡ or_other (slice_index_or uses.old e None) (if nat_eq h e then Some t else None) }
{
    if (h as usize) < uses.len() && uses[h as usize].is_none() {
        uses[h as usize] = Some(t);
    }
}

// The same where there is one.
#[tactic(auto, using(crate::proofs::HostUses::or_nothing))]
fn note_where(uses: &mut [Option<u32>], h: Option<u32>, t: u32)
    ensures { (e : ℕ) → e < length uses.old → slice_index_or uses.new e None ≡ or_other (slice_index_or uses.old e None) (given_to h t e) }
{
    match h {
        Some(h) => note(uses, h, t),
        None => {}
    }
}

// Notes the numbers of the types of functions that member m imports, for those that are host functions.
#[tactic(auto, using(crate::proofs::HostUses::or_nothing, crate::proofs::HostUses::or_assoc))]
fn note_types(uses: &mut [Option<u32>], linked: &Linked, n: &Numbers, m: u32, types: &[u32])
    requires { length types.now < 2 ^ 32 }
    ensures { (e : ℕ) → e < length uses.old → slice_index_or uses.new e None ≡ or_other (slice_index_or uses.old e None) (given_at linked.now m ((numbers_in n.now).ty m) 0 types.now e) }
{
    for f in 0..types.len() {
        let h = host_of(linked.find_function(m, f as u32));
        note_where(uses, h, n.ty(m, types[f]));
    }
}

// The same of all members.
#[tactic(auto, using(crate::proofs::HostUses::or_nothing, crate::proofs::HostUses::or_assoc))]
fn note_members(
    alloc: Global,
    uses: &mut [Option<u32>],
    linked: &Linked,
    n: &Numbers,
    members: &[Member],
) -> Result<(), Memory>
    requires { length members.now < 2 ^ 32 }
    ensures { OnOk result ((e : ℕ) → e < length uses.old → slice_index_or uses.new e None ≡ or_other (slice_index_or uses.old e None) (given_from linked.now (numbers_in n.now) 0 (members_of members.now) e)) }
{
    for m in 0..members.len() {
        let wasm = members[m].checked.module();
        let types = imported_types(alloc, wasm.imports.items())?;
        note_types(uses, linked, n, m as u32, types.as_slice());
    }
    Ok(())
}

fn no_uses(alloc: Global, count: usize) -> Result<Vec<Option<u32>>, Memory>
    ensures count { IfOk result (λ v. length v.items ≡ count) }
    ensures none { IfOk result (λ v. (e : ℕ) → slice_index_or v.items e None ≡ None) }
{
    let mut uses = Vec::new(alloc);
    for e in 0..count {
        let _e = e;
        uses.push(None)?;
    }
    Ok(uses)
}

// Of each host function the number of the type of the first imported function that it is.
pub(crate) fn first_uses(
    alloc: Global,
    linked: &Linked,
    n: &Numbers,
) -> Result<Vec<Option<u32>>, Memory>
    ensures count { IfOk result (λ v. length v.items ≡ length (hosts_of linked.now)) }
    ensures uses { IfOk result (λ v. (e : ℕ) → e < length (hosts_of linked.now) → use_in v.items e ≡ given_from linked.now (numbers_in n.now) 0 linked.now.set.members e) }
{
    linked.links();
    let mut uses = no_uses(alloc, linked.hosts().len())?;
    note_members(alloc, &mut uses, linked, n, linked.members())?;
    Ok(uses)
}

// ---- types that are added

fn is_same_type(one: &FuncType, other: &FuncType) -> bool
    ensures { result ≡ same_function_type one.now other.now }
{
    one == other
}

fn is_among(types: &[FuncType], ty: &FuncType) -> bool
    ensures { result ≡ list_any (same_function_type ty.now) types.now }
{
    for other in types {
        if is_same_type(ty, other) {
            return true;
        }
    }
    false
}

fn put_type(
    alloc: Global,
    to: &mut Vec<FuncType>,
    given: Option<u32>,
    ty: &FuncType,
) -> Result<(), Memory>
    ensures { OnOk result (to.new.items ≡ with_type to.old.items given ty.now) }
{
    if given.is_some() {
        return Ok(());
    }
    if is_among(to.as_slice(), ty) {
        return Ok(());
    }
    to.push(copied_type(alloc, ty)?)?;
    Ok(())
}

// The types of the host functions that no imported function is, each once.
pub(crate) fn added_types(
    alloc: Global,
    hosts: &[HostName],
    uses: &[Option<u32>],
) -> Result<Vec<FuncType>, Memory>
    requires { length uses.now ≡ length hosts.now }
    ensures { IfOk result (λ v. v.items ≡ types_added (use_in uses.now) [] 0 (map host_name_of hosts.now)) }
{
    let mut added = Vec::new(alloc);
    for e in 0..hosts.len() {
        put_type(alloc, &mut added, uses[e], &hosts[e].ty)?;
    }
    Ok(added)
}

// ---- numbers of types

// The place of a type among some, or how many there are.
fn place_of(types: &[FuncType], ty: &FuncType) -> usize
    ensures is { result ≡ position_or_len (same_function_type ty.now) types.now }
    ensures few { result ≤ length types.now }
{
    for place in 0..types.len() {
        if is_same_type(ty, &types[place]) {
            return place;
        }
    }
    types.len()
}

// The number that is given, or else that of a type that is added, where these have their numbers from one on.
pub(crate) fn type_number(first: u32, added: &[FuncType], given: Option<u32>, ty: &FuncType) -> u32
    requires { first + length added.now < 2 ^ 32 }
    ensures { result ≡ merged.type_number first added.now given ty.now }
{
    match given {
        Some(t) => t,
        None => first + place_of(added, ty) as u32,
    }
}
