// The numbers that generated code names.
ghost use Rattle.std.specs.Prelude.{◌≡◌, ◌≤◌, ◌-◌, ◌<◌, ◌^◌, ◌++◌, ℕ, ◌+◌, Some, slice_get, length, map, option_map, IfOk, OnOk};
ghost use Rattle.std.specs.List.{range_with_len};
ghost use Rattle.spec_loading.specs.declared.task.Phase.TheVariants as phases;
ghost use Rattle.spec_loading.specs.Phases.{phase_function};
ghost use Rattle.spec_loading.specs.Members.{from_members};
ghost use Rattle.merge_index.specs.Kept.{numbers_in};
ghost use Rattle.merge_index.specs.Numbering.{first_phase, numbers_of, starts_of};
ghost use Rattle.dyl_link.specs.dyl_search.declared.set.Member as declared;
ghost use Rattle.merge_start.specs.Listed.{AreListed};
ghost use Rattle.merge_start.specs.Passive.{AreNamed};
ghost use Rattle.dyl_addresses.specs.Sets.{module_of};
ghost use Rattle.merge_whole.specs.Counts.{members_of, tables_by, functions_by, calls_by, starts_by};

use crate::built::counts::{Space, function_count, table_count, total};
use dyl_link::Linked;
use dyl_link::dyl_search::Member;
use dyl_link::wasm_check::exported_function;
use merge_index::Numbers;
use merge_start::StartNumbers;
use std::alloc::Global;
use wasm_form::{List, Memory, Module};

// The numbers from one on, up to another.
#[tactic(auto, using(crate::proofs::CountLists::range_end))]
pub(crate) fn range(alloc: Global, first: u32, end: u32) -> Result<List<u32>, Memory>
    ensures { IfOk result (λ list. list ≡ range_with_len first (end - first)) }
{
    let mut list = Vec::new(alloc);
    for n in first..end {
        list.push(n)?;
    }
    Ok(List::of(list))
}

#[tactic(auto, using(crate::proofs::CountLists::range_end))]
fn put_tables(to: &mut Vec<u32>, n: &Numbers, m: u32, count: u32) -> Result<(), Memory>
    ensures { OnOk result (to.new.items ≡ to.old.items ++ map ((numbers_in n.now).table m) (range_with_len 0 count)) }
{
    for t in 0..count {
        to.push(n.table(m, t))?;
    }
    Ok(())
}

fn tables(alloc: Global, members: &[Member], n: &Numbers) -> Result<List<u32>, Memory>
    requires few { length members.now ≤ 256 }
    requires short { (i : ℕ) (x : declared.Member) → slice_get members.now i ≡ Some x → length (module_of x).imports + length (module_of x).tables < 2 ^ 32 }
    ensures { IfOk result (λ list. list ≡ from_members (tables_by (numbers_in n.now)) 0 (members_of members.now)) }
{
    let mut list = Vec::new(alloc);
    let mut m: u32 = 0;
    for member in members {
        let count = table_count(member.checked.module());
        put_tables(&mut list, n, m, count)?;
        m += 1;
    }
    Ok(List::of(list))
}

#[tactic(auto, using(crate::proofs::CountLists::range_end))]
fn put_functions(to: &mut Vec<u32>, n: &Numbers, m: u32, count: u32) -> Result<(), Memory>
    ensures { OnOk result (to.new.items ≡ to.old.items ++ map ((numbers_in n.now).named m) (range_with_len 0 count)) }
{
    for f in 0..count {
        to.push(n.named(m, f))?;
    }
    Ok(())
}

fn functions(alloc: Global, members: &[Member], n: &Numbers) -> Result<List<u32>, Memory>
    requires few { length members.now ≤ 256 }
    requires short { (i : ℕ) (x : declared.Member) → slice_get members.now i ≡ Some x → length (module_of x).imports + length (module_of x).funcs < 2 ^ 32 }
    ensures { IfOk result (λ list. list ≡ from_members (functions_by (numbers_in n.now)) 0 (members_of members.now)) }
{
    let mut list = Vec::new(alloc);
    let mut m: u32 = 0;
    for member in members {
        let count = function_count(member.checked.module());
        put_functions(&mut list, n, m, count)?;
        m += 1;
    }
    Ok(List::of(list))
}

// The constructors of a member; those of main are left to an entry `_start`.
fn constructors(wasm: &Module, m: u32) -> Option<u32>
    ensures { result ≡ phase_function phases.Construct m wasm.now }
{
    if m == 0 && exported_function(wasm, "_start").is_some() {
        return None;
    }
    exported_function(wasm, "__wasm_call_ctors")
}

fn named(n: &Numbers, m: u32, f: Option<u32>) -> Option<u32>
    ensures { result ≡ option_map ((numbers_in n.now).named m) f }
{
    match f {
        Some(f) => Some(n.named(m, f)),
        None => None,
    }
}

fn put_calls(to: &mut Vec<Option<u32>>, n: &Numbers, m: u32, wasm: &Module) -> Result<(), Memory>
    ensures { OnOk result (to.new.items ≡ to.old.items ++ calls_by (numbers_in n.now) m wasm.now) }
{
    let relocate = exported_function(wasm, "__wasm_apply_data_relocs");
    to.push(None)?;
    to.push(named(n, m, wasm.start))?;
    to.push(named(n, m, relocate))?;
    to.push(named(n, m, constructors(wasm, m)))?;
    Ok(())
}

fn calls(alloc: Global, members: &[Member], n: &Numbers) -> Result<List<Option<u32>>, Memory>
    requires few { length members.now ≤ 256 }
    ensures { IfOk result (λ list. list ≡ from_members (calls_by (numbers_in n.now)) 0 (members_of members.now)) }
{
    let mut list = Vec::new(alloc);
    let mut m: u32 = 0;
    for member in members {
        put_calls(&mut list, n, m, member.checked.module())?;
        m += 1;
    }
    Ok(List::of(list))
}

// The numbers, where the guards come from one on.
fn starts_by(
    alloc: Global,
    linked: &Linked,
    n: &Numbers,
    guard: u32,
) -> Result<StartNumbers, Memory>
    ensures { IfOk result (λ s. s ≡ starts_by linked.now (numbers_in n.now) guard n.now.first_phase) }
{
    linked.links();
    let members = linked.members();
    let calls = calls(alloc, members, n)?;
    let slots = members.len() as u32;
    let elem_end = total(members, Space::Elems, slots);
    let elems = range(alloc, 0, elem_end)?;
    let data_end = total(members, Space::Datas, 0);
    let datas = range(alloc, 0, data_end)?;
    let tables = tables(alloc, members, n)?;
    let functions = functions(alloc, members, n)?;
    Ok(StartNumbers {
        guard,
        first_function: n.first_phase(),
        calls,
        entry: n.named(0, linked.entry()),
        elems,
        datas,
        tables,
        functions,
    })
}

// The numbers that the generated code of a linked set names, where the guards come from a number on.
pub(crate) fn set_starts(
    alloc: Global,
    linked: &Linked,
    n: &Numbers,
    guard: u32,
) -> Result<StartNumbers, Memory>
    requires guard { guard < 2 ^ 31 }
    requires first { n.now.first_phase < 2 ^ 31 }
    requires numbers { numbers_in n.now ≡ numbers_of linked.now }
    requires phase { n.now.first_phase ≡ first_phase linked.now }
    requires guards { guard ≡ (starts_of linked.now).guards }
    ensures listed { IfOk result (λ s. AreListed linked.now s (numbers_of linked.now) (starts_of linked.now)) }
    ensures functions { IfOk result (λ s. s.functions ≡ from_members (functions_by (numbers_of linked.now)) 0 linked.now.set.members) }
    ensures named { IfOk result (λ s. AreNamed linked.now s (numbers_of linked.now)) }
    ensures guard { IfOk result (λ s. s.guard < 2 ^ 31) }
    ensures first { IfOk result (λ s. s.first_function < 2 ^ 31) }
{
    linked.links();
    let starts = starts_by(alloc, linked, n, guard)?;
    Ok(starts)
}
