// The bodies of the merged module.
ghost use Rattle.std.specs.Prelude.{◌≡◌, ◌≤◌, ◌++◌, ◌<◌, ◌^◌, [], length, map, Some, IfOk, IfSome, OnOk};
ghost use Rattle.merge_match.specs.Joined.{renumbered_code};
ghost use Rattle.merge_start.specs.Words.{Starts};
ghost use Rattle.merge_start.specs.Listed.{AreListed};
ghost use Rattle.spec_loading.specs.Members.{from_members};
ghost use Rattle.merge_index.specs.Kept.{numbers_in};
ghost use Rattle.merge_module.specs.MergedModule.{merged_codes};
ghost use Rattle.merge_match.specs.Renumbering as renumbering;
ghost use Rattle.merge_dl.specs.Listed.{AreDlNumbers};
ghost use Rattle.merge_module.specs.MergedModule.{finders_of, with_loader, loader_codes};
ghost use Rattle.merge_whole.specs.Built.{joined, HasBodies, bodies_of, traps_of, code_of, generated_codes};
ghost use Rattle.merge_whole.specs.Given.{HasLoader, AreSmall};

use crate::built::stubs::{imported_types, put_traps};
use dyl_link::Linked;
use dyl_link::dyl_search::Member;
use merge_dl::{DlNumbers, dl_functions, find_functions, length_function};
use merge_index::Numbers;
use merge_start::{StartNumbers, entry_function, open_functions, phase_functions};
use std::alloc::Global;
use wasm_form::{Code, List, Memory, Part};

fn put_bodies(
    alloc: Global,
    to: &mut Vec<Code>,
    linked: &Linked,
    n: &Numbers,
    m: u32,
    codes: &[Code],
) -> Result<(), Memory>
    requires bodies { HasBodies linked.now m codes.now }
    requires few { length codes.now < 2 ^ 32 }
    ensures { OnOk result (to.new.items ≡ to.old.items ++ map (renumbered_code (numbers_in n.now) m) codes.now) }
{
    for b in 0..codes.len() {
        let code = n.rename_body(alloc, linked, m, b as u32)?;
        to.push(code)?;
    }
    Ok(())
}

fn put_members(
    alloc: Global,
    to: &mut Vec<Code>,
    linked: &Linked,
    n: &Numbers,
) -> Result<(), Memory>
    ensures { OnOk result (to.new.items ≡ to.old.items ++ from_members (bodies_of (numbers_in n.now)) 0 linked.now.set.members) }
{
    for m in 0..linked.member_count() {
        let codes = linked.member(m).checked.module().codes.items();
        put_bodies(alloc, to, linked, n, m, codes)?;
    }
    Ok(())
}

fn put_stubs(
    alloc: Global,
    to: &mut Vec<Code>,
    linked: &Linked,
    members: &[Member],
) -> Result<(), Memory>
    requires few { length members.now ≤ 256 }
    ensures { OnOk result (to.new.items ≡ to.old.items ++ joined (traps_of linked.now) 0 members.now) }
{
    let mut m: u32 = 0;
    for member in members {
        let types = imported_types(alloc, member.checked.module().imports.items())?;
        put_traps(alloc, to, linked, m, types.as_slice())?;
        m += 1;
    }
    Ok(())
}

fn put_parts(to: &mut Vec<Code>, parts: List<Part>) -> Result<(), Memory>
    ensures { OnOk result (to.new.items ≡ to.old.items ++ map code_of parts) }
{
    to.extend(parts.into_vec().into_iter().map(|part| part.code))?;
    Ok(())
}

// Those of the functions of the loader, and of what they call.
fn put_calls(
    alloc: Global,
    to: &mut Vec<Code>,
    linked: &Linked,
    s: &StartNumbers,
    d: &DlNumbers,
) -> Result<(), Memory>
    requires first { s.now.first_function < 2 ^ 31 }
    requires numbers { AreSmall d.now }
    ensures { OnOk result ((N : renumbering.Numbers) (x : Starts) → AreListed linked.now s.now N x → AreDlNumbers linked.now d.now x (finders_of linked.now x) → to.new.items ≡ to.old.items ++ loader_codes linked.now N x) }
{
    let opens = open_functions(alloc, linked, s)?;
    put_parts(to, opens)?;
    to.push(length_function(alloc)?.code)?;
    let finds = find_functions(alloc, linked, d)?;
    put_parts(to, finds)?;
    let calls = dl_functions(alloc, linked, d)?;
    put_parts(to, calls)?;
    Ok(())
}

// The same, where a member uses the loader.
fn put_loader(
    alloc: Global,
    to: &mut Vec<Code>,
    linked: &Linked,
    s: &StartNumbers,
    loader: &Option<DlNumbers>,
) -> Result<(), Memory>
    requires first { s.now.first_function < 2 ^ 31 }
    requires numbers { IfSome loader.now AreSmall }
    ensures { OnOk result ((N : renumbering.Numbers) (x : Starts) → AreListed linked.now s.now N x → HasLoader linked.now x loader.now → to.new.items ≡ to.old.items ++ with_loader linked.now (loader_codes linked.now N x)) }
{
    match loader {
        None => Ok(()),
        Some(d) => {
            put_calls(alloc, to, linked, s, d)?;
            Ok(())
        }
    }
}

// Those of the phases of each member, of the loader, and of the entry function.
fn put_generated(
    alloc: Global,
    to: &mut Vec<Code>,
    linked: &Linked,
    s: &StartNumbers,
    loader: &Option<DlNumbers>,
) -> Result<(), Memory>
    requires guard { s.now.guard < 2 ^ 31 }
    requires first { s.now.first_function < 2 ^ 31 }
    requires numbers { IfSome loader.now AreSmall }
    ensures { OnOk result ((N : renumbering.Numbers) (x : Starts) → AreListed linked.now s.now N x → HasLoader linked.now x loader.now → to.new.items ≡ to.old.items ++ generated_codes linked.now N x) }
{
    let phases = phase_functions(alloc, linked, s)?;
    put_parts(to, phases)?;
    put_loader(alloc, to, linked, s, loader)?;
    to.push(entry_function(alloc, linked, s)?.code)?;
    Ok(())
}

// Those of the members, of the stubs, and those that are generated.
fn put_codes(
    alloc: Global,
    to: &mut Vec<Code>,
    linked: &Linked,
    n: &Numbers,
    s: &StartNumbers,
    loader: &Option<DlNumbers>,
) -> Result<(), Memory>
    requires guard { s.now.guard < 2 ^ 31 }
    requires first { s.now.first_function < 2 ^ 31 }
    requires numbers { IfSome loader.now AreSmall }
    requires none { to.old.items ≡ [] }
    ensures { OnOk result ((x : Starts) → AreListed linked.now s.now (numbers_in n.now) x → HasLoader linked.now x loader.now → to.new.items ≡ merged_codes linked.now (numbers_in n.now) x) }
{
    linked.links();
    put_members(alloc, to, linked, n)?;
    put_stubs(alloc, to, linked, linked.members())?;
    put_generated(alloc, to, linked, s, loader)?;
    Ok(())
}

// The bodies of the merged module.
pub(crate) fn merged_codes(
    alloc: Global,
    linked: &Linked,
    n: &Numbers,
    s: &StartNumbers,
    loader: &Option<DlNumbers>,
) -> Result<List<Code>, Memory>
    requires guard { s.now.guard < 2 ^ 31 }
    requires first { s.now.first_function < 2 ^ 31 }
    requires numbers { IfSome loader.now AreSmall }
    ensures { IfOk result (λ c. (x : Starts) → AreListed linked.now s.now (numbers_in n.now) x → HasLoader linked.now x loader.now → c ≡ merged_codes linked.now (numbers_in n.now) x) }
{
    let mut codes = Vec::new(alloc);
    match put_codes(alloc, &mut codes, linked, n, s, loader) {
        Ok(()) => Ok(List::of(codes)),
        Err(memory) => {
            drop(codes);
            Err(memory)
        }
    }
}
