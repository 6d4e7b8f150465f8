// The functions that search the names of members.
ghost use Rattle.std.specs.Prelude.{◌≡◌, ◌++◌, IfOk, OnOk};
ghost use Rattle.std.specs.List.{All, flat_map};
ghost use Rattle.spec_loading.specs.spec_linking.Definitions.{member_definition};
ghost use Rattle.spec_loading.specs.spec_linking.Slots.{cell_number};
ghost use Rattle.spec_loading.specs.Members.{from_members};
ghost use Rattle.merge_find.specs.Building.{names_of, HasText};
ghost use Rattle.merge_dl.specs.Called.{AreSearchParts};
ghost use Rattle.merge_dl.specs.Listed.{export_names, find_part, find_parts};

use crate::numbers::DlNumbers;
use crate::parts::{part, search_type};
use dyl_link::Linked;
use dyl_world::search;
use merge_find::{
    Missed, Named, Search, exports_are_texts, number_code, put_named, search_code,
    searches_are_typed, searches_find,
};
use std::alloc::Global;
use wasm_form::{Export, List, Memory, Module, Part};

// The slot of the function, or the address of the data, that member m defines a name as.
fn name_number(linked: &Linked, m: u32, name: &[u8]) -> Option<u32>
    ensures { result ≡ cell_number linked.now name.now (member_definition linked.now.set m name.now) }
{
    search(linked, &[m], name)
}

// The name of an export of member m is put among names, if the member defines it.
fn put_export(
    to: &mut Vec<Named>,
    alloc: Global,
    linked: &Linked,
    m: u32,
    e: &Export,
) -> Result<(), Memory>
    requires texts { All HasText to.old.items }
    ensures names { OnOk result (names_of to.new.items ≡ names_of to.old.items ++ export_names linked.now m e.now) }
    ensures texts { OnOk result (All HasText to.new.items) }
{
    let name = e.name.as_str().as_bytes();
    match name_number(linked, m, name) {
        Some(k) => {
            let code = number_code(alloc, k)?;
            put_named(to, alloc, name, code)?;
            Ok(())
        }
        None => Ok(()),
    }
}

// The names that member m defines.
fn exported_names(
    alloc: Global,
    linked: &Linked,
    m: u32,
    exports: &[Export],
) -> Result<Vec<Named>, Memory>
    ensures names { IfOk result (λ x. names_of x.items ≡ flat_map (export_names linked.now m) exports.now) }
    ensures texts { IfOk result (λ x. All HasText x.items) }
{
    let mut names = Vec::new(alloc);
    for e in exports {
        put_export(&mut names, alloc, linked, m, e)?;
    }
    Ok(names)
}

// The function that searches the names of member m.
fn find_function(alloc: Global, linked: &Linked, m: u32, wasm: &Module) -> Result<Part, Memory>
    ensures { IfOk result (λ x. x ≡ find_part linked.now m wasm.now) }
{
    let ty = search_type(alloc)?;
    let names = exported_names(alloc, linked, m, wasm.exports.items())?;
    let search = Search {
        len: 1,
        missed: Missed::Zero,
    };
    let code = search_code(alloc, &search, names)?;
    Ok(part(ty, Vec::new(alloc), code))
}

fn put_finds(alloc: Global, to: &mut Vec<Part>, linked: &Linked) -> Result<(), Memory>
    ensures { OnOk result (to.new.items ≡ to.old.items ++ from_members (find_parts linked.now) 0 linked.now.set.members) }
{
    for m in 0..linked.member_count() {
        let wasm = linked.member(m).checked.module();
        to.push(find_function(alloc, linked, m, wasm)?)?;
    }
    Ok(())
}

/// The functions that search the names of the members of a linked set, one for each member. Each takes the address of a string and its length,
/// and gives 2^32 with the slot of the function or the address of the data that the member defines by that name, or 0 where it defines none, in
/// at most the steps of a search among what the member exports, and four.
/// `Memory` where no memory could be had.
pub fn find_functions(alloc: Global, linked: &Linked, _n: &DlNumbers) -> Result<List<Part>, Memory>
    ensures code { IfOk result (λ parts. parts ≡ from_members (find_parts linked.now) 0 linked.now.set.members) }
    ensures works { IfOk result (λ parts. AreSearchParts linked.now parts) }
{
    linked.links();
    searches_find();
    searches_are_typed();
    exports_are_texts();
    let mut parts = Vec::new(alloc);
    match put_finds(alloc, &mut parts, linked) {
        Ok(()) => Ok(List::of(parts)),
        Err(memory) => {
            drop(parts);
            Err(memory)
        }
    }
}
