// The parts of a linked set.
ghost use Rattle.std.specs.Prelude.{◌≡◌, ◌+◌, ◌*◌, ◌<◌, ◌^◌, [], length, Some, None, IfOk, IfSome, OnOk};
ghost use Rattle.merge_index.specs.Numbering.{loader_size};
ghost use Rattle.merge_module.specs.MergedModule.{merged_module};
ghost use Rattle.merge_whole.specs.Given.{IsGiven, AreSmall};
ghost use Rattle.merge_whole.specs.Parts.{ArePartsOf};

use crate::built::codes::merged_codes;
use crate::built::exports::entry_exports;
use crate::built::funcs::merged_funcs;
use crate::built::given::{Given, make_given};
use crate::built::imports::merged_imports;
use crate::built::tables::{merged_memories, merged_tables};
use crate::built::types::merged_types;
use crate::made::Parts;
use dyl_link::Linked;
use merge_dl::DlNumbers;
use merge_index::Numbers;
use merge_start::StartNumbers;
use std::alloc::Global;
use wasm_form::{List, Memory, Module};

// The entry function comes behind the four of each member and, where a member uses the loader, what there is for it.
fn starting(linked: &Linked, first: u32) -> u32
    requires { first < 2 ^ 31 }
    ensures { result ≡ first + 4 * length linked.now.set.members + loader_size linked.now }
{
    let count = linked.member_count();
    let opening = first + 4 * count;
    if linked.uses_loader() {
        opening + 2 * count + 5
    } else {
        opening
    }
}

// The sections of a module that has the globals and the segments, but for these.
fn put_sections(
    alloc: Global,
    linked: &Linked,
    numbers: &Numbers,
    starts: &StartNumbers,
    loader: &Option<DlNumbers>,
    to: &mut Module,
) -> Result<(), Memory>
    requires guard { starts.now.guard < 2 ^ 31 }
    requires first { starts.now.first_function < 2 ^ 31 }
    requires numbers { IfSome loader.now AreSmall }
    requires start { to.old.start ≡ None }
    requires customs { to.old.customs ≡ [] }
    requires given { IsGiven linked.now (record { numbers = numbers.now; starts = starts.now; loader = loader.now; globals = to.old.globals; elems = to.old.elems; datas = to.old.datas }) }
    ensures { OnOk result (to.new ≡ merged_module linked.now) }
{
    linked.links();
    let starting = starting(linked, starts.first_function);
    let (imports, added) = merged_imports(alloc, linked, numbers)?;
    to.imports = imports;
    let types = merged_types(alloc, linked, added)?;
    to.types = types;
    let funcs = merged_funcs(alloc, linked, numbers)?;
    to.funcs = funcs;
    let tables = merged_tables(alloc, linked)?;
    to.tables = tables;
    let memories = merged_memories(alloc, linked)?;
    to.memories = memories;
    let exports = entry_exports(alloc, starting)?;
    to.exports = exports;
    let codes = merged_codes(alloc, linked, numbers, starts, loader)?;
    to.codes = codes;
    let count = to.datas.items().len() as u32;
    to.data_count = Some(count);
    Ok(())
}

// The parts, where all but most sections of the module is given.
fn parts_with(alloc: Global, linked: &Linked, given: Given) -> Result<Parts, Memory>
    requires guard { given.starts.guard < 2 ^ 31 }
    requires first { given.starts.first_function < 2 ^ 31 }
    requires numbers { IfSome given.loader AreSmall }
    requires given { IsGiven linked.now given }
    ensures { IfOk result (λ p. ArePartsOf linked.now p) }
{
    let Given {
        numbers,
        starts,
        loader,
        globals,
        elems,
        datas,
    } = given;
    let mut module = Module {
        types: List::of(Vec::new(alloc)),
        imports: List::of(Vec::new(alloc)),
        funcs: List::of(Vec::new(alloc)),
        tables: List::of(Vec::new(alloc)),
        memories: List::of(Vec::new(alloc)),
        globals,
        exports: List::of(Vec::new(alloc)),
        start: None,
        elems,
        data_count: None,
        codes: List::of(Vec::new(alloc)),
        datas,
        customs: List::of(Vec::new(alloc)),
    };
    let told = put_sections(alloc, linked, &numbers, &starts, &loader, &mut module);
    let entry = starts.entry;
    let parts = Parts {
        module,
        numbers,
        start: starts,
        entry,
        dl: loader,
    };
    match told {
        Ok(()) => Ok(parts),
        Err(memory) => {
            drop(parts);
            Err(memory)
        }
    }
}

pub(crate) fn merged_parts(alloc: Global, linked: &Linked) -> Result<Parts, Memory>
    ensures { IfOk result (λ p. ArePartsOf linked.now p) }
{
    let given = make_given(alloc, linked)?;
    let parts = parts_with(alloc, linked, given)?;
    Ok(parts)
}
