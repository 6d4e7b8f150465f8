// The initial values of imported globals.
ghost use Rattle.std.specs.Prelude.{◌≡◌, ◌+◌, ◌*◌, ◌++◌, ◌<◌, ◌≤◌, length, map, Some, None, IfOk, OnOk};
ghost use Rattle.spec_loading.specs.spec_linking.Definitions as definitions;
ghost use Rattle.spec_loading.specs.spec_linking.LinkedSets.{LinkedSet, definition};
ghost use Rattle.spec_loading.specs.spec_linking.Slots as slots;
ghost use Rattle.dyl_imports.specs.dyl_scope.Scopes.{meaning_of};
ghost use Rattle.dyl_imports.specs.dyl_search.Gathers.{member_of};
ghost use Rattle.dyl_slots.specs.Fresh.{slot_at};
ghost use Rattle.dyl_slots.specs.Found.{own_slot_in, loader_slot_in, address_in, IsKnownOf, FitsKnown, initial_in, initial_values, IsCellsOf};
ghost use Rattle.dyl_slots.specs.Given.{AllAt};

use crate::fresh::slot_at;
use crate::tables::{LoaderSlots, MemberSlots};
use dyl_imports::dyl_scope::Def;
use dyl_imports::{Imports, Use, use_of};
use dyl_plan::Plan;
use spec_loading::spec_linking::Kind;
use std::alloc::Global;
use wasm_form::{Import, ImportDesc, List, LoaderCall, Memory};

// The slots of all functions.
#[derive(Clone, Copy)]
pub(crate) struct Slots<'a> {
    pub members: &'a [MemberSlots],
    pub hosts: &'a [Option<u32>],
    pub loader: LoaderSlots,
}

fn own_slot(slots: &Slots, m: u32, f: u32) -> Option<u32>
    ensures { result ≡ own_slot_in slots.now.members.now m f }
{
    match slots.members.get(m as usize) {
        Some(member) => slot_at(member.slots.items(), f),
        None => None,
    }
}

fn loader_slot(slots: LoaderSlots, call: LoaderCall) -> Option<u32>
    ensures { result ≡ loader_slot_in slots call }
{
    match call {
        LoaderCall::Dlopen => slots.opens,
        LoaderCall::Dlsym => slots.searches,
        LoaderCall::Dlclose => slots.closes,
        LoaderCall::Dlerror => slots.errors,
    }
}

// What the initial values of cells are made of.
#[derive(Clone, Copy)]
pub(crate) struct Known<'a> {
    pub imports: &'a Imports<'a>,
    pub plan: &'a Plan,
    pub slots: Slots<'a>,
}

// The address of data at a place of the memory region of member m.
fn address(known: &Known, m: u32, offset: u32) -> Option<u32>
    requires { length known.now.plan.now.bases ≡ length known.now.slots.members.now }
    ensures { result ≡ address_in known.now.plan.now m offset }
{
    if (m as usize) < known.slots.members.len() {
        Some(known.plan.base(m).wrapping_add(offset))
    } else {
        None
    }
}

// The slot of the host function of a name of `env`.
fn host_slot(known: &Known, name: &str) -> Option<u32>
    ensures { (L : LinkedSet) → IsKnownOf L known.now → result ≡ slots.cell_number L name.now definitions.HostFunction }
{
    match known.imports.host("env", name) {
        Some(n) => slot_at(known.slots.hosts, n),
        None => None,
    }
}

// What a cell holds of a name with this definition.
fn cell_number(known: &Known, name: &str, found: Def) -> Option<u32>
    requires { FitsKnown known.now }
    ensures { (L : LinkedSet) → IsKnownOf L known.now → result ≡ slots.cell_number L name.now (meaning_of found) }
{
    match found {
        Def::Loader(call) => loader_slot(known.slots.loader, call),
        Def::HeapBase => Some(known.plan.heap_base()),
        Def::HeapEnd => Some(known.plan.pages() * 65_536),
        Def::Function { module, func } => own_slot(&known.slots, module, func),
        Def::Datum { module, offset } => address(known, module, offset),
        Def::Host(_) => host_slot(known, name),
        Def::Weak => Some(0),
        Def::Nothing => None,
    }
}

fn named_cell(known: &Known, m: u32, kind: Kind, name: &str) -> Option<u32>
    requires fits { FitsKnown known.now }
    requires member { m < length known.now.imports.now.known.symbols.now.names }
    ensures { (L : LinkedSet) → IsKnownOf L known.now → result ≡ slots.cell_number L name.now (definition L m kind name.now) }
{
    let found = known.imports.definition(m, kind, name);
    cell_number(known, name, found)
}

// The initial value of an imported global of member m.
fn initial(known: &Known, m: u32, i: &Import) -> Option<u32>
    requires fits { FitsKnown known.now }
    requires member { m < length known.now.slots.members.now }
    ensures { (L : LinkedSet) → IsKnownOf L known.now → result ≡ slots.initial_number L m i.now }
{
    match use_of(i) {
        Use::StackPointer => Some(known.plan.stack_top()),
        Use::MemoryBase => Some(known.plan.base(m)),
        Use::TableBase => Some(known.plan.table_base(m)),
        Use::DataCell => named_cell(known, m, Kind::Mem, i.field.as_str()),
        Use::SlotCell => named_cell(known, m, Kind::Func, i.field.as_str()),
        _ => None,
    }
}

fn push_cell(cells: &mut Vec<Option<u32>>, known: &Known, m: u32, i: &Import) -> Result<(), Memory>
    requires fits { FitsKnown known.now }
    requires member { m < length known.now.slots.members.now }
    ensures { OnOk result ((L : LinkedSet) → IsKnownOf L known.now → cells.new.items ≡ cells.old.items ++ initial_in L m i.now i.now.desc) }
{
    match i.desc {
        ImportDesc::Global(_) => {
            cells.push(initial(known, m, i))?;
            Ok(())
        }
        ImportDesc::Func(_) | ImportDesc::Table(_) | ImportDesc::Space(_) => Ok(()),
    }
}

// The initial values of the imported globals of member m.
fn member_cells(
    alloc: Global,
    known: &Known,
    m: u32,
    imports: &[Import],
) -> Result<List<Option<u32>>, Memory>
    requires fits { FitsKnown known.now }
    requires member { m < length known.now.slots.members.now }
    ensures { IfOk result (λ l. (L : LinkedSet) → IsKnownOf L known.now → l ≡ initial_values L m imports.now) }
{
    let mut cells = Vec::new(alloc);
    for i in imports {
        push_cell(&mut cells, known, m, i)?;
    }
    Ok(List::of(cells))
}

// The initial values of the members' imported globals.
pub(crate) fn cells_of(alloc: Global, known: &Known) -> Result<Vec<List<Option<u32>>>, Memory>
    requires fits { FitsKnown known.now }
    requires members { length known.now.slots.members.now ≡ length known.now.imports.now.known.members.now }
    requires few { length known.now.slots.members.now ≤ 256 }
    ensures count { IfOk result (λ v. length v.items ≡ length known.now.slots.members.now) }
    ensures exact { IfOk result (λ v. (L : LinkedSet) → IsKnownOf L known.now → L.set.members ≡ map member_of known.now.imports.now.known.members.now → AllAt (IsCellsOf L) v.items) }
{
    let members = known.imports.members();
    let mut all = Vec::new(alloc);
    for m in 0..members.len() {
        let imports = members[m].checked.module().imports.items();
        let cells = member_cells(alloc, known, m as u32, imports)?;
        all.push(cells)?;
    }
    Ok(all)
}
