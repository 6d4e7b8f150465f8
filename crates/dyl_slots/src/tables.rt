// The tables of a linked set.
ghost use Rattle.std.specs.Prelude.{◌≡◌, ◌≤◌, ◌<◌, length, IfOk};
ghost use Rattle.std.specs.List.{All};
ghost use Rattle.spec_loading.specs.spec_linking.declared.fault.LinkFault.TheVariants as faults;
ghost use Rattle.spec_loading.specs.spec_linking.Plans.{limit};
ghost use Rattle.spec_loading.specs.spec_linking.LinkedSets.{LinkedSet};
ghost use Rattle.spec_loading.specs.spec_linking.Slots as slots;
ghost use Rattle.dyl_imports.specs.Kept.{AreImportsOf};
ghost use Rattle.dyl_slots.specs.Given.{IsGiven, HasFew};
ghost use Rattle.dyl_slots.specs.Limits.{TellsLimit};
ghost use Rattle.dyl_slots.specs.Tables.{IsCounted, AreTables};
ghost use Rattle.dyl_slots.specs.Wanted.{IsWanted, IsRegular, wanted_end};

use crate::given::{cells_with, slots_of_wanted};
use crate::limits::least_maximum;
use crate::outside::outside_list;
use crate::wanted::{Wanted, entries_of, wanted_of};
use dyl_imports::Imports;
use dyl_plan::{Plan, Sizes};
use spec_loading::spec_linking::LinkFault;
use std::alloc::Global;
use wasm_form::{List, Memory, Ref};

// How many entries the table may grow by.
const TABLE_GROWTH: u32 = 65_536;

/// Of a member: the slots of its functions by their numbers, the functions of its own that have fresh slots, in slot order, and the first of
/// these slots.
#[derive(Drop)]
pub struct MemberSlots {
    pub slots: List<Option<u32>>,
    pub fresh: List<u32>,
    pub first_slot: u32,
}

/// The slots of the functions of the loader.
#[derive(Clone, Copy)]
pub struct LoaderSlots {
    pub opens: Option<u32>,
    pub searches: Option<u32>,
    pub closes: Option<u32>,
    pub errors: Option<u32>,
}

/// The slots of the functions of a linked set, member by member, of the host functions by their numbers, and of the functions of the loader;
/// the initial values of imported globals, member by member; the functions of the loader and of the host that have slots, in slot order; and
/// the initial entries of the table, and the most.
#[derive(Drop)]
pub struct Tables {
    pub members: Vec<MemberSlots>,
    pub host_slots: Vec<Option<u32>>,
    pub loader_slots: LoaderSlots,
    pub cells: Vec<List<Option<u32>>>,
    pub outside: Vec<Ref>,
    pub table_entries: u32,
    pub table_max: u32,
}

// The tables of a set, over what wants slots and the initial entries.
fn tables_with(
    alloc: Global,
    imports: &Imports,
    plan: &Plan,
    wanted: &Wanted,
    entries: u32,
) -> Result<Tables, Memory>
    requires regular { IsRegular imports.now plan.now }
    requires count { length wanted.now.members.items ≡ length imports.now.known.members.now }
    requires few { All HasFew wanted.now.members.items }
    requires room { wanted_end wanted.now plan.now.table_end ≤ entries }
    requires most { entries ≤ 983040 }
    ensures { IfOk result (λ t. (L : LinkedSet) → plan.now ≡ slots.linked_plan L → AreImportsOf L imports.now → IsWanted L wanted.now → entries ≡ slots.table_entries L → AreTables L t) }
{
    let slots = slots_of_wanted(alloc, wanted, plan.table_end())?;
    let cells = cells_with(alloc, imports, plan, &slots)?;
    let outside = outside_list(alloc, &wanted.outside)?;
    let table_max = least_maximum(entries + TABLE_GROWTH, imports.members());
    Ok(Tables {
        members: slots.members,
        host_slots: slots.hosts,
        loader_slots: slots.loader,
        cells,
        outside,
        table_entries: entries,
        table_max,
    })
}

/// The tables of a set whose members have no fault and whose regions lie in the table, over the functions that each member's numbers name.
///
/// TableLimit comes exactly where the initial entries, with the fresh slots, are above the most. Memory comes only where no memory could be
/// had.
pub fn make_tables(
    alloc: Global,
    imports: &Imports,
    plan: &Plan,
    functions: &[List<Ref>],
    sizes: &Sizes,
) -> Result<Tables, LinkFault>
    requires given { (L : LinkedSet) × IsGiven L imports.now.known.members.now plan.now functions.now }
    requires names { length imports.now.known.symbols.now.names ≡ length imports.now.known.members.now }
    requires most { sizes.now.table_max ≤ 983040 }
    ensures exact { IfOk result (λ t. (L : LinkedSet) → IsCounted L imports.now plan.now functions.now sizes.now → AreTables L t) }
    ensures fault { (L : LinkedSet) → IsCounted L imports.now plan.now functions.now sizes.now → TellsLimit result (limit faults.TableLimit (slots.table_entries L) sizes.now.table_max) }
{
    let wanted = wanted_of(alloc, imports, plan, functions)?;
    let entries = entries_of(&wanted, plan.table_end(), sizes)?;
    let tables = tables_with(alloc, imports, plan, &wanted, entries)?;
    Ok(tables)
}
