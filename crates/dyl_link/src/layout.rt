// The layout of a set: where its regions lie, the functions that its members number, and the tables of slots and cells.
ghost use Rattle.std.specs.Prelude.{◌≡◌, ◌≤◌, length, None, IfOk};
ghost use Rattle.spec_loading.specs.spec_linking.LinkedSets.{LinkedSet};
ghost use Rattle.spec_loading.specs.spec_linking.Plans as plans;
ghost use Rattle.spec_loading.specs.spec_linking.Slots.{table_entries};
ghost use Rattle.spec_loading.specs.spec_linking.Links as links;
ghost use Rattle.spec_loading.specs.spec_linking.declared.fault.LinkFault.TheVariants as faults;
ghost use Rattle.dyl_slots.specs.dyl_imports.Kept.{AreImportsOf};
ghost use Rattle.dyl_slots.specs.Given.{AllAt};
ghost use Rattle.dyl_link.specs.Answers.{Tells};
ghost use Rattle.dyl_link.specs.Steps.{AreNamed, IsSound, IsPlaced, AreAllOf, IsPlacedOf};

use crate::options::LinkOptions;
use crate::set_plan::plan_of;
use crate::sizes::sizes_of;
use dyl_slots::dyl_imports::Imports;
use dyl_slots::dyl_plan::{Plan, Sizes};
use dyl_slots::dyl_search::ClosedSet;
use dyl_slots::{Tables, make_tables};
use spec_loading::spec_linking::LinkFault;
use std::alloc::Global;
use wasm_form::{List, Memory, Ref};

// Where the regions of a set lie, the functions that the numbers of each member name, and the tables.
#[derive(Drop)]
pub(crate) struct Placed {
    pub plan: Plan,
    pub functions: Vec<List<Ref>>,
    pub tables: Tables,
}

// The functions that the numbers of each member name.
fn functions_of(alloc: Global, imports: &Imports) -> Result<Vec<List<Ref>>, Memory>
    requires few { length imports.now.known.members.now ≤ 256 }
    requires names { length imports.now.known.symbols.now.names ≡ length imports.now.known.members.now }
    ensures count { IfOk result (λ v. length v.items ≡ length imports.now.known.members.now) }
    ensures exact { IfOk result (λ v. (L : LinkedSet) → AreImportsOf L imports.now → links.members_fault L 0 L.set.members ≡ None → AllAt (AreNamed L) v.items) }
{
    let mut functions = Vec::new(alloc);
    for m in 0..imports.members().len() {
        let named = imports.functions(alloc, m as u32)?;
        functions.push(named)?;
    }
    Ok(functions)
}

// The functions and the tables, where the regions lie so.
fn tables_of(
    alloc: Global,
    imports: &Imports,
    plan: &Plan,
    sizes: &Sizes,
) -> Result<(Vec<List<Ref>>, Tables), LinkFault>
    requires few { length imports.now.known.members.now ≤ 256 }
    requires names { length imports.now.known.symbols.now.names ≡ length imports.now.known.members.now }
    requires placed { (L : LinkedSet) × IsPlaced L imports.now plan.now sizes.now }
    requires most { sizes.now.table_max ≤ 983040 }
    ensures tells { (L : LinkedSet) → IsPlaced L imports.now plan.now sizes.now → Tells result (plans.limit faults.TableLimit (table_entries L) sizes.now.table_max) }
    ensures exact { IfOk result (λ t. (L : LinkedSet) → IsPlaced L imports.now plan.now sizes.now → AreAllOf L t.0.items t.1) }
{
    let functions = functions_of(alloc, imports)?;
    let tables = make_tables(alloc, imports, plan, functions.as_slice(), sizes)?;
    Ok((functions, tables))
}

// Where the regions of a set lie whose members have no fault, with the functions and the tables.
pub(crate) fn placed_of(
    alloc: Global,
    set: &ClosedSet,
    o: &LinkOptions,
    imports: &Imports,
) -> Result<Placed, LinkFault>
    requires few { length imports.now.known.members.now ≤ 256 }
    requires names { length imports.now.known.symbols.now.names ≡ length imports.now.known.members.now }
    requires sound { (L : LinkedSet) × IsSound L set.now o.now imports.now }
    requires pages { o.now.pages ≤ 16384 }
    requires stack { o.now.stack ≤ 16777216 }
    ensures tells { (L : LinkedSet) → IsSound L set.now o.now imports.now → Tells result (links.limit_fault L) }
    ensures exact { IfOk result (λ p. (L : LinkedSet) → IsSound L set.now o.now imports.now → IsPlacedOf L p) }
{
    let sizes = sizes_of(set, o);
    let plan = plan_of(alloc, set, o, &sizes)?;
    let made = tables_of(alloc, imports, &plan, &sizes)?;
    let (functions, tables) = made;
    Ok(Placed {
        plan,
        functions,
        tables,
    })
}
