// The faults of cells.
ghost use Rattle.spec_loading.specs.spec_linking.Links as links;
ghost use Rattle.dyl_slots.specs.dyl_scope.Scopes.{meaning_of};
ghost use Rattle.dyl_link.specs.Answers.{Tells};

use dyl_slots::dyl_names::{ill_typed, unresolved};
use dyl_slots::dyl_scope::Def;
use spec_loading::spec_linking::{Kind, LinkFault};
use std::alloc::Global;

// A cell with the address of data.
pub(crate) fn data_cell(alloc: Global, m: u32, name: &str, found: Def) -> Result<(), LinkFault>
    ensures { Tells result (links.data_cell_fault m name.now (meaning_of found)) }
{
    match found {
        Def::HeapBase | Def::HeapEnd | Def::Datum { .. } | Def::Weak => Ok(()),
        Def::Loader(_) | Def::Function { .. } | Def::Host(_) => {
            ill_typed(alloc, false, m, Kind::Mem, name)
        }
        Def::Nothing => unresolved(alloc, m, Kind::Mem, name),
    }
}

// A cell with the slot of a function.
pub(crate) fn slot_cell(alloc: Global, m: u32, name: &str, found: Def) -> Result<(), LinkFault>
    ensures { Tells result (links.slot_cell_fault m name.now (meaning_of found)) }
{
    match found {
        Def::Loader(_) | Def::Function { .. } | Def::Host(_) | Def::Weak => Ok(()),
        Def::HeapBase | Def::HeapEnd | Def::Datum { .. } => {
            ill_typed(alloc, false, m, Kind::Func, name)
        }
        Def::Nothing => unresolved(alloc, m, Kind::Func, name),
    }
}
