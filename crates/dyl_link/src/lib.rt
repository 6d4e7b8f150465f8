//! Links between the members of a closed set: what each import is, where functions have slots, and the first link fault
//! (DynamicLinking.md of the WebAssembly tool conventions).
#![tactic(auto)]

mod cells;
mod duplicates;
mod entry;
mod entry_and_layout;
mod functions;
mod imports;
mod layout;
mod link_or_fault;
mod linked_set;
mod members;
mod options;
mod own;
mod set_plan;
mod sizes;
mod symbols;

ghost use Rattle.dyl_link.specs.Laws.{FunctionsAreThere, InitialValuesAreThere};

pub use dyl_slots::{
    dyl_imports, dyl_names, dyl_plan, dyl_scope, dyl_search, dyl_section, host_table, wasm_check,
};
pub use link_or_fault::{LinkRefused, link};
pub use linked_set::Linked;
pub use options::LinkOptions;
use spec_loading::linked_functions_are_typed;
pub use spec_loading::spec_linking::{Kind, LinkFault};

/// Each number of a function of a member names a function, so that `Linked::function` may be called with it.
pub fn functions_are_there()
    ensures { FunctionsAreThere }
{
    linked_functions_are_typed();
}

/// Each global that a member of a set that links imports has an initial value: the stack pointer, a base, the address of data or the slot of
/// a function.
pub fn initial_values_are_there()
    ensures { InitialValuesAreThere }
{}
