// The opening state of a module (section 4.5.4).
ghost use Rattle.std.specs.Prelude.{◌≡◌, IsTrue, IfOk};
ghost use Rattle.spec_safety.specs.spec_execution.OneModule.{opened_memory, opened_parts, segments_performed};
ghost use Rattle.spec_safety.specs.Laws.{IsAlone, imports_functions};
ghost use Rattle.wasm_instance.specs.Imports.{ImportsFunctions};
ghost use Rattle.wasm_instance.specs.Opening.{Applies, Opens};
ghost use Rattle.wasm_instance.specs.Kept.{parts_in, HasAll};

use crate::applying::{apply_datas, apply_elems};
use crate::constants::globals_of;
use crate::imports::host_types_of;
use crate::instance::Instance;
use crate::rooms::rooms_of;
use crate::segments::{datas_of, elems_of};
use crate::space::space_of;
use crate::tables::tables_of;
use spec_safety::spec_execution::SingleFault;
use std::alloc::Global;
use wasm_check::Checked;
use wasm_form::{Memory, Module, Ref, Value};
use wasm_space::{Slots, Space};

// What changes of a module in a run.
#[derive(Drop)]
struct Parts<'m> {
    globals: Vec<Value>,
    tables: Vec<Slots>,
    elems: Vec<Vec<Option<Ref>>>,
    datas: Vec<&'m [u8]>,
    memory: Space,
}

// The parts before the active segments are applied.
fn parts_of<'m>(alloc: Global, m: &'m Module, imported: u32) -> Result<Parts<'m>, Memory>
    requires { ImportsFunctions m.now imported }
    ensures parts { IfOk result (λ p. parts_in p ≡ opened_parts m.now) }
    ensures memory { IfOk result (λ p. p.memory ≡ opened_memory m.now.memories) }
{
    let globals = globals_of(alloc, m, imported)?;
    let tables = tables_of(alloc, m.tables.items())?;
    let elems = elems_of(alloc, m, imported)?;
    let datas = datas_of(alloc, m.datas.items())?;
    let memory = space_of(alloc, m.memories.items())?;
    Ok(Parts {
        globals,
        tables,
        elems,
        datas,
        memory,
    })
}

// Applies the active segments: those of elements, then those of bytes.
fn apply(alloc: Global, m: &Module, parts: &mut Parts) -> Result<(), SingleFault>
    requires alone { IsAlone m.now }
    requires parts { parts_in parts.old ≡ opened_parts m.now }
    requires memory { parts.old.memory ≡ opened_memory m.now.memories }
    ensures applied { Applies (segments_performed m.now) result (parts_in parts.new) parts.new.memory }
    ensures counts { HasAll m.now (parts_in parts.new) }
{
    apply_elems(alloc, m, &mut parts.tables, &mut parts.elems)?;
    apply_datas(alloc, m, &mut parts.memory, &mut parts.datas)
}

impl<'m> Instance<'m> {
    /// The opening state of a module that imports functions alone: `SegmentTrap` exactly where an active segment passes the
    /// end of its table or of the memory, and `Memory` where memory was wanting.
    pub fn open(alloc: Global, checked: &'m Checked) -> Result<Instance<'m>, SingleFault>
        requires { IsTrue (imports_functions checked.now) }
        ensures { Opens checked.now result }
    {
        let m = checked.module();
        let host_types = host_types_of(alloc, m.imports.items())?;
        let imported = host_types.len() as u32;
        let rooms = rooms_of(alloc, checked)?;
        let mut parts = parts_of(alloc, m, imported)?;
        match apply(alloc, m, &mut parts) {
            Ok(()) => Ok(Instance {
                checked,
                imported,
                host_types,
                rooms,
                globals: parts.globals,
                tables: parts.tables,
                elems: parts.elems,
                datas: parts.datas,
                memory: parts.memory,
            }),
            Err(fault) => {
                drop(parts);
                Err(fault)
            }
        }
    }
}
