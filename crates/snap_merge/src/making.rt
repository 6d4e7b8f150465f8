// The module of a linked set with the contents of the state at which its run stands.
ghost use Rattle.std.specs.Prelude.{◌≡◌, ◌≤◌, false, IfOk};
ghost use Rattle.spec_loading.specs.spec_runtime.Courses.{state_at};
ghost use Rattle.spec_loading.specs.spec_linking.Slots.{linked_plan};
ghost use Rattle.dyl_store.specs.Stores.{set_course};
ghost use Rattle.merge_whole.specs.Parts.{ArePartsOf};
ghost use Rattle.snap_merge.specs.Added.{IsBehind};
ghost use Rattle.snap_merge.specs.Written.{IsMade};

use crate::added::Behind;
use dyl_link::Linked;
use dyl_store::Store;
use merge_module::merged_modules_are_ready;
use merge_whole::{Parts, check_types};
use snap_parts::{Added, Flat, held};
use std::alloc::Global;
use wasm_form::{Memory, Module};

/// The module of a linked set with the contents of the state at which its run stands.
pub(crate) fn made(
    alloc: Global,
    linked: &Linked,
    store: &Store,
    behind: &Behind,
    parts: Parts,
) -> Result<Module, Memory>
    requires same { store.now.linked ≡ linked.now }
    requires found { store.now.run.lost ≡ false }
    requires pages { (linked_plan linked.now).pages_max ≤ 16384 }
    requires parts { ArePartsOf linked.now parts }
    requires behind { IsBehind linked.now (state_at (set_course linked.now) store.now.run).loader behind.now }
    ensures { IfOk result (λ m. IsMade linked.now (state_at (set_course linked.now) store.now.run) m) }
{
    linked.links();
    merged_modules_are_ready();
    let Parts {
        module,
        numbers,
        start,
        entry,
        dl,
    } = parts;
    drop(start);
    drop(dl);
    let Ok(()) = check_types(module.types.items()) else {
        drop(module);
        drop(numbers);
        return Err(Memory);
    };
    let flat = Flat {
        globals: store.globals(),
        tables: store.tables(),
        elems: store.elems(),
        datas: store.datas(),
    };
    let added = Added {
        globals: &behind.globals,
        left: &behind.left,
    };
    let result = held(alloc, module, entry, &numbers, flat, added, store.memory());
    drop(numbers);
    result
}
