// The exports of the merged module.
ghost use Rattle.std.specs.Prelude.{◌≡◌, IfOk};
ghost use Rattle.merge_module.specs.MergedModule.{entry_exports};

use std::alloc::Global;
use wasm_form::{Export, ExportDesc, List, Memory, Text};

// The entry function as `_start`, and the memory.
pub(crate) fn entry_exports(alloc: Global, entry: u32) -> Result<List<Export>, Memory>
    ensures { IfOk result (λ x. x ≡ entry_exports entry) }
{
    let mut items = Vec::new(alloc);
    items.push(Export {
        name: Text::of(String::from_str(alloc, "_start")?),
        desc: ExportDesc::Func(entry),
    })?;
    items.push(Export {
        name: Text::of(String::from_str(alloc, "memory")?),
        desc: ExportDesc::Space(0),
    })?;
    Ok(List::of(items))
}
