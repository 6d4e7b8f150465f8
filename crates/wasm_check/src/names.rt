// Whether each name is exported once.
ghost use Rattle.std.specs.Prelude.{◌≡◌, IfOk};
ghost use Rattle.spec_execution.specs.spec_validation.Faults.{names_distinct};

use std::alloc::Global;
use std::collections::BTreeSet;
use wasm_form::{Export, Memory};

/// Whether each name is exported once.
pub(crate) fn are_distinct(alloc: Global, exports: &[Export]) -> Result<bool, Memory>
    ensures { IfOk result (λ distinct. distinct ≡ names_distinct exports.now) }
{
    let mut names = BTreeSet::new(alloc);
    for export in exports {
        if !names.insert(export.name.as_str())? {
            return Ok(false);
        }
    }
    Ok(true)
}
