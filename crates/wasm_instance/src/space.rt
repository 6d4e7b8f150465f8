// The memory that a module begins with.
ghost use Rattle.std.specs.Prelude.{◌≡◌, IsTrue, IfOk};
ghost use Rattle.std.specs.List.{list_all};
ghost use Rattle.spec_safety.specs.spec_validation.Faults.{memory_bounded};
ghost use Rattle.spec_safety.specs.spec_execution.OneModule.{opened_memory};

use std::alloc::Global;
use wasm_form::{Limits, Memory};
use wasm_space::Space;

/// The most pages of a memory.
const MOST_PAGES: u32 = 65_536;

/// The memory; one of 0 pages where the module has none.
pub(crate) fn space_of(alloc: Global, memories: &[Limits]) -> Result<Space, Memory>
    requires { IsTrue (list_all memory_bounded memories.now) }
    ensures { IfOk result (λ s. s ≡ opened_memory memories.now) }
{
    match memories.first() {
        Some(limits) => Space::new(alloc, limits.min, limits.max.unwrap_or(MOST_PAGES)),
        None => Space::new(alloc, 0, 0),
    }
}
