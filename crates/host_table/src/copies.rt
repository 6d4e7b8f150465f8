// Copies of types.
ghost use Rattle.std.specs.Prelude.{◌≡◌, IfOk};

use spec_runtime::wasm_form::{FuncType, List, Memory};
use std::alloc::Global;

// A type of its own.
pub fn copied_type(alloc: Global, ty: &FuncType) -> Result<FuncType, Memory>
    ensures { IfOk result (λ t. t ≡ ty.now) }
{
    let params = ty.params.items().to_vec(alloc)?;
    let results = ty.results.items().to_vec(alloc)?;
    Ok(FuncType {
        params: List::of(params),
        results: List::of(results),
    })
}
