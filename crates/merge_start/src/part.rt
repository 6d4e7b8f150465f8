// Functions that are generated.
ghost use Rattle.std.specs.Prelude.{◌≡◌, IfOk};
ghost use Rattle.merge_start.specs.Listed.{part_of, nullary_part, handle_part};

use std::alloc::Global;
use wasm_form::{Code, Expr, FuncType, Instr, List, Memory, Part, ValType};

// A function without parameters and locals.
fn part_of(alloc: Global, results: Vec<ValType>, code: Vec<Instr>) -> Part
    ensures { result ≡ part_of results.items code.items }
{
    Part {
        ty: FuncType {
            params: List::of(Vec::new(alloc)),
            results: List::of(results),
        },
        code: Code {
            locals: List::of(Vec::new(alloc)),
            body: Expr {
                list: List::of(code),
            },
        },
    }
}

// A function without parameters, results and locals.
pub(crate) fn nullary_part(alloc: Global, code: Vec<Instr>) -> Part
    ensures { result ≡ nullary_part code.items }
{
    part_of(alloc, Vec::new(alloc), code)
}

// A function that gives a handle.
pub(crate) fn handle_part(alloc: Global, code: Vec<Instr>) -> Result<Part, Memory>
    ensures { IfOk result (λ part. part ≡ handle_part code.items) }
{
    let results = vec![in alloc; ValType::I32]?;
    Ok(part_of(alloc, results, code))
}
