// What a merged module holds beside code.
ghost use Rattle.std.specs.Prelude.{◌≡◌, ◌∷◌, [], Some, IfOk};
ghost use Rattle.wasm_form.specs.declared.instr.Instr.{roll-Instr};
ghost use Rattle.wasm_form.specs.declared.instr.Instr.TheOpen as Open;
ghost use Rattle.wasm_form.specs.declared.module.DataMode.TheVariants.{Passive};
ghost use Rattle.merge_pieces.specs.Opcodes.{unreachable};

use crate::opcodes;
use std::alloc::Global;
use wasm_form::{Code, Data, DataMode, Expr, Instr, Limits, List, Memory};

/// A data segment of a member, which the code that places the member applies: it isn't active any more. `Memory` where no memory could be had.
pub fn passive_data(alloc: Global, d: &Data) -> Result<Data, Memory>
    ensures { IfOk result (λ x. x ≡ record d.now { mode = Passive }) }
{
    let bytes = Vec::from_slice(alloc, d.bytes.items())?;
    Ok(Data {
        mode: DataMode::Passive,
        bytes: List::of(bytes),
    })
}

/// The type of the memory, by its initial pages and the most that it may have.
pub fn memory_type(pages: u32, most: u32) -> Limits
    ensures { result ≡ record { min = pages; max = Some most } }
{
    Limits {
        min: pages,
        max: Some(most),
    }
}

/// The body of what stands for a function that nothing defines: it traps. `Memory` where no memory could be had.
pub fn trap(alloc: Global) -> Result<Code, Memory>
    ensures { IfOk result (λ c. c ≡ record { locals = []; body = record { list = roll-Instr (Open.Plain unreachable) ∷ [] } }) }
{
    let mut list = Vec::new(alloc);
    list.push(Instr::Plain(opcodes::UNREACHABLE))?;
    Ok(Code {
        locals: List::of(Vec::new(alloc)),
        body: Expr {
            list: List::of(list),
        },
    })
}
