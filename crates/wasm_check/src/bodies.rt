// The bodies of a module: each is well typed.
ghost use Rattle.std.specs.Prelude.{◌≡◌, ◌++◌, ◌<◌, ◌^◌, ◌∷◌, [], length, Some, IfOk, OnOk};
ghost use Rattle.spec_execution.specs.spec_binary.IndexSpaces.{memory_space};
ghost use Rattle.spec_execution.specs.spec_validation.Typing.{height};
ghost use Rattle.wasm_typing.specs.Answers.{Obtains};
ghost use Rattle.spec_execution.specs.spec_validation.Faults as validation;
ghost use Rattle.wasm_check.specs.Answers.{ChecksTo};
ghost use Rattle.wasm_check.specs.Spaces.{AreSpaces};
ghost use Rattle.wasm_check.specs.Marks.{AreMarks};
ghost use Rattle.spec_execution.specs.spec_binary.Saturated.{saturated};
ghost use Rattle.wasm_check.specs.Heights.{HaveHeights};

use crate::spaces::Spaces;
use spec_execution::spec_validation::CheckFault;
use std::alloc::Global;
use wasm_form::{Code, FuncType, Memory, Module};
use wasm_typing::{Env, TypingFault, check_body};

// A height as a number of 32 bits.
fn saturated_height(height: usize) -> u32
    ensures { result ≡ saturated height }
{
    if height < 0xFFFF_FFFF {
        height as u32
    } else {
        0xFFFF_FFFF
    }
}

fn has_memory(m: &Module, spaces: &Spaces) -> bool
    requires { AreSpaces m.now spaces.now }
    ensures { result ≡ validation.is_some_memory (memory_space m.now) }
{
    0 < spaces.memories
}

// The height of a body of this type.
fn height_as(
    alloc: Global,
    m: &Module,
    spaces: &Spaces,
    refers: &[bool],
    f: &FuncType,
    c: &Code,
) -> Result<usize, TypingFault>
    requires spaces { AreSpaces m.now spaces.now }
    requires marks { AreMarks m.now refers.now }
    ensures { Obtains result (height (validation.body_context m.now f.now c.now) c.now.body.list) }
{
    let env = Env {
        types: m.types.items(),
        functions: &spaces.functions,
        globals: &spaces.globals,
        tables: &spaces.tables,
        elems: &spaces.elems,
        memory: has_memory(m, spaces),
        datas: m.datas.items().len(),
        refers,
        params: f.params.items(),
        groups: c.locals.items(),
        results: f.results.items(),
    };
    check_body(alloc, &env, c.body.list.items())
}

// The height of the body with this number.
fn body_typed(
    alloc: Global,
    m: &Module,
    spaces: &Spaces,
    refers: &[bool],
    n: u32,
    c: &Code,
) -> Result<usize, CheckFault>
    requires spaces { AreSpaces m.now spaces.now }
    requires marks { AreMarks m.now refers.now }
    ensures tells { ChecksTo result (validation.body_typed m.now n c.now) }
    ensures height { IfOk result (λ h. validation.body_height m.now n c.now ≡ Some h) }
{
    let Some(t) = m.funcs.items().get(n as usize) else {
        return Err(CheckFault::BadBody { function: n });
    };
    let Some(f) = m.types.items().get(*t as usize) else {
        return Err(CheckFault::BadBody { function: n });
    };
    match height_as(alloc, m, spaces, refers, f, c) {
        Ok(height) => Ok(height),
        Err(TypingFault::Memory) => Err(CheckFault::Memory),
        Err(TypingFault::Invalid) => Err(CheckFault::BadBody { function: n }),
    }
}

fn put_height(heights: &mut Vec<u32>, height: usize) -> Result<(), Memory>
    ensures { OnOk result (heights.new.items ≡ heights.old.items ++ saturated height ∷ []) }
{
    heights.push(saturated_height(height))?;
    Ok(())
}

/// The heights of the bodies.
pub(crate) fn bodies_typed(
    alloc: Global,
    m: &Module,
    spaces: &Spaces,
    refers: &[bool],
) -> Result<Vec<u32>, CheckFault>
    requires count { length m.now.codes < 2 ^ 32 }
    requires spaces { AreSpaces m.now spaces.now }
    requires marks { AreMarks m.now refers.now }
    ensures tells { ChecksTo result (validation.first_in (validation.body_typed m.now) 0 m.now.codes) }
    ensures heights { IfOk result (λ v. HaveHeights m.now (length m.now.codes) v.items) }
{
    let codes = m.codes.items();
    let mut heights = Vec::new(alloc);
    for n in 0..codes.len() {
        let height = body_typed(alloc, m, spaces, refers, n as u32, &codes[n])?;
        put_height(&mut heights, height)?;
    }
    Ok(heights)
}
