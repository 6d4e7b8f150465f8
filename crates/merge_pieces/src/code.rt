// The code that opens members, and their guards.
ghost use Rattle.std.specs.Prelude.{◌≡◌, ◌+◌, ◌<◌, ◌^◌, ◌++◌, IfOk, OnOk};
ghost use Rattle.merge_pieces.specs.Code.{number, guarded, phase_calls, phases_code, opening_code, AreFew};
ghost use Rattle.merge_pieces.specs.Guards.{GuardsWithin};

use crate::opcodes;
use std::alloc::Global;
use wasm_form::{BlockType, Expr, Instr, List, Memory};

/// A number as a constant.
pub fn number(k: u32) -> Instr
    ensures { result ≡ number k }
{
    Instr::I32Const(k.cast_signed())
}

/// The work of a stage of member m, which is done once: where the member's guard is below the stage it is raised to it, and then the work is
/// done. The guards are globals from a number on, one for each member. Five steps lead over it, or six to the work. `Memory` where no memory
/// could be had.
#[tactic(auto, unfolding(crate::specs::Code::guarded))]
pub fn guarded(
    alloc: Global,
    guards: u32,
    m: u32,
    stage: u32,
    work: Vec<Instr>,
) -> Result<Vec<Instr>, Memory>
    requires few { m < 2 ^ 16 }
    requires guards { guards < 2 ^ 31 }
    ensures code { IfOk result (λ x. x.items ≡ guarded (guards + m) stage work.items) }
    ensures steps { IfOk result (λ x. GuardsWithin (guards + m) stage work.items x.items) }
{
    let guard = guards + m;
    let mut work = work;
    let mut body = vec![in alloc; number(stage), Instr::Index(opcodes::GLOBAL_SET, guard)]?;
    body.append(&mut work)?;
    let body = Expr {
        list: List::of(body),
    };
    Ok(vec![in alloc;
        Instr::Index(opcodes::GLOBAL_GET, guard),
        number(stage),
        Instr::Plain(opcodes::I32_LT_U),
        Instr::If(BlockType::Empty, body, None),
    ]?)
}

// The functions of the phase after so many are called for some members, in order, where each member has four from a first one on.
fn push_phase(code: &mut Vec<Instr>, first: u32, before: u32, members: &[u32]) -> Result<(), Memory>
    requires first { first < 2 ^ 31 }
    requires phase { before < 4 }
    requires few { AreFew members.now }
    ensures { OnOk result (code.new.items ≡ code.old.items ++ phase_calls first before members.now) }
{
    for m in members {
        code.push(Instr::Index(opcodes::CALL, first + 4 * *m + before))?;
    }
    Ok(())
}

// The phases of some members, the last of them in an order of its own.
fn push_phases(
    code: &mut Vec<Instr>,
    first: u32,
    breadth: &[u32],
    post: &[u32],
) -> Result<(), Memory>
    requires first { first < 2 ^ 31 }
    requires breadth { AreFew breadth.now }
    requires post { AreFew post.now }
    ensures { OnOk result (code.new.items ≡ code.old.items ++ phases_code first breadth.now post.now) }
{
    push_phase(code, first, 0, breadth)?;
    push_phase(code, first, 1, breadth)?;
    push_phase(code, first, 2, breadth)?;
    push_phase(code, first, 3, post)?;
    Ok(())
}

/// The phases of some members, the last of them in an order of its own, and then an instruction. The functions of the phases come from a first
/// one on, four for each member. `Memory` where no memory could be had.
pub fn opening_code(
    alloc: Global,
    first: u32,
    breadth: &[u32],
    post: &[u32],
    last: Instr,
) -> Result<Vec<Instr>, Memory>
    requires first { first < 2 ^ 31 }
    requires breadth { AreFew breadth.now }
    requires post { AreFew post.now }
    ensures { IfOk result (λ code. code.items ≡ opening_code first breadth.now post.now last) }
{
    let mut code = Vec::new(alloc);
    match push_phases(&mut code, first, breadth, post) {
        Ok(()) => {
            code.push(last)?;
            Ok(code)
        }
        Err(memory) => {
            drop(code);
            drop(last);
            Err(memory)
        }
    }
}
