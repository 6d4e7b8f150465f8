// The instructions of a body, with the blocks inside one another.
ghost use Rattle.std.specs.Prelude.{◌≡◌};
ghost use Rattle.spec_validation.specs.Typing.{after, afters, closes, inside as typed_inside, nested, height};
ghost use Rattle.wasm_typing.specs.Answers.{Obtains, Leaves};
ghost use Rattle.wasm_typing.specs.Contexts.{context_of, signature_of};
ghost use Rattle.wasm_typing.specs.States.{Reaches, IsNoted, entered, restarted, labels_of};
ghost use Rattle.wasm_typing.specs.Blocks.{else_of};

use crate::branch::branch_table;
use crate::fault::TypingFault;
use crate::indexed::indexed;
use crate::memory::{access, call_indirect, on_memory, prefixed};
use crate::plain::{constant, null, plain, select};
use crate::scope::{Env, Scope, Signature};
use crate::stacks::Stacks;
use std::alloc::Global;
use wasm_form::{Expr, Instr, ValType};

/// One instruction.
#[cycle(body)]
#[tactic(auto, using(crate::proofs::Laws::after_laws))]
fn instruction<'a>(scope: &Scope<'a>, at: &mut Stacks<'a>, i: &Instr) -> Result<(), TypingFault>
    requires { IsNoted at.old }
    ensures { Reaches result at.old at.new (after (context_of scope.now.env) i.now (labels_of at.old.levels) at.old.stack) }
{
    match i {
        Instr::Plain(op) => plain(scope, at, *op),
        Instr::Index(op, n) => indexed(scope, at, *op, *n),
        Instr::Block(t, e) => match scope.block(t) {
            Some(ty) => block(scope, at, &ty, ty.results, e.list.items()),
            None => Err(TypingFault::Invalid),
        },
        Instr::Loop(t, e) => match scope.block(t) {
            Some(ty) => block(scope, at, &ty, ty.params, e.list.items()),
            None => Err(TypingFault::Invalid),
        },
        Instr::If(t, e, other) => match scope.block(t) {
            Some(ty) => {
                at.take(&[ValType::I32])?;
                at.take(ty.params)?;
                inside(scope, at, &ty, ty.results, e.list.items())?;
                other_side(scope, at, &ty, other)?;
                at.leave(ty.results)
            }
            None => Err(TypingFault::Invalid),
        },
        Instr::BrTable(ks, last) => branch_table(at, ks.items(), *last),
        Instr::CallIndirect { ty, table } => call_indirect(scope, at, *ty, *table),
        Instr::Select(types) => select(at, types.items()),
        Instr::Access { op, align, .. } => access(scope, at, *op, *align),
        Instr::MemorySize => on_memory(scope, at, &[], &[ValType::I32]),
        Instr::MemoryGrow => on_memory(scope, at, &[ValType::I32], &[ValType::I32]),
        Instr::I32Const(_) => constant(at, ValType::I32),
        Instr::I64Const(_) => constant(at, ValType::I64),
        Instr::F32Const(_) => Err(TypingFault::Invalid),
        Instr::F64Const(_) => Err(TypingFault::Invalid),
        Instr::RefNull(ty) => null(at, *ty),
        Instr::Prefixed { op, a, b } => prefixed(scope, at, *op, *a, *b),
    }
}

/// A block or a loop, from what lies under its parameters to its results.
#[cycle(body)]
fn block<'a>(
    scope: &Scope<'a>,
    at: &mut Stacks<'a>,
    ty: &Signature<'a>,
    label: &'a [ValType],
    instrs: &[Instr],
) -> Result<(), TypingFault>
    ensures { Reaches result at.old at.new (nested (afters (context_of scope.now.env) instrs.now) label.now (signature_of ty.now) (labels_of at.old.levels) at.old.stack) }
{
    at.take(ty.params)?;
    inside(scope, at, ty, label, instrs)?;
    at.leave(ty.results)
}

/// The inside of a block that is opened here.
#[cycle(body)]
fn inside<'a>(
    scope: &Scope<'a>,
    at: &mut Stacks<'a>,
    ty: &Signature<'a>,
    label: &'a [ValType],
    instrs: &[Instr],
) -> Result<(), TypingFault>
    ensures { Reaches result (entered at.old ty.now.params.now label.now at.old.stack) at.new (typed_inside (afters (context_of scope.now.env) instrs.now) label.now (signature_of ty.now) (labels_of at.old.levels)) }
{
    at.enter(ty.params, label)?;
    sequence(scope, at, instrs)?;
    if !at.ends_with(ty.results) {
        return Err(TypingFault::Invalid);
    }
    Ok(())
}

/// The other side of an `if`, in the block of the one.
#[cycle(body)]
fn other_side<'a>(
    scope: &Scope<'a>,
    at: &mut Stacks<'a>,
    ty: &Signature<'a>,
    other: &Option<Expr>,
) -> Result<(), TypingFault>
    ensures { Reaches result (restarted at.old ty.now.params.now) at.new (closes (afters (context_of scope.now.env) (else_of other.now)) (signature_of ty.now) (labels_of at.old.levels)) }
{
    at.restart(ty.params)?;
    match other {
        Some(e) => sequence(scope, at, e.list.items())?,
        None => at.note(),
    }
    if !at.ends_with(ty.results) {
        return Err(TypingFault::Invalid);
    }
    Ok(())
}

/// Instructions one after the other.
#[cycle(body)]
fn sequence<'a>(scope: &Scope<'a>, at: &mut Stacks<'a>, instrs: &[Instr]) -> Result<(), TypingFault>
    ensures { Reaches result at.old at.new (afters (context_of scope.now.env) instrs.now (labels_of at.old.levels) at.old.stack) }
{
    for i in instrs {
        at.note();
        instruction(scope, at, i)?;
    }
    at.note();
    Ok(())
}

/// The height of a body: the greatest number of values on its stack, those of all open blocks together. It is
/// `Invalid` exactly where the body has none, and it may want memory at any time.
pub fn check_body(alloc: Global, env: &Env, body: &[Instr]) -> Result<usize, TypingFault>
    ensures { Obtains result (height (context_of env.now) body.now) }
{
    let scope = Scope::new(alloc, env)?;
    let mut at = Stacks::new(alloc);
    let whole = Signature {
        params: &[],
        results: env.results,
    };
    inside(&scope, &mut at, &whole, env.results, body)?;
    Ok(at.most())
}
