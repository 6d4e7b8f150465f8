// Instructions of memories, tables and segments, and calls of table entries.
ghost use Rattle.std.specs.Prelude.{◌≡◌};
ghost use Rattle.spec_validation.specs.Context.{from_to, given, access_shape, indirect_shape, second_shape};
ghost use Rattle.spec_validation.specs.Typing.{shape_after};
ghost use Rattle.wasm_typing.specs.Answers.{Leaves};
ghost use Rattle.wasm_typing.specs.Contexts.{context_of};
ghost use Rattle.wasm_typing.specs.Shapes.{access_shape_of, second_shape_of};
ghost use Rattle.wasm_typing.specs.States.{with_stack};

use crate::effect::{effect, effect_if, effect_under};
use crate::fault::TypingFault;
use crate::scope::Scope;
use crate::stacks::{Stacks, same_type};
use wasm_form::{MemoryAccess, SecondForm, ValType, memory_access, second_form};

/// A place, another place or a value, and a number.
const THREE_NUMBERS: &[ValType] = &[ValType::I32, ValType::I32, ValType::I32];

/// A load or a store.
pub fn access(scope: &Scope, at: &mut Stacks, op: u8, align: u32) -> Result<(), TypingFault>
    ensures stack { Leaves result at.new.stack (shape_after (access_shape_of (context_of scope.now.env) op align) at.old.stack) }
    ensures rest { at.new ≡ with_stack at.old at.new.stack }
{
    match memory_access(op) {
        Some(access) => access_as(scope, at, align, access),
        None => Err(TypingFault::Invalid),
    }
}

fn access_as(
    scope: &Scope,
    at: &mut Stacks,
    align: u32,
    access: MemoryAccess,
) -> Result<(), TypingFault>
    ensures stack { Leaves result at.new.stack (shape_after (access_shape (context_of scope.now.env) align access) at.old.stack) }
    ensures rest { at.new ≡ with_stack at.old at.new.stack }
{
    let holds = scope.has_memory() && align <= access.exponent;
    if access.writes {
        return effect_if(holds, at, &[ValType::I32, access.value], &[]);
    }
    effect_if(holds, at, &[ValType::I32], &[access.value])
}

/// An instruction that wants a memory.
pub fn on_memory(
    scope: &Scope,
    at: &mut Stacks,
    params: &[ValType],
    results: &[ValType],
) -> Result<(), TypingFault>
    ensures stack { Leaves result at.new.stack (shape_after (given (context_of scope.now.env).memory (from_to params.now results.now)) at.old.stack) }
    ensures rest { at.new ≡ with_stack at.old at.new.stack }
{
    effect_if(scope.has_memory(), at, params, results)
}

/// A call of a table's entry.
pub fn call_indirect(scope: &Scope, at: &mut Stacks, ty: u32, table: u32) -> Result<(), TypingFault>
    ensures stack { Leaves result at.new.stack (shape_after (indirect_shape (context_of scope.now.env) ty table) at.old.stack) }
    ensures rest { at.new ≡ with_stack at.old at.new.stack }
{
    let Some(entries) = scope.table(table) else {
        return Err(TypingFault::Invalid);
    };
    let Some(called) = scope.type_at(ty) else {
        return Err(TypingFault::Invalid);
    };
    if !same_type(entries, ValType::FuncRef) {
        return Err(TypingFault::Invalid);
    }
    effect_under(at, called.params, called.results)
}

/// An instruction with a second opcode.
pub fn prefixed(scope: &Scope, at: &mut Stacks, op: u32, x: u32, y: u32) -> Result<(), TypingFault>
    ensures stack { Leaves result at.new.stack (shape_after (second_shape_of (context_of scope.now.env) op x y) at.old.stack) }
    ensures rest { at.new ≡ with_stack at.old at.new.stack }
{
    match second_form(op) {
        Some(form) => in_form(scope, at, form, x, y),
        None => Err(TypingFault::Invalid),
    }
}

fn in_form(
    scope: &Scope,
    at: &mut Stacks,
    form: SecondForm,
    x: u32,
    y: u32,
) -> Result<(), TypingFault>
    ensures stack { Leaves result at.new.stack (shape_after (second_shape (context_of scope.now.env) form x y) at.old.stack) }
    ensures rest { at.new ≡ with_stack at.old at.new.stack }
{
    match form {
        SecondForm::MemoryInit => {
            effect_if(
                scope.has_memory() && scope.has_data(x),
                at,
                THREE_NUMBERS,
                &[],
            )
        }
        SecondForm::DataDrop => effect_if(scope.has_data(x), at, &[], &[]),
        SecondForm::MemoryCopy => effect_if(scope.has_memory(), at, THREE_NUMBERS, &[]),
        SecondForm::MemoryFill => effect_if(scope.has_memory(), at, THREE_NUMBERS, &[]),
        SecondForm::TableInit => match (scope.elem(x), scope.table(y)) {
            (Some(t), Some(u)) => effect_if(same_type(t, u), at, THREE_NUMBERS, &[]),
            _ => Err(TypingFault::Invalid),
        },
        SecondForm::ElemDrop => match scope.elem(x) {
            Some(_) => effect(at, &[], &[]),
            None => Err(TypingFault::Invalid),
        },
        SecondForm::TableCopy => match (scope.table(x), scope.table(y)) {
            (Some(t), Some(u)) => effect_if(same_type(t, u), at, THREE_NUMBERS, &[]),
            _ => Err(TypingFault::Invalid),
        },
        SecondForm::TableGrow => match scope.table(x) {
            Some(ty) => effect(at, &[ty, ValType::I32], &[ValType::I32]),
            None => Err(TypingFault::Invalid),
        },
        SecondForm::TableSize => match scope.table(x) {
            Some(_) => effect(at, &[], &[ValType::I32]),
            None => Err(TypingFault::Invalid),
        },
        SecondForm::TableFill => match scope.table(x) {
            Some(ty) => effect(at, &[ValType::I32, ty, ValType::I32], &[]),
            None => Err(TypingFault::Invalid),
        },
    }
}
