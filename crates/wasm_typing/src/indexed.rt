// Instructions with one index.
ghost use Rattle.std.specs.Prelude.{◌≡◌};
ghost use Rattle.spec_validation.specs.Context.{index_shape};
ghost use Rattle.spec_validation.specs.Typing.{shape_after};
ghost use Rattle.wasm_typing.specs.Answers.{Leaves};
ghost use Rattle.wasm_typing.specs.Contexts.{context_of};
ghost use Rattle.wasm_typing.specs.Shapes.{index_shape_of};
ghost use Rattle.wasm_typing.specs.States.{with_stack, labels_of};

use crate::effect::{effect, effect_if, effect_under, jump};
use crate::fault::TypingFault;
use crate::scope::Scope;
use crate::stacks::Stacks;
use wasm_form::{IndexForm, ValType, index_form};

/// An instruction with one index.
pub fn indexed(scope: &Scope, at: &mut Stacks, op: u8, n: u32) -> Result<(), TypingFault>
    ensures stack { Leaves result at.new.stack (shape_after (index_shape_of (context_of scope.now.env) (labels_of at.old.levels) op n) at.old.stack) }
    ensures rest { at.new ≡ with_stack at.old at.new.stack }
{
    match index_form(op) {
        Some(form) => in_form(scope, at, form, n),
        None => Err(TypingFault::Invalid),
    }
}

fn in_form(scope: &Scope, at: &mut Stacks, form: IndexForm, n: u32) -> Result<(), TypingFault>
    ensures stack { Leaves result at.new.stack (shape_after (index_shape (context_of scope.now.env) (labels_of at.old.levels) form n) at.old.stack) }
    ensures rest { at.new ≡ with_stack at.old at.new.stack }
{
    match form {
        IndexForm::Br => match at.label(n) {
            Some(types) => jump(at, types),
            None => Err(TypingFault::Invalid),
        },
        IndexForm::BrIf => match at.label(n) {
            Some(types) => effect_under(at, types, types),
            None => Err(TypingFault::Invalid),
        },
        IndexForm::Call => match scope.function(n) {
            Some(ty) => effect(at, ty.params, ty.results),
            None => Err(TypingFault::Invalid),
        },
        IndexForm::LocalGet => match scope.local(n) {
            Some(ty) => effect(at, &[], &[ty]),
            None => Err(TypingFault::Invalid),
        },
        IndexForm::LocalSet => match scope.local(n) {
            Some(ty) => effect(at, &[ty], &[]),
            None => Err(TypingFault::Invalid),
        },
        IndexForm::LocalTee => match scope.local(n) {
            Some(ty) => effect(at, &[ty], &[ty]),
            None => Err(TypingFault::Invalid),
        },
        IndexForm::GlobalGet => match scope.global(n) {
            Some(global) => effect(at, &[], &[global.value]),
            None => Err(TypingFault::Invalid),
        },
        IndexForm::GlobalSet => match scope.global(n) {
            Some(global) => effect_if(global.mutable, at, &[global.value], &[]),
            None => Err(TypingFault::Invalid),
        },
        IndexForm::TableGet => match scope.table(n) {
            Some(ty) => effect(at, &[ValType::I32], &[ty]),
            None => Err(TypingFault::Invalid),
        },
        IndexForm::TableSet => match scope.table(n) {
            Some(ty) => effect(at, &[ValType::I32, ty], &[]),
            None => Err(TypingFault::Invalid),
        },
        IndexForm::RefFunc => effect_if(scope.refers(n), at, &[], &[ValType::FuncRef]),
    }
}
