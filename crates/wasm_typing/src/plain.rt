// Instructions without operands, and constants.
ghost use Rattle.std.specs.Prelude.{◌≡◌, [], ◌∷◌, Some};
ghost use Rattle.wasm_form.specs.declared.types.ValType.TheVariants.{FuncRef};
ghost use Rattle.spec_validation.specs.spec_binary.SameTypes.{same_type as same};
ghost use Rattle.spec_validation.specs.Context.{from_to, given, Gives, plain_shape, operator_type, select_shape};
ghost use Rattle.spec_validation.specs.Typing.{shaped, shape_after};
ghost use Rattle.wasm_typing.specs.Answers.{Leaves};
ghost use Rattle.wasm_typing.specs.Contexts.{context_of};
ghost use Rattle.wasm_typing.specs.Shapes.{plain_shape_of};
ghost use Rattle.wasm_typing.specs.States.{with_stack};

use crate::effect::{choose, drop_one, effect, effect_if, jump};
use crate::fault::TypingFault;
use crate::scope::Scope;
use crate::stacks::{Stacks, same_type};
use wasm_form::{Operator, PlainForm, ValType, plain_form};

/// An instruction without operands.
pub fn plain(scope: &Scope, at: &mut Stacks, op: u8) -> Result<(), TypingFault>
    ensures stack { Leaves result at.new.stack (shape_after (plain_shape_of (context_of scope.now.env) op) at.old.stack) }
    ensures rest { at.new ≡ with_stack at.old at.new.stack }
{
    match plain_form(op) {
        Some(form) => in_form(scope, at, form),
        None => Err(TypingFault::Invalid),
    }
}

fn in_form(scope: &Scope, at: &mut Stacks, form: PlainForm) -> Result<(), TypingFault>
    ensures stack { Leaves result at.new.stack (shaped (plain_shape (context_of scope.now.env) form) at.old.stack) }
    ensures rest { at.new ≡ with_stack at.old at.new.stack }
{
    match form {
        PlainForm::Unreachable => jump(at, &[]),
        PlainForm::Nop => effect(at, &[], &[]),
        PlainForm::Return => jump(at, scope.results()),
        PlainForm::Drop => drop_one(at),
        PlainForm::Select => choose(at),
        PlainForm::RefIsNull => effect(at, &[ValType::FuncRef], &[ValType::I32]),
        PlainForm::Operator(operator) => operate(at, operator),
    }
}

/// An operator of integers.
fn operate(at: &mut Stacks, operator: Operator) -> Result<(), TypingFault>
    ensures stack { Leaves result at.new.stack (shaped (Gives (operator_type operator)) at.old.stack) }
    ensures rest { at.new ≡ with_stack at.old at.new.stack }
{
    match operator {
        Operator::Test(ty) => effect(at, &[ty], &[ValType::I32]),
        Operator::Compare(ty) => effect(at, &[ty, ty], &[ValType::I32]),
        Operator::Unary(ty) => effect(at, &[ty], &[ty]),
        Operator::Binary(ty) => effect(at, &[ty, ty], &[ty]),
        Operator::Convert { from, to } => effect(at, &[from], &[to]),
    }
}

/// A constant.
pub fn constant(at: &mut Stacks, ty: ValType) -> Result<(), TypingFault>
    ensures stack { Leaves result at.new.stack (shape_after (Some (Gives (from_to [] (ty ∷ [])))) at.old.stack) }
    ensures rest { at.new ≡ with_stack at.old at.new.stack }
{
    effect(at, &[], &[ty])
}

/// A null of a type.
pub fn null(at: &mut Stacks, ty: ValType) -> Result<(), TypingFault>
    ensures stack { Leaves result at.new.stack (shape_after (given (same ty FuncRef) (from_to [] (FuncRef ∷ []))) at.old.stack) }
    ensures rest { at.new ≡ with_stack at.old at.new.stack }
{
    let holds = same_type(ty, ValType::FuncRef);
    effect_if(holds, at, &[], &[ValType::FuncRef])
}

/// A choice of two values of a listed type.
pub fn select(at: &mut Stacks, types: &[ValType]) -> Result<(), TypingFault>
    ensures stack { Leaves result at.new.stack (shape_after (select_shape types.now) at.old.stack) }
    ensures rest { at.new ≡ with_stack at.old at.new.stack }
{
    match types {
        [ty] => effect(at, &[*ty, *ty, ValType::I32], &[*ty]),
        _ => Err(TypingFault::Invalid),
    }
}
