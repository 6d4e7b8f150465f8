// What the instructions do that have no block inside.
ghost use Rattle.std.specs.Prelude.{◌≡◌, [], ◌∷◌, ◌++◌};
ghost use Rattle.wasm_form.specs.declared.types.ValType.TheVariants.{I32};
ghost use Rattle.spec_validation.specs.Stacks.{both as one_type, is_integer_entry as is_integer, choose_one as choice};
ghost use Rattle.spec_validation.specs.Context.{from_to, given, Gives, Jumps, Drops, Chooses};
ghost use Rattle.spec_validation.specs.Typing.{shaped, shape_after};
ghost use Rattle.wasm_typing.specs.Answers.{Obtains, Leaves};
ghost use Rattle.wasm_typing.specs.States.{with_stack};

use crate::fault::TypingFault;
use crate::stacks::{Stacks, same_type};
use wasm_form::ValType;

/// Takes these and gives those.
pub fn effect(at: &mut Stacks, params: &[ValType], results: &[ValType]) -> Result<(), TypingFault>
    ensures stack { Leaves result at.new.stack (shaped (Gives (from_to params.now results.now)) at.old.stack) }
    ensures rest { at.new ≡ with_stack at.old at.new.stack }
{
    at.take(params)?;
    at.put(results)
}

/// Takes these and gives those, if this holds.
pub fn effect_if(
    holds: bool,
    at: &mut Stacks,
    params: &[ValType],
    results: &[ValType],
) -> Result<(), TypingFault>
    ensures stack { Leaves result at.new.stack (shape_after (given holds (from_to params.now results.now)) at.old.stack) }
    ensures rest { at.new ≡ with_stack at.old at.new.stack }
{
    if !holds {
        return Err(TypingFault::Invalid);
    }
    effect(at, params, results)
}

/// Takes an i32 and these, which lie under it, and gives those.
#[tactic(auto, using(crate::proofs::Tops::take_last))]
pub fn effect_under(
    at: &mut Stacks,
    params: &[ValType],
    results: &[ValType],
) -> Result<(), TypingFault>
    ensures stack { Leaves result at.new.stack (shaped (Gives (from_to (params.now ++ I32 ∷ []) results.now)) at.old.stack) }
    ensures rest { at.new ≡ with_stack at.old at.new.stack }
{
    at.take(&[ValType::I32])?;
    at.take(params)?;
    at.put(results)
}

/// Takes these and goes away.
pub fn jump(at: &mut Stacks, types: &[ValType]) -> Result<(), TypingFault>
    ensures stack { Leaves result at.new.stack (shaped (Jumps types.now) at.old.stack) }
    ensures rest { at.new ≡ with_stack at.old at.new.stack }
{
    at.take(types)?;
    at.leave_unreachable();
    Ok(())
}

/// Takes one value of any type.
pub fn drop_one(at: &mut Stacks) -> Result<(), TypingFault>
    ensures stack { Leaves result at.new.stack (shaped Drops at.old.stack) }
    ensures rest { at.new ≡ with_stack at.old at.new.stack }
{
    at.pop()?;
    Ok(())
}

/// Takes two integers of one type and an i32, and gives one of the two.
pub fn choose(at: &mut Stacks) -> Result<(), TypingFault>
    ensures stack { Leaves result at.new.stack (shaped Chooses at.old.stack) }
    ensures rest { at.new ≡ with_stack at.old at.new.stack }
{
    at.take(&[ValType::I32])?;
    choose_one(at)
}

fn choose_one(at: &mut Stacks) -> Result<(), TypingFault>
    ensures stack { Leaves result at.new.stack (choice at.old.stack) }
    ensures rest { at.new ≡ with_stack at.old at.new.stack }
{
    let first = at.pop()?;
    let second = at.pop()?;
    let entry = both(first, second)?;
    if !is_integer_entry(entry) {
        return Err(TypingFault::Invalid);
    }
    at.push(entry)
}

/// The one type of two entries.
fn both(first: Option<ValType>, second: Option<ValType>) -> Result<Option<ValType>, TypingFault>
    ensures { Obtains result (one_type first second) }
{
    let Some(t) = first else {
        return Ok(second);
    };
    let Some(u) = second else {
        return Ok(first);
    };
    if same_type(t, u) {
        Ok(first)
    } else {
        Err(TypingFault::Invalid)
    }
}

/// Whether an entry is an integer or unknown.
fn is_integer_entry(entry: Option<ValType>) -> bool
    ensures { result ≡ is_integer entry }
{
    match entry {
        None => true,
        Some(ty) => matches!(ty, ValType::I32 | ValType::I64),
    }
}
