// Branches by a table of labels.
ghost use Rattle.std.specs.Prelude.{◌≡◌, slice_get};
ghost use Rattle.spec_validation.specs.Typing.{lands_with, all_land as all_landed, tabled};
ghost use Rattle.wasm_typing.specs.Answers.{Leaves};
ghost use Rattle.wasm_typing.specs.States.{with_stack, labels_of};

use crate::fault::TypingFault;
use crate::stacks::Stacks;
use wasm_form::ValType;

/// Whether a branch with this label takes so many values, and these are on top.
fn lands(at: &Stacks, arity: usize, k: u32) -> bool
    ensures { result ≡ lands_with arity at.now.stack (slice_get (labels_of at.now.levels) k) }
{
    match at.label(k) {
        Some(types) => types.len() == arity && at.has(types),
        None => false,
    }
}

/// Whether the branches with all of these labels do.
fn all_land(at: &Stacks, arity: usize, ks: &[u32]) -> bool
    ensures { result ≡ all_landed (labels_of at.now.levels) arity at.now.stack ks.now }
{
    for k in ks {
        if !lands(at, arity, *k) {
            return false;
        }
    }
    true
}

/// A choice of labels by a number, and the default one.
pub fn branch_table(at: &mut Stacks, ks: &[u32], last: u32) -> Result<(), TypingFault>
    ensures stack { Leaves result at.new.stack (tabled (labels_of at.old.levels) ks.now last at.old.stack) }
    ensures rest { at.new ≡ with_stack at.old at.new.stack }
{
    at.take(&[ValType::I32])?;
    let Some(types) = at.label(last) else {
        return Err(TypingFault::Invalid);
    };
    if !lands(at, types.len(), last) || !all_land(at, types.len(), ks) {
        return Err(TypingFault::Invalid);
    }
    at.leave_unreachable();
    Ok(())
}
