// The numbers that the functions of the loader name.
ghost use Rattle.std.specs.Prelude.{◌≡◌, ◌<◌, ◌^◌, IfOk, IfSome};
ghost use Rattle.merge_index.specs.Numbering as numbering;
ghost use Rattle.merge_index.specs.Numbering.{starts_of};
ghost use Rattle.merge_whole.specs.Counts.{loader_by};
ghost use Rattle.merge_whole.specs.Given.{HasLoader, AreSmall};

use crate::built::starts::range;
use dyl_link::Linked;
use merge_dl::DlNumbers;
use merge_index::{LoaderNumbers, Numbers};
use std::alloc::Global;
use wasm_form::Memory;

fn loader_by(
    alloc: Global,
    linked: &Linked,
    guard: u32,
    n: LoaderNumbers,
) -> Result<DlNumbers, Memory>
    requires guard { guard < 2 ^ 30 }
    requires first { n.first_opening < 2 ^ 31 }
    requires length { n.length < 2 ^ 31 }
    ensures is { IfOk result (λ d. d ≡ loader_by linked.now guard n) }
    ensures small { IfOk result AreSmall }
{
    let count = linked.member_count();
    let error = guard + count;
    let end = n.first_opening + count;
    let opens = range(alloc, n.first_opening, end)?;
    Ok(DlNumbers {
        error,
        guard,
        first_function: n.length,
        opens,
        promoted: error + 1,
    })
}

// The numbers that the functions of the loader name, where a member uses them and the guards come from a number on.
pub(crate) fn loader_numbers(
    alloc: Global,
    linked: &Linked,
    n: &Numbers,
    guard: u32,
) -> Result<Option<DlNumbers>, Memory>
    requires guard { guard < 2 ^ 30 }
    requires first { IfSome n.now.loader (λ l. l.first_opening < 2 ^ 31) }
    requires length { IfSome n.now.loader (λ l. l.length < 2 ^ 31) }
    requires loader { n.now.loader ≡ numbering.loader_numbers linked.now }
    requires guards { guard ≡ (starts_of linked.now).guards }
    ensures small { IfOk result (λ d. IfSome d AreSmall) }
    ensures loader { IfOk result (λ d. HasLoader linked.now (starts_of linked.now) d) }
{
    let Some(loader) = n.loader() else {
        return Ok(None);
    };
    let numbers = loader_by(alloc, linked, guard, loader)?;
    Ok(Some(numbers))
}
