// The functions of the loader.
ghost use Rattle.std.specs.Prelude.{◌≡◌, ◌++◌, ◌<◌, ◌^◌, IfOk, OnOk};
ghost use Rattle.merge_start.specs.Words.{Starts};
ghost use Rattle.merge_dl.specs.Words.{Finders};
ghost use Rattle.merge_dl.specs.Listed.{AreDlNumbers, call_parts};

use crate::dlclose::close_function;
use crate::dlerror::error_function;
use crate::dlopen::open_function;
use crate::dlsym::symbol_function;
use crate::numbers::DlNumbers;
use dyl_link::Linked;
use std::alloc::Global;
use wasm_form::{List, Memory, Part};

// The functions are put one after the other.
fn put_functions(
    alloc: Global,
    to: &mut Vec<Part>,
    linked: &Linked,
    n: &DlNumbers,
) -> Result<(), Memory>
    requires guard { n.now.guard < 2 ^ 31 }
    requires first { n.now.first_function < 2 ^ 31 }
    requires promoted { n.now.promoted < 2 ^ 31 }
    ensures { OnOk result ((x : Starts) (d : Finders) → AreDlNumbers linked.now n.now x d → to.new.items ≡ to.old.items ++ call_parts linked.now x d) }
{
    to.push(open_function(alloc, linked, n)?)?;
    to.push(symbol_function(alloc, linked, n)?)?;
    to.push(close_function(alloc, linked, n)?)?;
    to.push(error_function(alloc, linked, n)?)?;
    Ok(())
}

/// The functions of the loader as code of the merged module of a linked set, in this order: `dlopen`, `dlsym`, `dlclose` and `dlerror`.
/// `Memory` where no memory could be had.
pub fn dl_functions(alloc: Global, linked: &Linked, n: &DlNumbers) -> Result<List<Part>, Memory>
    requires guard { n.now.guard < 2 ^ 31 }
    requires first { n.now.first_function < 2 ^ 31 }
    requires promoted { n.now.promoted < 2 ^ 31 }
    ensures { IfOk result (λ parts. (x : Starts) (d : Finders) → AreDlNumbers linked.now n.now x d → parts ≡ call_parts linked.now x d) }
{
    let mut parts = Vec::new(alloc);
    match put_functions(alloc, &mut parts, linked, n) {
        Ok(()) => Ok(List::of(parts)),
        Err(memory) => {
            drop(parts);
            Err(memory)
        }
    }
}
