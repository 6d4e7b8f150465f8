// The records of the modules.
ghost use Rattle.std.specs.Prelude.{◌≡◌, ◌<◌, IfOk};
ghost use Rattle.dyl_section.specs.Written.{IsWritable};
ghost use Rattle.dyl_gen.specs.Generated.{dylink, no_dylink};

use crate::names::{file_name, is_last, is_main, next, text};
use dyl_section::Dylink;
use std::alloc::Global;
use wasm_form::{List, Memory, Text};

// The files that a member of n needs.
fn needed(alloc: Global, n: u32, k: u32) -> Result<List<Text>, Memory>
    requires { k < n }
    ensures { IfOk result (λ names. names ≡ (dylink n k).needed) }
{
    let mut names = Vec::new(alloc);
    names.push(file_name(alloc, next(n, k))?)?;
    if is_main(k) {
        names.push(text(alloc, "e.so")?)?;
    }
    Ok(List::of(names))
}

// The record of a member of n.
pub(crate) fn dylink(alloc: Global, n: u32, k: u32) -> Result<Dylink, Memory>
    requires { k < n }
    ensures { IfOk result (λ d. d ≡ dylink n k) }
{
    let needed = needed(alloc, n, k)?;
    Ok(Dylink {
        mem_size: 8,
        mem_align: if is_last(n, k) { 16 } else { 2 },
        table_size: 0,
        table_align: 0,
        needed,
        exports: List::of(Vec::new(alloc)),
        imports: List::of(Vec::new(alloc)),
        paths: List::of(Vec::new(alloc)),
    })
}

// The record of a module that needs nothing.
pub(crate) fn no_dylink(alloc: Global) -> Dylink
    ensures { result ≡ no_dylink }
{
    Dylink {
        mem_size: 0,
        mem_align: 0,
        table_size: 0,
        table_align: 0,
        needed: List::of(Vec::new(alloc)),
        exports: List::of(Vec::new(alloc)),
        imports: List::of(Vec::new(alloc)),
        paths: List::of(Vec::new(alloc)),
    }
}
