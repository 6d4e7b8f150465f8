// The numbers of functions.
ghost use Rattle.std.specs.Prelude.{◌≡◌, ◌+◌, ◌*◌, ◌<◌, ◌≤◌, ◌^◌, IfOk};
ghost use Rattle.merge_index.specs.Lists.{stub_size, known_of, ref_number, named_from, stubs_end, named_lists, all_stubs_end, loader_behind};

use crate::numbers::{LoaderNumbers, call_in, count_at, own_from};
use std::alloc::Global;
use wasm_form::{List, Memory, Ref};

// What stands for functions whatever member names them: the numbers of those that each member defines, how many each imports, and the numbers
// of the functions of the loader.
#[derive(Clone, Copy)]
pub(crate) struct Known<'a> {
    pub owns: &'a [List<u32>],
    pub imported: &'a [u32],
    pub loader: Option<LoaderNumbers>,
}

fn stub_size(r: Ref) -> u32
    ensures { result ≡ stub_size r }
{
    match r {
        Ref::Stub { .. } => 1,
        _ => 0,
    }
}

// The number of a function of the run, where a stub has this one.
fn ref_number(known: Known<'_>, stub: u32, r: Ref) -> u32
    ensures { result ≡ ref_number (known_of known.entry) stub r }
{
    match r {
        Ref::Own { unit, func } => {
            own_from(known.owns, unit, count_at(known.imported, unit), func)
        }
        Ref::Loader(call) => call_in(known.loader, call),
        Ref::Host(entry) => entry,
        Ref::Stub { .. } => stub,
    }
}

// The number after those of the stubs among some functions.
fn stubs_end(stub: u32, refs: &[Ref]) -> u32
    requires { stubs_end stub refs.now < 2 ^ 32 }
    ensures { result ≡ stubs_end stub refs.now }
{
    let mut next = stub;
    for r in refs {
        next += stub_size(*r);
    }
    next
}

// That after those of all members.
pub(crate) fn all_stubs_end(stub: u32, refs: &[List<Ref>]) -> u32
    requires { all_stubs_end stub refs.now < 2 ^ 32 }
    ensures { result ≡ all_stubs_end stub refs.now }
{
    let mut next = stub;
    for named in refs {
        next = stubs_end(next, named.items());
    }
    next
}

// The numbers of the functions that a member names, where stubs have theirs from one on, and the number after these.
fn named_from(
    alloc: Global,
    known: Known<'_>,
    stub: u32,
    refs: &[Ref],
) -> Result<(List<u32>, u32), Memory>
    requires { stubs_end stub refs.now < 2 ^ 32 }
    ensures named { IfOk result (λ x. x.0 ≡ named_from (known_of known.entry) stub refs.now) }
    ensures end { IfOk result (λ x. x.1 ≡ stubs_end stub refs.now) }
{
    let mut list = Vec::new(alloc);
    let mut next = stub;
    for r in refs {
        list.push(ref_number(known, next, *r))?;
        next += stub_size(*r);
    }
    Ok((List::of(list), next))
}

// The same of each member, one after the other, by the functions that these name.
pub(crate) fn named_lists(
    alloc: Global,
    refs: &[List<Ref>],
    known: Known<'_>,
    stub: u32,
) -> Result<Vec<List<u32>>, Memory>
    requires { all_stubs_end stub refs.now < 2 ^ 32 }
    ensures { IfOk result (λ v. v.items ≡ named_lists (known_of known.entry) stub refs.now) }
{
    let mut lists = Vec::new(alloc);
    let mut next = stub;
    for named in refs {
        let (list, end) = named_from(alloc, known, next, named.items())?;
        lists.push(list)?;
        next = end;
    }
    Ok(lists)
}

// The numbers of what there is for the functions of the loader, where the phases of so many members begin with a number.
pub(crate) fn loader_behind(first: u32, count: u32) -> LoaderNumbers
    requires first { first < 2 ^ 31 }
    requires few { count ≤ 256 }
    ensures { result ≡ loader_behind first count }
{
    let first_opening = first + 4 * count;
    let length = first_opening + count;
    let first_find = length + 1;
    let dlopen = first_find + count;
    LoaderNumbers {
        first_opening,
        length,
        first_find,
        dlopen,
        dlsym: dlopen + 1,
        dlclose: dlopen + 2,
        dlerror: dlopen + 3,
    }
}
