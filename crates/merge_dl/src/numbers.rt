// The numbers that the functions of the loader name.
ghost use Rattle.std.specs.Prelude.{◌≡◌, ◌<◌, ◌^◌, slice_get};
ghost use Rattle.merge_match.specs.Parts.{number_of};
ghost use Rattle.merge_start.specs.Words.{place_global};
ghost use Rattle.merge_dl.specs.Listed.{starts_in};

use wasm_form::List;

/// The numbers that the functions of the loader name, in the merged module.
///
/// `error` is the global that holds the number of the last error, and `guard` the guard of the first member; the others follow.
/// `first_function` is the function that gives the length of a string; behind it come those that search the names of each member, and then
/// `dlopen`, `dlsym`, `dlclose` and `dlerror`. `opens` has for each member the function that opens it. `promoted` is the global that holds how
/// many members are promoted; behind it comes one for each member, which holds its place among them, counted from 1, or 0.
#[derive(Drop)]
pub struct DlNumbers {
    pub error: u32,
    pub guard: u32,
    pub first_function: u32,
    pub opens: List<u32>,
    pub promoted: u32,
}

// The function that opens member m, or 4,294,967,295.
pub(crate) fn opening(n: &DlNumbers, m: u32) -> u32
    ensures { result ≡ number_of (slice_get n.now.opens m) }
{
    match n.opens.items().get(m as usize) {
        Some(f) => *f,
        None => u32::MAX,
    }
}

// The global of the place of member m among the promoted ones.
pub(crate) fn place_global(n: &DlNumbers, m: u32) -> u32
    requires few { m < 2 ^ 16 }
    requires promoted { n.now.promoted < 2 ^ 31 }
    ensures { result ≡ place_global (starts_in n.now) m }
{
    n.promoted + 1 + m
}
