// The numbers that generated code names.
ghost use Rattle.std.specs.Prelude.{◌≡◌, ◌+◌, ◌<◌, ◌≤◌, ◌^◌, length};
ghost use Rattle.merge_start.specs.Listed.{item, call_at, spans_at, behind, Fit};
ghost use Rattle.merge_start.specs.Listed as listed;
ghost use Rattle.spec_loading.specs.spec_binary.IndexSpaces.{imports_of, tables_in, table_space};

use wasm_form::{Import, ImportDesc, List, Module};

/// The numbers that generated code names, in the merged module.
///
/// `guard` is the global that is the guard of the first member; the others follow. `first_function` is the function of the first phase of the
/// first member; the others follow, four for each member. `calls` has, for each of these, the function that the phase calls, if it calls one,
/// and `entry` is the function that the program begins with. `elems`, `datas` and `tables` have the numbers of each member's element
/// segments, data segments and tables, imported tables too, in set order, and `elems` after these the numbers of the segments of the
/// members' fresh slots. `functions` has the numbers of each member's functions, imported ones too, in set order; `passive_parts` alone reads
/// it.
#[derive(Drop)]
pub struct StartNumbers {
    pub guard: u32,
    pub first_function: u32,
    pub calls: List<Option<u32>>,
    pub entry: u32,
    pub elems: List<u32>,
    pub datas: List<u32>,
    pub tables: List<u32>,
    pub functions: List<u32>,
}

// Where so many items of a list stand.
#[derive(Clone, Copy)]
pub(crate) struct Span {
    pub first: usize,
    pub count: usize,
}

// Where the numbers of a member stand.
#[derive(Clone, Copy)]
pub(crate) struct Spans {
    pub elems: Span,
    pub datas: Span,
    pub tables: Span,
}

// Where the numbers of a member begin in the lists.
#[derive(Clone, Copy)]
pub(crate) struct Places {
    pub elems: usize,
    pub datas: usize,
    pub tables: usize,
}

fn is_table(desc: &ImportDesc) -> usize
    ensures { result ≡ length (tables_in desc.now) }
{
    match desc {
        ImportDesc::Table(_) => 1,
        _ => 0,
    }
}

fn imported_tables(imports: &[Import]) -> usize
    ensures told { result ≡ length (imports_of tables_in imports.now) }
    ensures few { result ≤ length imports.now }
{
    let mut count: usize = 0;
    for import in imports {
        count += is_table(&import.desc);
    }
    count
}

fn table_count(wasm: &Module) -> usize
    requires { length wasm.now.imports + length wasm.now.tables < 2 ^ 64 }
    ensures { result ≡ length (table_space wasm.now) }
{
    imported_tables(wasm.imports.items()) + wasm.tables.items().len()
}

// Where the numbers of a member stand that begin at these places.
pub(crate) fn spans_at(at: Places, wasm: &Module) -> Spans
    requires { length wasm.now.imports + length wasm.now.tables < 2 ^ 64 }
    ensures { result ≡ spans_at at wasm.now }
{
    Spans {
        elems: Span {
            first: at.elems,
            count: wasm.elems.items().len(),
        },
        datas: Span {
            first: at.datas,
            count: wasm.datas.items().len(),
        },
        tables: Span {
            first: at.tables,
            count: table_count(wasm),
        },
    }
}

// The places behind these.
pub(crate) fn behind(s: Spans) -> Places
    requires { Fit s }
    ensures { result ≡ behind s }
{
    Places {
        elems: s.elems.first + s.elems.count,
        datas: s.datas.first + s.datas.count,
        tables: s.tables.first + s.tables.count,
    }
}

// An item of those that stand there, or 4,294,967,295.
pub(crate) fn item(list: &[u32], s: Span, i: u32) -> u32
    requires { listed.fits s }
    ensures { result ≡ item list.now s i }
{
    if i as usize >= s.count {
        return u32::MAX;
    }
    match list.get(s.first + i as usize) {
        Some(n) => *n,
        None => u32::MAX,
    }
}

// The function that a phase calls, if it calls one.
pub(crate) fn call_at(calls: &[Option<u32>], k: u32) -> Option<u32>
    ensures { result ≡ call_at calls.now k }
{
    match calls.get(k as usize) {
        Some(f) => *f,
        None => None,
    }
}
