// The members' segments in a merged module: code applies them, so none is active, and the functions in them have the module's numbers.
ghost use Rattle.std.specs.Prelude.{◌≡◌, ◌+◌, ◌<◌, ◌++◌, All, length, map, IfOk, OnOk};
ghost use Rattle.wasm_form.specs.declared.instr.Instr.{out-Instr};
ghost use Rattle.spec_loading.specs.spec_binary.IndexSpaces.{function_space};
ghost use Rattle.spec_loading.specs.spec_binary.WellFormed.{IsWellFormed};
ghost use Rattle.spec_loading.specs.Members.{from_members};
ghost use Rattle.merge_match.specs.Renumbering.{Numbers, index_in, instr, code, expr};
ghost use Rattle.merge_start.specs.Listed as listed;
ghost use Rattle.merge_start.specs.Passive.{functions_at, passive_mode, renumbered_items, passive_elem, passive_data, listed_elem, own_elems, own_datas, fresh_elems, listed_elems, passive_elems, passive_datas, IsItem, AreItems, ArePassive, AreNamed, AreRenumbered};

use crate::numbers::{Span, StartNumbers, item};
use dyl_link::Linked;
use dyl_link::wasm_check::imported_functions;
use merge_pieces::{opcodes, passive_data};
use std::alloc::Global;
use wasm_form::{
    Data, Elem, ElemItems, ElemMode, Expr, IndexForm, Instr, List, Memory, Module, index_form,
};

/// The segments of a merged module that are the members': their own, none of which is active, and behind their element segments one for each
/// member with the functions of its fresh slots.
#[derive(Drop)]
pub struct PassiveParts {
    pub elems: List<Elem>,
    pub datas: List<Data>,
}

// The index of an instruction with one index.
fn index(functions: &[u32], s: Span, form: Option<IndexForm>, k: u32) -> u32
    requires { listed.fits s }
    ensures { result ≡ index_in (functions_at functions.now s) 0 form k }
{
    match form {
        Some(IndexForm::Call | IndexForm::RefFunc) => item(functions, s, k),
        _ => k,
    }
}

// The instruction of an item, with the number of the function that it refers to.
fn item_instr(functions: &[u32], s: Span, i: &Instr) -> Instr
    requires fits { listed.fits s }
    requires is { IsItem (out-Instr i.now) }
    ensures { result ≡ instr (functions_at functions.now s) 0 i.now }
{
    match i {
        Instr::Index(op, k) => Instr::Index(*op, index(functions, s, index_form(*op), *k)),
        Instr::RefNull(t) => Instr::RefNull(*t),
        _ => Instr::Plain(opcodes::UNREACHABLE),
    }
}

fn item_list(alloc: Global, functions: &[u32], s: Span, is: &[Instr]) -> Result<Vec<Instr>, Memory>
    requires fits { listed.fits s }
    requires all { All (λ i. IsItem (out-Instr i)) is.now }
    ensures { IfOk result (λ list. list.items ≡ code (functions_at functions.now s) 0 is.now) }
{
    let mut list = Vec::new(alloc);
    for i in is {
        list.push(item_instr(functions, s, i))?;
    }
    Ok(list)
}

fn item_exprs(alloc: Global, functions: &[u32], s: Span, es: &[Expr]) -> Result<List<Expr>, Memory>
    requires fits { listed.fits s }
    requires all { All (λ e. All (λ i. IsItem (out-Instr i)) e.list) es.now }
    ensures { IfOk result (λ list. list ≡ map (expr (functions_at functions.now s) 0) es.now) }
{
    let mut list = Vec::new(alloc);
    for e in es {
        let is = item_list(alloc, functions, s, e.list.items())?;
        list.push(Expr { list: List::of(is) })?;
    }
    Ok(List::of(list))
}

fn named(alloc: Global, functions: &[u32], s: Span, fs: &[u32]) -> Result<List<u32>, Memory>
    requires { listed.fits s }
    ensures { IfOk result (λ list. list ≡ map (listed.item functions.now s) fs.now) }
{
    let mut list = Vec::new(alloc);
    for f in fs {
        list.push(item(functions, s, *f))?;
    }
    Ok(List::of(list))
}

fn items(alloc: Global, functions: &[u32], s: Span, x: &ElemItems) -> Result<ElemItems, Memory>
    requires fits { listed.fits s }
    requires all { AreItems x.now }
    ensures { IfOk result (λ y. y ≡ renumbered_items (functions_at functions.now s) 0 x.now) }
{
    match x {
        ElemItems::Funcs(fs) => Ok(ElemItems::Funcs(named(alloc, functions, s, fs.items())?)),
        ElemItems::Exprs { elem, items } => Ok(ElemItems::Exprs {
            elem: *elem,
            items: item_exprs(alloc, functions, s, items.items())?,
        }),
    }
}

// A segment that a member applies is passive.
fn passive_mode(mode: &ElemMode) -> ElemMode
    ensures { result ≡ passive_mode mode.now }
{
    match mode {
        ElemMode::Active { .. } | ElemMode::Passive => ElemMode::Passive,
        ElemMode::Declarative => ElemMode::Declarative,
    }
}

fn passive_elem(alloc: Global, functions: &[u32], s: Span, e: &Elem) -> Result<Elem, Memory>
    requires fits { listed.fits s }
    requires all { AreItems e.now.items }
    ensures { IfOk result (λ x. x ≡ passive_elem (functions_at functions.now s) 0 e.now) }
{
    let items = items(alloc, functions, s, &e.items)?;
    Ok(Elem {
        mode: passive_mode(&e.mode),
        items,
    })
}

fn put_passive(
    to: &mut Vec<Elem>,
    alloc: Global,
    functions: &[u32],
    s: Span,
    elems: &[Elem],
) -> Result<(), Memory>
    requires fits { listed.fits s }
    requires all { All (λ e. AreItems e.items) elems.now }
    ensures { OnOk result (to.new.items ≡ to.old.items ++ map (passive_elem (functions_at functions.now s) 0) elems.now) }
{
    for e in elems {
        to.push(passive_elem(alloc, functions, s, e)?)?;
    }
    Ok(())
}

// The segment of these functions of a member.
fn listed_elem(alloc: Global, functions: &[u32], s: Span, fs: &[u32]) -> Result<Elem, Memory>
    requires { listed.fits s }
    ensures { IfOk result (λ x. x ≡ listed_elem functions.now s fs.now) }
{
    let list = named(alloc, functions, s, fs)?;
    Ok(Elem {
        mode: ElemMode::Passive,
        items: ElemItems::Funcs(list),
    })
}

fn put_datas(alloc: Global, to: &mut Vec<Data>, datas: &[Data]) -> Result<(), Memory>
    ensures { OnOk result (to.new.items ≡ to.old.items ++ map passive_data datas.now) }
{
    for d in datas {
        to.push(passive_data(alloc, d)?)?;
    }
    Ok(())
}

// How many functions a module has, imported ones too.
fn function_count(wasm: &Module) -> usize
    requires { IsWellFormed wasm.now }
    ensures { result ≡ length (function_space wasm.now) }
{
    imported_functions(wasm.imports.items()) + wasm.funcs.items().len()
}

// The element segments of the members.
fn members_elems(alloc: Global, linked: &Linked, n: &StartNumbers) -> Result<Vec<Elem>, Memory>
    ensures { IfOk result (λ x. x.items ≡ from_members (own_elems linked.now n.now) 0 linked.now.set.members) }
{
    let mut list = Vec::new(alloc);
    let mut at: usize = 0;
    for m in 0..linked.member_count() {
        let wasm = linked.member(m).checked.module();
        let s = Span {
            first: at,
            count: function_count(wasm),
        };
        put_passive(&mut list, alloc, n.functions.items(), s, wasm.elems.items())?;
        at += s.count;
    }
    Ok(list)
}

// The segments of their fresh slots.
fn slots_elems(alloc: Global, linked: &Linked, n: &StartNumbers) -> Result<Vec<Elem>, Memory>
    ensures { IfOk result (λ x. x.items ≡ from_members (fresh_elems linked.now n.now) 0 linked.now.set.members) }
{
    let mut list = Vec::new(alloc);
    let mut at: usize = 0;
    for m in 0..linked.member_count() {
        let s = Span {
            first: at,
            count: function_count(linked.member(m).checked.module()),
        };
        let one = listed_elem(alloc, n.functions.items(), s, linked.fresh(m))?;
        list.push(one)?;
        at += s.count;
    }
    Ok(list)
}

// Their data segments.
fn passive_datas(alloc: Global, linked: &Linked) -> Result<Vec<Data>, Memory>
    ensures { IfOk result (λ x. x.items ≡ passive_datas linked.now) }
{
    let mut list = Vec::new(alloc);
    for m in 0..linked.member_count() {
        put_datas(
            alloc,
            &mut list,
            linked.member(m).checked.module().datas.items(),
        )?;
    }
    Ok(list)
}

// All element segments.
fn passive_elems(alloc: Global, linked: &Linked, n: &StartNumbers) -> Result<Vec<Elem>, Memory>
    ensures listed { IfOk result (λ x. x.items ≡ listed_elems linked.now n.now) }
    ensures renumbered { IfOk result (λ x. (N : Numbers) → AreNamed linked.now n.now N → x.items ≡ passive_elems linked.now N) }
{
    linked.links();
    let mut elems = members_elems(alloc, linked, n)?;
    let mut slots = slots_elems(alloc, linked, n)?;
    elems.append(&mut slots)?;
    Ok(elems)
}

/// The segments of the members of a linked set, as a merged module has them: passive, since code applies them, with the numbers of functions
/// that `n.functions` lists; and behind their element segments, member by member, one of the functions that have fresh slots, in slot order.
/// They come in the order in which `n.elems` and `n.datas` list their numbers. In a linked set an item of a segment names a function or
/// nothing, so these are the segments by all numbers of which `n.functions` has those of functions. A merged module has its own segments behind
/// them. `Memory` where no memory could be had.
pub fn passive_parts(
    alloc: Global,
    linked: &Linked,
    n: &StartNumbers,
) -> Result<PassiveParts, Memory>
    ensures listed { IfOk result (λ parts. ArePassive linked.now n.now parts) }
    ensures renumbered { IfOk result (λ parts. (N : Numbers) → AreNamed linked.now n.now N → AreRenumbered linked.now N parts) }
{
    let elems = passive_elems(alloc, linked, n)?;
    let datas = passive_datas(alloc, linked)?;
    Ok(PassiveParts {
        elems: List::of(elems),
        datas: List::of(datas),
    })
}
