// The element segments behind those of the members.
ghost use Rattle.std.specs.Prelude.{◌≡◌, ◌+◌, ◌<◌, ◌^◌, ◌++◌, ◌∷◌, [], length, map, IfOk, OnOk};
ghost use Rattle.spec_loading.specs.spec_linking.Slots.{fresh_functions};
ghost use Rattle.merge_index.specs.Kept.{numbers_in};
ghost use Rattle.merge_module.specs.MergedModule.{functions_elem, outside_elem, declared_elem, number_expr};
ghost use Rattle.merge_whole.specs.Elements.{export_numbers, exported_numbers};

use dyl_link::Linked;
use merge_index::Numbers;
use std::alloc::Global;
use wasm_form::{
    Elem, ElemItems, ElemMode, Export, ExportDesc, Expr, Instr, List, Memory, Module, Ref,
};

fn function_numbers(alloc: Global, n: &Numbers, refs: &[Ref]) -> Result<List<u32>, Memory>
    ensures { IfOk result (λ list. list ≡ map (numbers_in n.now).function refs.now) }
{
    let mut list = Vec::new(alloc);
    for r in refs {
        list.push(n.function(*r))?;
    }
    Ok(List::of(list))
}

fn functions_elem(alloc: Global, n: &Numbers, mode: ElemMode, refs: &[Ref]) -> Result<Elem, Memory>
    ensures { IfOk result (λ x. x ≡ functions_elem (numbers_in n.now) mode refs.now) }
{
    let list = function_numbers(alloc, n, refs)?;
    Ok(Elem {
        mode,
        items: ElemItems::Funcs(list),
    })
}

// How many fresh slots members have, beside so many.
fn fresh_total(linked: &Linked, start: u32) -> u32
    requires { start + length (fresh_functions linked.now) < 2 ^ 32 }
    ensures { result ≡ start + length (fresh_functions linked.now) }
{
    let mut next = start;
    for m in 0..linked.member_count() {
        let count = linked.fresh(m).len() as u32;
        next += count;
    }
    next
}

// A number as a constant expression.
pub(crate) fn number_expr(alloc: Global, k: u32) -> Result<Expr, Memory>
    ensures { IfOk result (λ e. e ≡ number_expr k) }
{
    Ok(Expr {
        list: List::of(vec![in alloc; Instr::I32Const(k.cast_signed())]?),
    })
}

// The segment of the host functions that have slots.
fn outside_elem(alloc: Global, linked: &Linked, n: &Numbers) -> Result<Elem, Memory>
    ensures { IfOk result (λ x. x ≡ outside_elem linked.now (numbers_in n.now)) }
{
    linked.links();
    let first = fresh_total(linked, linked.plan().table_end());
    let offset = number_expr(alloc, first)?;
    let mode = ElemMode::Active { table: 0, offset };
    functions_elem(alloc, n, mode, linked.outside())
}

fn put_export(to: &mut Vec<u32>, n: &Numbers, m: u32, e: &Export) -> Result<(), Memory>
    ensures { OnOk result (to.new.items ≡ to.old.items ++ export_numbers (numbers_in n.now) m e.now) }
{
    if let ExportDesc::Func(f) = e.desc {
        to.push(n.named(m, f))?;
    }
    Ok(())
}

fn put_exports(to: &mut Vec<u32>, n: &Numbers, m: u32, wasm: &Module) -> Result<(), Memory>
    ensures { OnOk result (to.new.items ≡ to.old.items ++ exported_numbers (numbers_in n.now) m wasm.now) }
{
    for e in wasm.exports.items() {
        put_export(to, n, m, e)?;
    }
    Ok(())
}

// The segment that declares what members export.
fn declared_elem(alloc: Global, linked: &Linked, n: &Numbers) -> Result<Elem, Memory>
    ensures { IfOk result (λ x. x ≡ declared_elem linked.now (numbers_in n.now)) }
{
    let mut list = Vec::new(alloc);
    for m in 0..linked.member_count() {
        put_exports(&mut list, n, m, linked.member(m).checked.module())?;
    }
    Ok(Elem {
        mode: ElemMode::Declarative,
        items: ElemItems::Funcs(List::of(list)),
    })
}

// Those that come behind the members' segments.
pub(crate) fn put_others(
    alloc: Global,
    to: &mut Vec<Elem>,
    linked: &Linked,
    n: &Numbers,
) -> Result<(), Memory>
    ensures { OnOk result (to.new.items ≡ to.old.items ++ outside_elem linked.now (numbers_in n.now) ∷ declared_elem linked.now (numbers_in n.now) ∷ []) }
{
    to.push(outside_elem(alloc, linked, n)?)?;
    to.push(declared_elem(alloc, linked, n)?)?;
    Ok(())
}
