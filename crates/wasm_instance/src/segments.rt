// Segments as they are before the active ones are applied.
ghost use Rattle.std.specs.Prelude.{◌≡◌, IsTrue, IfOk, map, Some};
ghost use Rattle.std.specs.List.{list_all};
ghost use Rattle.wasm_form.specs.declared.types.ValType.TheVariants.{FuncRef};
ghost use Rattle.spec_safety.specs.spec_validation.Faults.{is_constant, is_function, items_fit, elem_fits};
ghost use Rattle.spec_safety.specs.spec_execution.Instances.{constant_reference, module_target, segment_items};
ghost use Rattle.spec_safety.specs.spec_execution.Segments.{opened_items};
ghost use Rattle.wasm_instance.specs.Imports.{ImportsFunctions};

use crate::constants::reference;
use crate::imports::named;
use std::alloc::Global;
use wasm_form::{Data, Elem, ElemItems, ElemMode, Expr, Memory, Module, Ref};

// The functions of these numbers.
fn functions(
    alloc: Global,
    m: &Module,
    imported: u32,
    numbers: &[u32],
) -> Result<Vec<Option<Ref>>, Memory>
    requires source { ImportsFunctions m.now imported }
    requires functions { IsTrue (list_all (is_function m.now) numbers.now) }
    ensures { IfOk result (λ v. v.items ≡ map (module_target m.now) numbers.now) }
{
    let _module = m;
    let mut all = Vec::new(alloc);
    for f in numbers {
        all.push(Some(named(imported, *f)))?;
    }
    Ok(all)
}

// What these expressions give.
fn references(
    alloc: Global,
    m: &Module,
    imported: u32,
    items: &[Expr],
) -> Result<Vec<Option<Ref>>, Memory>
    requires source { ImportsFunctions m.now imported }
    requires references { IsTrue (list_all (is_constant m.now FuncRef) items.now) }
    ensures { IfOk result (λ v. v.items ≡ map (constant_reference m.now) items.now) }
{
    let mut all = Vec::new(alloc);
    for e in items {
        all.push(reference(alloc, m, imported, e)?)?;
    }
    Ok(all)
}

// The entries of a segment.
fn entries(
    alloc: Global,
    m: &Module,
    imported: u32,
    items: &ElemItems,
) -> Result<Vec<Option<Ref>>, Memory>
    requires source { ImportsFunctions m.now imported }
    requires fits { IsTrue (items_fit m.now items.now) }
    ensures { IfOk result (λ v. v.items ≡ segment_items m.now items.now) }
{
    match items {
        ElemItems::Funcs(numbers) => functions(alloc, m, imported, numbers.items()),
        ElemItems::Exprs { items, .. } => references(alloc, m, imported, items.items()),
    }
}

// A declarative segment is empty from the beginning.
fn opened(
    alloc: Global,
    m: &Module,
    imported: u32,
    segment: &Elem,
) -> Result<Vec<Option<Ref>>, Memory>
    requires source { ImportsFunctions m.now imported }
    requires fits { IsTrue (elem_fits m.now segment.now) }
    ensures { IfOk result (λ v. v.items ≡ opened_items (segment_items m.now) segment.now) }
{
    match &segment.mode {
        ElemMode::Active { .. } | ElemMode::Passive => entries(alloc, m, imported, &segment.items),
        ElemMode::Declarative => Ok(Vec::new(alloc)),
    }
}

/// The element segments.
pub(crate) fn elems_of(
    alloc: Global,
    m: &Module,
    imported: u32,
) -> Result<Vec<Vec<Option<Ref>>>, Memory>
    requires { ImportsFunctions m.now imported }
    ensures { IfOk result (λ v. map (λ x. x.items) v.items ≡ map (opened_items (segment_items m.now)) m.now.elems) }
{
    let mut all = Vec::new(alloc);
    for segment in m.elems.items() {
        all.push(opened(alloc, m, imported, segment)?)?;
    }
    Ok(all)
}

/// The data segments.
pub(crate) fn datas_of<'m>(alloc: Global, segments: &'m [Data]) -> Result<Vec<&'m [u8]>, Memory>
    ensures { IfOk result (λ v. map (λ x. x.now) v.items ≡ map (λ d. d.bytes) segments.now) }
{
    let mut all = Vec::new(alloc);
    for segment in segments {
        all.push(segment.bytes.items())?;
    }
    Ok(all)
}
