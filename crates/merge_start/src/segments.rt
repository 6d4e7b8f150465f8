// The code that applies the active segments of a member.
ghost use Rattle.std.specs.Prelude.{◌≡◌, All, IfOk};
ghost use Rattle.spec_loading.specs.spec_binary.WellFormed.{IsShort, IsFormedItems, IsFormedElem, IsFormedData};
ghost use Rattle.spec_loading.specs.spec_execution.Segments as segments;
ghost use Rattle.merge_start.specs.Words.{effects_code};
ghost use Rattle.dyl_addresses.specs.Offsets.{HasElemOffset, HasDataOffset, number_with};
ghost use Rattle.merge_start.specs.Listed.{numbers_at, Fit};

use crate::numbers::{Spans, StartNumbers};
use crate::words::{data_applied, elem_applied};
use dyl_addresses::offset;
use std::alloc::Global;
use wasm_form::{Data, DataMode, Elem, ElemItems, ElemMode, Instr, Memory};

fn items_count(items: &ElemItems) -> u32
    requires { IsFormedItems items.now }
    ensures { result ≡ segments.items_count items.now }
{
    match items {
        ElemItems::Funcs(list) => list.items().len() as u32,
        ElemItems::Exprs { elem: _, items } => items.items().len() as u32,
    }
}

// The code of element segment e of a member.
fn elem_code(
    alloc: Global,
    n: &StartNumbers,
    at: Spans,
    bases: &[Option<u32>],
    e: u32,
    elem: &Elem,
) -> Result<Vec<Instr>, Memory>
    requires fit { Fit at }
    requires formed { IsFormedElem elem.now }
    requires offset { HasElemOffset elem.now }
    ensures { IfOk result (λ x. x.items ≡ effects_code (numbers_at n.now at) 0 (segments.elem_effects (number_with bases.now) e elem.now)) }
{
    match &elem.mode {
        ElemMode::Active { table, offset: o } => match offset(alloc, bases, o)? {
            Some(index) => {
                let count = items_count(&elem.items);
                elem_applied(alloc, n, at, e, *table, index, count)
            }
            None => Ok(Vec::new(alloc)),
        },
        ElemMode::Passive | ElemMode::Declarative => Ok(Vec::new(alloc)),
    }
}

// The code of data segment d of a member.
fn data_code(
    alloc: Global,
    n: &StartNumbers,
    at: Spans,
    bases: &[Option<u32>],
    d: u32,
    segment: &Data,
) -> Result<Vec<Instr>, Memory>
    requires fit { Fit at }
    requires formed { IsFormedData segment.now }
    requires offset { HasDataOffset segment.now }
    ensures { IfOk result (λ x. x.items ≡ effects_code (numbers_at n.now at) 0 (segments.data_effects (number_with bases.now) d segment.now)) }
{
    match &segment.mode {
        DataMode::Active {
            memory: _,
            offset: o,
        } => match offset(alloc, bases, o)? {
            Some(address) => {
                let count = segment.bytes.items().len() as u32;
                data_applied(alloc, n, at, d, address, count)
            }
            None => Ok(Vec::new(alloc)),
        },
        DataMode::Passive => Ok(Vec::new(alloc)),
    }
}

// That of the element segments of a member, in order.
#[tactic(auto, using(crate::proofs::Effects::code_append))]
pub(crate) fn elems_code(
    alloc: Global,
    n: &StartNumbers,
    at: Spans,
    bases: &[Option<u32>],
    elems: &[Elem],
) -> Result<Vec<Instr>, Memory>
    requires fit { Fit at }
    requires short { IsShort elems.now }
    requires formed { All IsFormedElem elems.now }
    requires offsets { All HasElemOffset elems.now }
    ensures { IfOk result (λ x. x.items ≡ effects_code (numbers_at n.now at) 0 (segments.all_effects (segments.elem_effects (number_with bases.now)) 0 elems.now)) }
{
    let mut code = Vec::new(alloc);
    for e in 0..elems.len() as u32 {
        let mut one = elem_code(alloc, n, at, bases, e, &elems[e as usize])?;
        code.append(&mut one)?;
    }
    Ok(code)
}

// And that of the data segments.
#[tactic(auto, using(crate::proofs::Effects::code_append))]
pub(crate) fn datas_code(
    alloc: Global,
    n: &StartNumbers,
    at: Spans,
    bases: &[Option<u32>],
    datas: &[Data],
) -> Result<Vec<Instr>, Memory>
    requires fit { Fit at }
    requires short { IsShort datas.now }
    requires formed { All IsFormedData datas.now }
    requires offsets { All HasDataOffset datas.now }
    ensures { IfOk result (λ x. x.items ≡ effects_code (numbers_at n.now at) 0 (segments.all_effects (segments.data_effects (number_with bases.now)) 0 datas.now)) }
{
    let mut code = Vec::new(alloc);
    for d in 0..datas.len() as u32 {
        let mut one = data_code(alloc, n, at, bases, d, &datas[d as usize])?;
        code.append(&mut one)?;
    }
    Ok(code)
}
