// The words of generated code.
ghost use Rattle.std.specs.Prelude.{◌≡◌, IfOk};
ghost use Rattle.spec_loading.specs.spec_execution.Activations as effects;
ghost use Rattle.spec_loading.specs.spec_execution.Segments.{elem_applied, data_applied};
ghost use Rattle.merge_start.specs.Words.{effect_code, effects_code, call_code};
ghost use Rattle.merge_start.specs.Listed.{numbers_at, Fit};

use crate::numbers::{Spans, StartNumbers, item};
use merge_pieces::{number, opcodes};
use std::alloc::Global;
use wasm_form::{Instr, Memory};

// A function is called, if there is one.
pub(crate) fn call(alloc: Global, f: Option<u32>) -> Result<Vec<Instr>, Memory>
    ensures { IfOk result (λ x. x.items ≡ call_code f) }
{
    match f {
        None => Ok(Vec::new(alloc)),
        Some(f) => Ok(vec![in alloc; Instr::Index(opcodes::CALL, f)]?),
    }
}

// The first items of an element segment are written to a table at an index.
pub(crate) fn table_init(
    alloc: Global,
    segment: u32,
    table: u32,
    at: u32,
    count: u32,
) -> Result<Vec<Instr>, Memory>
    ensures { IfOk result (λ x. x.items ≡ effect_code (effects.TableInit segment table at 0 count)) }
{
    Ok(vec![in alloc;
        number(at),
        number(0),
        number(count),
        Instr::Prefixed {
            op: opcodes::TABLE_INIT,
            a: segment,
            b: table
        },
    ]?)
}

// So many items of element segment e of a member are written to its table t at an index, and the segment is dropped.
pub(crate) fn elem_applied(
    alloc: Global,
    n: &StartNumbers,
    at: Spans,
    e: u32,
    t: u32,
    index: u32,
    count: u32,
) -> Result<Vec<Instr>, Memory>
    requires { Fit at }
    ensures { IfOk result (λ x. x.items ≡ effects_code (numbers_at n.now at) 0 (elem_applied e t count index)) }
{
    let segment = item(n.elems.items(), at.elems, e);
    let table = item(n.tables.items(), at.tables, t);
    Ok(vec![in alloc;
        number(index),
        number(0),
        number(count),
        Instr::Prefixed {
            op: opcodes::TABLE_INIT,
            a: segment,
            b: table
        },
        Instr::Prefixed {
            op: opcodes::ELEM_DROP,
            a: segment,
            b: 0
        },
    ]?)
}

// So many bytes of data segment d of a member are written to the memory at an address, and the segment is dropped.
pub(crate) fn data_applied(
    alloc: Global,
    n: &StartNumbers,
    at: Spans,
    d: u32,
    address: u32,
    count: u32,
) -> Result<Vec<Instr>, Memory>
    requires { Fit at }
    ensures { IfOk result (λ x. x.items ≡ effects_code (numbers_at n.now at) 0 (data_applied d count address)) }
{
    let segment = item(n.datas.items(), at.datas, d);
    Ok(vec![in alloc;
        number(address),
        number(0),
        number(count),
        Instr::Prefixed {
            op: opcodes::MEMORY_INIT,
            a: segment,
            b: 0
        },
        Instr::Prefixed {
            op: opcodes::DATA_DROP,
            a: segment,
            b: 0
        },
    ]?)
}
