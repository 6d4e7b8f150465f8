// Copies of texts, types, code and segments.
ghost use Rattle.std.specs.Prelude.{◌≡◌, IfOk};

use std::alloc::Global;
use wasm_form::{Code, ElemItems, Expr, FuncType, Instr, List, Memory, Text};

/// A text. `Memory` where no memory could be had, here and below.
pub fn copied_text(alloc: Global, text: &Text) -> Result<Text, Memory>
    ensures { IfOk result (λ t. t ≡ text.now) }
{
    let copy = String::from_str(alloc, text.as_str())?;
    Ok(Text::of(copy))
}

/// A list of small items.
pub fn copied<T: Copy>(alloc: Global, list: &[T]) -> Result<List<T>, Memory>
    ensures { IfOk result (λ x. x ≡ list.now) }
{
    Ok(List::of(Vec::from_slice(alloc, list)?))
}

/// The type of a function.
pub fn copied_type(alloc: Global, ty: &FuncType) -> Result<FuncType, Memory>
    ensures { IfOk result (λ t. t ≡ ty.now) }
{
    let params = copied(alloc, ty.params.items())?;
    let results = copied(alloc, ty.results.items())?;
    Ok(FuncType { params, results })
}

/// An expression.
#[cycle(copy)]
pub fn copied_expr(alloc: Global, e: &Expr) -> Result<Expr, Memory>
    ensures { IfOk result (λ x. x ≡ e.now) }
{
    let list = copied_list(alloc, e.list.items())?;
    Ok(Expr {
        list: List::of(list),
    })
}

#[cycle(copy)]
fn copied_list(alloc: Global, is: &[Instr]) -> Result<Vec<Instr>, Memory>
    ensures { IfOk result (λ x. x.items ≡ is.now) }
{
    let mut out = Vec::new(alloc);
    for i in is {
        let one = copied_instr(alloc, i)?;
        out.push(one)?;
    }
    Ok(out)
}

#[cycle(copy)]
fn copied_other(alloc: Global, other: &Option<Expr>) -> Result<Option<Expr>, Memory>
    ensures { IfOk result (λ x. x ≡ other.now) }
{
    match other {
        None => Ok(None),
        Some(e) => Ok(Some(copied_expr(alloc, e)?)),
    }
}

#[cycle(copy)]
fn copied_instr(alloc: Global, i: &Instr) -> Result<Instr, Memory>
    ensures { IfOk result (λ x. x ≡ i.now) }
{
    match i {
        Instr::Plain(op) => Ok(Instr::Plain(*op)),
        Instr::Index(op, k) => Ok(Instr::Index(*op, *k)),
        Instr::Block(t, e) => Ok(Instr::Block(*t, copied_expr(alloc, e)?)),
        Instr::Loop(t, e) => Ok(Instr::Loop(*t, copied_expr(alloc, e)?)),
        Instr::If(t, e, other) => {
            let e = copied_expr(alloc, e)?;
            let other = copied_other(alloc, other)?;
            Ok(Instr::If(*t, e, other))
        }
        Instr::BrTable(labels, last) => Ok(Instr::BrTable(copied(alloc, labels.items())?, *last)),
        Instr::CallIndirect { ty, table } => Ok(Instr::CallIndirect {
            ty: *ty,
            table: *table,
        }),
        Instr::Select(types) => Ok(Instr::Select(copied(alloc, types.items())?)),
        Instr::Access { op, align, offset } => Ok(Instr::Access {
            op: *op,
            align: *align,
            offset: *offset,
        }),
        Instr::MemorySize => Ok(Instr::MemorySize),
        Instr::MemoryGrow => Ok(Instr::MemoryGrow),
        Instr::I32Const(v) => Ok(Instr::I32Const(*v)),
        Instr::I64Const(v) => Ok(Instr::I64Const(*v)),
        Instr::F32Const(v) => Ok(Instr::F32Const(*v)),
        Instr::F64Const(v) => Ok(Instr::F64Const(*v)),
        Instr::RefNull(t) => Ok(Instr::RefNull(*t)),
        Instr::Prefixed { op, a, b } => Ok(Instr::Prefixed {
            op: *op,
            a: *a,
            b: *b,
        }),
    }
}

/// The locals and the body of a function.
pub fn copied_code(alloc: Global, c: &Code) -> Result<Code, Memory>
    ensures { IfOk result (λ x. x ≡ c.now) }
{
    let locals = copied(alloc, c.locals.items())?;
    let body = copied_expr(alloc, &c.body)?;
    Ok(Code { locals, body })
}

fn copied_exprs(alloc: Global, es: &[Expr]) -> Result<List<Expr>, Memory>
    ensures { IfOk result (λ x. x ≡ es.now) }
{
    let mut list = Vec::new(alloc);
    for e in es {
        list.push(copied_expr(alloc, e)?)?;
    }
    Ok(List::of(list))
}

/// The entries of an element segment.
pub fn copied_items(alloc: Global, items: &ElemItems) -> Result<ElemItems, Memory>
    ensures { IfOk result (λ x. x ≡ items.now) }
{
    match items {
        ElemItems::Funcs(fs) => Ok(ElemItems::Funcs(copied(alloc, fs.items())?)),
        ElemItems::Exprs { elem, items } => Ok(ElemItems::Exprs {
            elem: *elem,
            items: copied_exprs(alloc, items.items())?,
        }),
    }
}
