// Bodies with their numbers replaced.
ghost use Rattle.std.specs.Prelude.{◌≡◌, option_map, is_some, IsTrue, Some, IfOk};
ghost use Rattle.merge_match.specs.Renumbering.{block_type, index_in, first_in, second_in, instr, code, expr};
ghost use Rattle.merge_match.specs.Joined.{renumbered_code};
ghost use Rattle.merge_index.specs.Kept.{numbers_in};
ghost use Rattle.merge_index.specs.Lists.{code_in};

use crate::numbers::Numbers;
use dyl_link::Linked;
use std::alloc::Global;
use wasm_form::{
    BlockType, Code, Expr, IndexForm, Instr, List, Memory, SecondForm, index_form, second_form,
};

// The index of an instruction with one index.
fn index(n: &Numbers, m: u32, form: Option<IndexForm>, k: u32) -> u32
    ensures { result ≡ index_in (numbers_in n.now) m form k }
{
    match form {
        Some(IndexForm::Call | IndexForm::RefFunc) => n.named(m, k),
        Some(IndexForm::GlobalGet | IndexForm::GlobalSet) => n.global(m, k),
        Some(IndexForm::TableGet | IndexForm::TableSet) => n.table(m, k),
        _ => k,
    }
}

// The first index of an instruction with a second opcode.
fn first(n: &Numbers, m: u32, form: Option<SecondForm>, x: u32) -> u32
    ensures { result ≡ first_in (numbers_in n.now) m form x }
{
    match form {
        Some(SecondForm::MemoryInit | SecondForm::DataDrop) => n.segment(m, x),
        Some(SecondForm::TableInit | SecondForm::ElemDrop) => n.elem(m, x),
        Some(
            SecondForm::TableCopy
            | SecondForm::TableGrow
            | SecondForm::TableSize
            | SecondForm::TableFill,
        ) => n.table(m, x),
        _ => x,
    }
}

// The second one.
fn second(n: &Numbers, m: u32, form: Option<SecondForm>, y: u32) -> u32
    ensures { result ≡ second_in (numbers_in n.now) m form y }
{
    match form {
        Some(SecondForm::TableInit | SecondForm::TableCopy) => n.table(m, y),
        _ => y,
    }
}

fn copied<T: Copy>(alloc: Global, list: &[T]) -> Result<List<T>, Memory>
    ensures { IfOk result (λ x. x ≡ list.now) }
{
    Ok(List::of(Vec::from_slice(alloc, list)?))
}

impl Numbers {
    /// The type of a block of member m, with its number replaced.
    pub fn rename_type(&self, t: &BlockType, m: u32) -> BlockType
        ensures { result ≡ block_type (numbers_in self.now) m t.now }
    {
        match t {
            BlockType::Empty => BlockType::Empty,
            BlockType::Value(v) => BlockType::Value(*v),
            BlockType::Index(k) => BlockType::Index(self.ty(m, *k)),
        }
    }
}

// An expression of member m with its numbers replaced.
#[cycle(rename)]
pub(crate) fn rename_expr(alloc: Global, n: &Numbers, m: u32, e: &Expr) -> Result<Expr, Memory>
    ensures { IfOk result (λ x. x ≡ expr (numbers_in n.now) m e.now) }
{
    let list = rename_list(alloc, n, m, e.list.items())?;
    Ok(Expr {
        list: List::of(list),
    })
}

#[cycle(rename)]
fn rename_list(alloc: Global, n: &Numbers, m: u32, is: &[Instr]) -> Result<Vec<Instr>, Memory>
    ensures { IfOk result (λ x. x.items ≡ code (numbers_in n.now) m is.now) }
{
    let mut out = Vec::with_capacity(alloc, is.len())?;
    for i in is {
        let one = rename_instr(alloc, n, m, i)?;
        out.push(one)?;
    }
    Ok(out)
}

#[cycle(rename)]
fn rename_other(
    alloc: Global,
    n: &Numbers,
    m: u32,
    other: &Option<Expr>,
) -> Result<Option<Expr>, Memory>
    ensures { IfOk result (λ x. x ≡ option_map (expr (numbers_in n.now) m) other.now) }
{
    match other {
        None => Ok(None),
        Some(e) => Ok(Some(rename_expr(alloc, n, m, e)?)),
    }
}

#[cycle(rename)]
fn rename_instr(alloc: Global, n: &Numbers, m: u32, i: &Instr) -> Result<Instr, Memory>
    ensures { IfOk result (λ x. x ≡ instr (numbers_in n.now) m i.now) }
{
    match i {
        Instr::Plain(op) => Ok(Instr::Plain(*op)),
        Instr::Index(op, k) => Ok(Instr::Index(*op, index(n, m, index_form(*op), *k))),
        Instr::Block(t, e) => {
            let e = rename_expr(alloc, n, m, e)?;
            Ok(Instr::Block(n.rename_type(t, m), e))
        }
        Instr::Loop(t, e) => {
            let e = rename_expr(alloc, n, m, e)?;
            Ok(Instr::Loop(n.rename_type(t, m), e))
        }
        Instr::If(t, e, other) => {
            let e = rename_expr(alloc, n, m, e)?;
            let other = rename_other(alloc, n, m, other)?;
            Ok(Instr::If(n.rename_type(t, m), e, other))
        }
        Instr::BrTable(labels, last) => Ok(Instr::BrTable(copied(alloc, labels.items())?, *last)),
        Instr::CallIndirect { ty, table } => Ok(Instr::CallIndirect {
            ty: n.ty(m, *ty),
            table: n.table(m, *table),
        }),
        Instr::Select(types) => Ok(Instr::Select(copied(alloc, types.items())?)),
        Instr::Access { op, align, offset } => Ok(Instr::Access {
            op: *op,
            align: *align,
            offset: *offset,
        }),
        Instr::MemorySize => Ok(Instr::MemorySize),
        Instr::MemoryGrow => Ok(Instr::MemoryGrow),
        Instr::I32Const(v) => Ok(Instr::I32Const(*v)),
        Instr::I64Const(v) => Ok(Instr::I64Const(*v)),
        Instr::F32Const(v) => Ok(Instr::F32Const(*v)),
        Instr::F64Const(v) => Ok(Instr::F64Const(*v)),
        Instr::RefNull(t) => Ok(Instr::RefNull(*t)),
        Instr::Prefixed { op, a, b } => Ok(Instr::Prefixed {
            op: *op,
            a: first(n, m, second_form(*op), *a),
            b: second(n, m, second_form(*op), *b),
        }),
    }
}

// A body of member m with its numbers replaced.
fn rename_code(alloc: Global, n: &Numbers, m: u32, c: &Code) -> Result<Code, Memory>
    ensures { IfOk result (λ x. x ≡ renumbered_code (numbers_in n.now) m c.now) }
{
    let locals = copied(alloc, c.locals.items())?;
    let body = rename_expr(alloc, n, m, &c.body)?;
    Ok(Code { locals, body })
}

impl Numbers {
    /// An expression of member m, with the numbers in it replaced. `Memory` where no memory could be had.
    pub fn rename_expr(&self, alloc: Global, m: u32, e: &Expr) -> Result<Expr, Memory>
        ensures { IfOk result (λ x. x ≡ expr (numbers_in self.now) m e.now) }
    {
        rename_expr(alloc, self, m, e)
    }

    /// A body of member m, by its number, with the numbers in it replaced. `Memory` where no memory could be had.
    pub fn rename_body(
        &self,
        alloc: Global,
        linked: &Linked,
        m: u32,
        body: u32,
    ) -> Result<Code, Memory>
        requires there { IsTrue (is_some (code_in linked.now m body)) }
        ensures { IfOk result (λ x. Some x ≡ option_map (renumbered_code (numbers_in self.now) m) (code_in linked.now m body)) }
    {
        let code = &linked.module(m).codes.items()[body as usize];
        rename_code(alloc, self, m, code)
    }
}
