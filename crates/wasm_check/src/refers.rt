// Which functions a body may refer to: those in an element segment, an export or the value of a global (section 3.4.10).
ghost use Rattle.std.specs.Prelude.{◌≡◌, ℕ, Bool, false, length, nat_eq, replicate, IfOk};
ghost use Rattle.std.specs.List.{list_any};
ghost use Rattle.wasm_form.specs.declared.instr.Instr.TheOpen as Open;
ghost use Rattle.spec_execution.specs.spec_binary.IndexSpaces.{function_space};
ghost use Rattle.spec_execution.specs.spec_validation.Faults as validation;
ghost use Rattle.wasm_check.specs.Marks.{refers_form, Adds, AreMarks};

use std::alloc::Global;
use wasm_form::{
    Elem, ElemItems, Export, ExportDesc, Expr, GlobalDef, IndexForm, Instr, Memory, Module,
    index_form,
};

// What refers to functions.
trait Referring {
    // Whether it refers to the function with this index.
    ghost refers: { ℕ → Self → Bool };

    // Marks the functions that it refers to, as far as there are marks.
    fn mark_in(&self, marks: &mut [bool])
        ensures { Adds (λ k. refers k self.now) marks.old marks.new };
}

fn mark_each<T: Referring>(each: &[T], marks: &mut [bool])
    ensures { Adds (λ k. list_any (T.refers k) each.now) marks.old marks.new }
{
    for x in each {
        x.mark_in(marks);
    }
}

impl Referring for u32 {
    ghost refers = { nat_eq };

    fn mark_in(&self, marks: &mut [bool]) {
        let f = *self as usize;
        if f < marks.len() {
            marks[f] = true;
        }
    }
}

fn is_ref_func(form: Option<IndexForm>) -> bool
    ensures { result ≡ refers_form form }
{
    match form {
        Some(IndexForm::RefFunc) => true,
        _ => false,
    }
}

fn mark_index(op: u8, f: u32, marks: &mut [bool])
    ensures { Adds (λ k. validation.refers_step k (Open.Index op f)) marks.old marks.new }
{
    if is_ref_func(index_form(op)) {
        f.mark_in(marks);
    }
}

impl Referring for Instr {
    ghost refers = { validation.instr_refers };

    fn mark_in(&self, marks: &mut [bool]) {
        match self {
            Instr::Index(op, f) => mark_index(*op, *f, marks),
            _ => {}
        }
    }
}

impl Referring for Expr {
    ghost refers = { validation.expr_refers };

    fn mark_in(&self, marks: &mut [bool]) {
        mark_each(self.list.items(), marks);
    }
}

impl Referring for Elem {
    ghost refers = { validation.elem_refers };

    fn mark_in(&self, marks: &mut [bool]) {
        match &self.items {
            ElemItems::Funcs(functions) => mark_each(functions.items(), marks),
            ElemItems::Exprs { items, .. } => mark_each(items.items(), marks),
        }
    }
}

impl Referring for Export {
    ghost refers = { validation.export_refers };

    fn mark_in(&self, marks: &mut [bool]) {
        match &self.desc {
            ExportDesc::Func(f) => f.mark_in(marks),
            ExportDesc::Table(_) => {}
            ExportDesc::Space(_) => {}
            ExportDesc::Global(_) => {}
        }
    }
}

impl Referring for GlobalDef {
    ghost refers = { validation.global_refers };

    fn mark_in(&self, marks: &mut [bool]) {
        self.init.mark_in(marks);
    }
}

// That many places without a mark.
fn no_marks(alloc: Global, count: usize) -> Result<Vec<bool>, Memory>
    ensures { IfOk result (λ v. v.items ≡ replicate count false) }
{
    let mut marks = Vec::new(alloc);
    for _ in 0..count {
        marks.push(false)?;
    }
    Ok(marks)
}

/// Which functions a body may refer to, by their indices.
pub(crate) fn refers_of(alloc: Global, m: &Module, functions: &[u32]) -> Result<Vec<bool>, Memory>
    requires { functions.now ≡ function_space m.now }
    ensures { IfOk result (λ v. AreMarks m.now v.items) }
{
    let mut marks = no_marks(alloc, functions.len())?;
    mark_each(m.elems.items(), &mut marks);
    mark_each(m.exports.items(), &mut marks);
    mark_each(m.globals.items(), &mut marks);
    Ok(marks)
}
