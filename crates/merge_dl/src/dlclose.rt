// `dlclose`.
ghost use Rattle.std.specs.Prelude.{◌≡◌, ◌<◌, ◌^◌, ◌++◌, drop, IfOk, OnOk};
ghost use Rattle.wasm_form.specs.declared.runtime.LoaderCall.TheVariants.{Dlclose};
ghost use Rattle.merge_start.specs.Words.{Starts};
ghost use Rattle.merge_dl.specs.Words.{Finders, close_code, closes_code, close_call_code};
ghost use Rattle.merge_dl.specs.Listed.{AreDlNumbers, starts_in, finders_in, call_part};

use crate::numbers::DlNumbers;
use crate::parts::{part, unary_type};
use crate::words::{fault, give, when, where_first};
use dyl_link::Linked;
use merge_pieces::opcodes;
use std::alloc::Global;
use wasm_form::{Instr, Memory, Part};

// Where local 0 is the handle of member m and it has been placed, 0 is returned.
fn close_code(alloc: Global, n: &DlNumbers, m: u32) -> Result<Vec<Instr>, Memory>
    requires few { m < 2 ^ 16 }
    requires guard { n.now.guard < 2 ^ 31 }
    ensures { IfOk result (λ x. x.items ≡ close_code (starts_in n.now) m) }
{
    let closed = give(alloc, 0)?;
    let code = vec![in alloc;
        Instr::Index(opcodes::GLOBAL_GET, n.guard + m),
        when(closed),
    ]?;
    where_first(alloc, m + 1, code)
}

// The handles of the members behind the main module.
fn put_closes(
    to: &mut Vec<Instr>,
    alloc: Global,
    linked: &Linked,
    n: &DlNumbers,
) -> Result<(), Memory>
    requires guard { n.now.guard < 2 ^ 31 }
    ensures { OnOk result (to.new.items ≡ to.old.items ++ closes_code (starts_in n.now) 1 (drop 1 linked.now.set.members)) }
{
    for m in 1..linked.member_count() {
        let mut one = close_code(alloc, n, m)?;
        to.append(&mut one)?;
    }
    Ok(())
}

#[tactic(auto, unfolding(crate::specs::Words::close_call_code))]
fn close_call_code(alloc: Global, linked: &Linked, n: &DlNumbers) -> Result<Vec<Instr>, Memory>
    requires guard { n.now.guard < 2 ^ 31 }
    ensures { IfOk result (λ x. x.items ≡ close_call_code linked.now (starts_in n.now) (finders_in n.now)) }
{
    let itself = give(alloc, 0)?;
    let mut code = where_first(alloc, 1, itself)?;
    put_closes(&mut code, alloc, linked, n)?;
    let mut refused = fault(alloc, n, 5, u32::MAX)?;
    code.append(&mut refused)?;
    Ok(code)
}

pub(crate) fn close_function(alloc: Global, linked: &Linked, n: &DlNumbers) -> Result<Part, Memory>
    requires guard { n.now.guard < 2 ^ 31 }
    ensures { IfOk result (λ p. (x : Starts) (d : Finders) → AreDlNumbers linked.now n.now x d → p ≡ call_part linked.now x d Dlclose) }
{
    let ty = unary_type(alloc)?;
    let code = close_call_code(alloc, linked, n)?;
    Ok(part(ty, Vec::new(alloc), code))
}
