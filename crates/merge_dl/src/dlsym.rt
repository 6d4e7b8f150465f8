// `dlsym`.
ghost use Rattle.std.specs.Prelude.{◌≡◌, ◌<◌, ◌^◌, ◌++◌, length, drop, IfOk, OnOk};
ghost use Rattle.wasm_form.specs.declared.runtime.LoaderCall.TheVariants.{Dlsym};
ghost use Rattle.merge_start.specs.Words.{Starts};
ghost use Rattle.merge_start.specs.Listed.{AreFew};
ghost use Rattle.merge_dl.specs.Words.{Finders, try_code, tries_then, handle_code, handles_code, symbol_locals, symbol_call_code};
ghost use Rattle.merge_dl.specs.Listed.{AreDlNumbers, starts_in, finders_in, symbol_begin, call_part};

use crate::numbers::DlNumbers;
use crate::parts::{binary_type, one, part};
use crate::promoted::promoted_code;
use crate::words::{fault, number, when, where_first};
use dyl_link::Linked;
use merge_pieces::opcodes;
use std::alloc::Global;
use wasm_form::{Group, Instr, Memory, Part, ValType};

// Member m is searched, and a number that it has is returned.
fn try_code(alloc: Global, n: &DlNumbers, m: u32) -> Result<Vec<Instr>, Memory>
    requires few { m < 2 ^ 16 }
    requires first { n.now.first_function < 2 ^ 31 }
    ensures { IfOk result (λ x. x.items ≡ try_code (finders_in n.now) m) }
{
    merge_find::try_code(alloc, n.first_function + 1 + m)
}

// Members are searched in order, and then some other code is done.
fn tries_then(
    alloc: Global,
    n: &DlNumbers,
    members: &[u32],
    last: Vec<Instr>,
) -> Result<Vec<Instr>, Memory>
    requires few { AreFew members.now }
    requires first { n.now.first_function < 2 ^ 31 }
    ensures { IfOk result (λ x. x.items ≡ tries_then (finders_in n.now) last.items members.now) }
{
    let mut last = last;
    let mut code = Vec::new(alloc);
    for m in members {
        let mut one = try_code(alloc, n, *m)?;
        code.append(&mut one)?;
    }
    code.append(&mut last)?;
    Ok(code)
}

// Where local 0 is the handle of member m and it has been placed, its closure is searched.
fn handle_code(alloc: Global, linked: &Linked, n: &DlNumbers, m: u32) -> Result<Vec<Instr>, Memory>
    requires member { m < length linked.now.set.members }
    requires guard { n.now.guard < 2 ^ 31 }
    requires first { n.now.first_function < 2 ^ 31 }
    ensures { IfOk result (λ x. x.items ≡ handle_code linked.now (starts_in n.now) (finders_in n.now) m) }
{
    linked.links();
    let unknown = fault(alloc, n, 4, 0)?;
    let searched = tries_then(alloc, n, linked.closure(m), unknown)?;
    let mut code = vec![in alloc;
        Instr::Index(opcodes::GLOBAL_GET, n.guard + m),
        when(searched),
    ]?;
    let mut refused = fault(alloc, n, 3, 0)?;
    code.append(&mut refused)?;
    where_first(alloc, m + 1, code)
}

// The handles of the members behind the main module.
fn put_handles(
    to: &mut Vec<Instr>,
    alloc: Global,
    linked: &Linked,
    n: &DlNumbers,
) -> Result<(), Memory>
    requires guard { n.now.guard < 2 ^ 31 }
    requires first { n.now.first_function < 2 ^ 31 }
    ensures { OnOk result (to.new.items ≡ to.old.items ++ handles_code linked.now (starts_in n.now) (finders_in n.now) 1 (drop 1 linked.now.set.members)) }
{
    for m in 1..linked.member_count() {
        let mut one = handle_code(alloc, linked, n, m)?;
        to.append(&mut one)?;
    }
    Ok(())
}

// The length of the name is in local 2; for the handles 0 and 1 the members that start with the main module are searched, and then those that
// are promoted.
fn symbol_begin(alloc: Global, linked: &Linked, n: &DlNumbers) -> Result<Vec<Instr>, Memory>
    requires first { n.now.first_function < 2 ^ 31 }
    requires promoted { n.now.promoted < 2 ^ 31 }
    ensures { IfOk result (λ x. x.items ≡ symbol_begin linked.now (starts_in n.now) (finders_in n.now)) }
{
    linked.links();
    let promoted = promoted_code(alloc, linked, n)?;
    let searched = tries_then(alloc, n, linked.startup(), promoted)?;
    Ok(vec![in alloc;
        Instr::Index(opcodes::LOCAL_GET, 1),
        Instr::Index(opcodes::CALL, n.first_function),
        Instr::Index(opcodes::LOCAL_SET, 2),
        Instr::Index(opcodes::LOCAL_GET, 0),
        number(2),
        Instr::Plain(opcodes::I32_LT_U),
        when(searched),
    ]?)
}

#[tactic(auto, unfolding(crate::specs::Words::symbol_call_code))]
fn symbol_call_code(alloc: Global, linked: &Linked, n: &DlNumbers) -> Result<Vec<Instr>, Memory>
    requires guard { n.now.guard < 2 ^ 31 }
    requires first { n.now.first_function < 2 ^ 31 }
    requires promoted { n.now.promoted < 2 ^ 31 }
    ensures { IfOk result (λ x. x.items ≡ symbol_call_code linked.now (starts_in n.now) (finders_in n.now)) }
{
    let mut code = symbol_begin(alloc, linked, n)?;
    put_handles(&mut code, alloc, linked, n)?;
    let mut refused = fault(alloc, n, 3, 0)?;
    code.append(&mut refused)?;
    Ok(code)
}

// The length of the name, what the last search gave, what was kept of them, and its place.
fn symbol_locals(alloc: Global) -> Result<Vec<Group>, Memory>
    ensures { IfOk result (λ x. x.items ≡ symbol_locals) }
{
    let length = one(ValType::I32);
    let found = one(ValType::I64);
    let kept = one(ValType::I64);
    let place = one(ValType::I32);
    Ok(vec![in alloc; length, found, kept, place]?)
}

pub(crate) fn symbol_function(alloc: Global, linked: &Linked, n: &DlNumbers) -> Result<Part, Memory>
    requires guard { n.now.guard < 2 ^ 31 }
    requires first { n.now.first_function < 2 ^ 31 }
    requires promoted { n.now.promoted < 2 ^ 31 }
    ensures { IfOk result (λ p. (x : Starts) (d : Finders) → AreDlNumbers linked.now n.now x d → p ≡ call_part linked.now x d Dlsym) }
{
    let ty = binary_type(alloc)?;
    let locals = symbol_locals(alloc)?;
    let code = symbol_call_code(alloc, linked, n)?;
    Ok(part(ty, locals, code))
}
