// Promoted members: how `dlopen` promotes a closure, and how `dlsym` searches them.
ghost use Rattle.std.specs.Prelude.{◌≡◌, ◌≤◌, ◌<◌, ◌^◌, ◌∷◌, [], ◌++◌, length, not, IfOk, OnOk};
ghost use Rattle.std.specs.List.{filter, range_with_len};
ghost use Rattle.spec_loading.specs.spec_linking.Orders.{is_among};
ghost use Rattle.merge_start.specs.Words.{next_place, promote_one, promote_each, promote_code};
ghost use Rattle.merge_start.specs.Listed.{AreFew};
ghost use Rattle.merge_dl.specs.Words.{before_code, keep_code, ask_code, prefer_code, prefers_code, preferred_code, promoted_code};
ghost use Rattle.merge_dl.specs.Listed.{starts_in, finders_in};

use crate::numbers::{DlNumbers, place_global};
use crate::words::{fault, number, when};
use dyl_link::Linked;
use merge_pieces::opcodes;
use std::alloc::Global;
use wasm_form::{Instr, Memory};

// ---- promoting

// A member that has no place gets the next one.
fn next_place(alloc: Global, n: &DlNumbers, k: u32) -> Result<Vec<Instr>, Memory>
    requires few { k < 2 ^ 16 }
    requires promoted { n.now.promoted < 2 ^ 31 }
    ensures { IfOk result (λ x. x.items ≡ next_place (starts_in n.now) k) }
{
    Ok(vec![in alloc;
        Instr::Index(opcodes::GLOBAL_GET, n.promoted),
        number(1),
        Instr::Plain(opcodes::I32_ADD),
        Instr::Index(opcodes::GLOBAL_SET, n.promoted),
        Instr::Index(opcodes::GLOBAL_GET, n.promoted),
        Instr::Index(opcodes::GLOBAL_SET, place_global(n, k)),
    ]?)
}

fn promote_one(alloc: Global, n: &DlNumbers, k: u32) -> Result<Vec<Instr>, Memory>
    requires few { k < 2 ^ 16 }
    requires promoted { n.now.promoted < 2 ^ 31 }
    ensures { IfOk result (λ x. x.items ≡ promote_one (starts_in n.now) k) }
{
    let next = next_place(alloc, n, k)?;
    Ok(vec![in alloc;
        Instr::Index(opcodes::GLOBAL_GET, place_global(n, k)),
        Instr::Plain(opcodes::I32_EQZ),
        when(next),
    ]?)
}

// Those of some members that aren't in the startup list are promoted, in order.
fn promote_each(
    alloc: Global,
    n: &DlNumbers,
    startup: &[u32],
    members: &[u32],
) -> Result<Vec<Instr>, Memory>
    requires few { AreFew members.now }
    requires promoted { n.now.promoted < 2 ^ 31 }
    ensures { IfOk result (λ x. x.items ≡ promote_each (starts_in n.now) (filter (λ k. not (is_among k startup.now)) members.now)) }
{
    let mut code = Vec::new(alloc);
    for k in members {
        if !startup.contains(k) {
            let mut one = promote_one(alloc, n, *k)?;
            code.append(&mut one)?;
        }
    }
    Ok(code)
}

// The closure of member m is promoted.
pub(crate) fn promote_code(
    alloc: Global,
    linked: &Linked,
    n: &DlNumbers,
    m: u32,
) -> Result<Vec<Instr>, Memory>
    requires member { m < length linked.now.set.members }
    requires promoted { n.now.promoted < 2 ^ 31 }
    ensures { IfOk result (λ x. x.items ≡ promote_code linked.now (starts_in n.now) m) }
{
    linked.links();
    promote_each(alloc, n, linked.startup(), linked.closure(m))
}

// ---- the search

// The place of member k, counted from 0; 4,294,967,295 where it has none.
fn put_before(to: &mut Vec<Instr>, n: &DlNumbers, k: u32) -> Result<(), Memory>
    requires few { k < 2 ^ 16 }
    requires promoted { n.now.promoted < 2 ^ 31 }
    ensures { OnOk result (to.new.items ≡ to.old.items ++ before_code (starts_in n.now) k) }
{
    to.push(Instr::Index(opcodes::GLOBAL_GET, place_global(n, k)))?;
    to.push(number(1))?;
    to.push(Instr::Plain(opcodes::I32_SUB))?;
    Ok(())
}

// What was found goes to local 4, and its place to local 5.
fn keep_code(alloc: Global, n: &DlNumbers, k: u32) -> Result<Vec<Instr>, Memory>
    requires few { k < 2 ^ 16 }
    requires promoted { n.now.promoted < 2 ^ 31 }
    ensures { IfOk result (λ x. x.items ≡ keep_code (starts_in n.now) k) }
{
    let mut code = Vec::new(alloc);
    put_before(&mut code, n, k)?;
    code.push(Instr::Index(opcodes::LOCAL_SET, 5))?;
    code.push(Instr::Index(opcodes::LOCAL_GET, 3))?;
    code.push(Instr::Index(opcodes::LOCAL_SET, 4))?;
    Ok(code)
}

// Member k is searched, and a number that it has is kept.
fn ask_code(alloc: Global, n: &DlNumbers, k: u32) -> Result<Vec<Instr>, Memory>
    requires few { k < 2 ^ 16 }
    requires first { n.now.first_function < 2 ^ 31 }
    requires promoted { n.now.promoted < 2 ^ 31 }
    ensures { IfOk result (λ x. x.items ≡ ask_code (starts_in n.now) (finders_in n.now) k) }
{
    let keep = keep_code(alloc, n, k)?;
    Ok(vec![in alloc;
        Instr::Index(opcodes::LOCAL_GET, 1),
        Instr::Index(opcodes::LOCAL_GET, 2),
        Instr::Index(opcodes::CALL, n.first_function + 1 + k),
        Instr::Index(opcodes::LOCAL_TEE, 3),
        Instr::Plain(opcodes::I64_EQZ),
        Instr::Plain(opcodes::I32_EQZ),
        when(keep),
    ]?)
}

// It is, where its place is before the one in local 5.
fn prefer_code(alloc: Global, n: &DlNumbers, k: u32) -> Result<Vec<Instr>, Memory>
    requires few { k < 2 ^ 16 }
    requires first { n.now.first_function < 2 ^ 31 }
    requires promoted { n.now.promoted < 2 ^ 31 }
    ensures { IfOk result (λ x. x.items ≡ prefer_code (starts_in n.now) (finders_in n.now) k) }
{
    let ask = ask_code(alloc, n, k)?;
    let mut code = Vec::new(alloc);
    put_before(&mut code, n, k)?;
    code.push(Instr::Index(opcodes::LOCAL_GET, 5))?;
    code.push(Instr::Plain(opcodes::I32_LT_U))?;
    code.push(when(ask))?;
    Ok(code)
}

// So is member k, unless it is in the startup list.
fn put_prefer(
    to: &mut Vec<Instr>,
    alloc: Global,
    n: &DlNumbers,
    startup: &[u32],
    k: u32,
) -> Result<(), Memory>
    requires few { k < 2 ^ 16 }
    requires first { n.now.first_function < 2 ^ 31 }
    requires promoted { n.now.promoted < 2 ^ 31 }
    ensures { OnOk result (to.new.items ≡ to.old.items ++ prefers_code (starts_in n.now) (finders_in n.now) (filter (λ i. not (is_among i startup.now)) (k ∷ []))) }
{
    if startup.contains(&k) {
        return Ok(());
    }
    let mut code = prefer_code(alloc, n, k)?;
    to.append(&mut code)?;
    Ok(())
}

// So are so many members.
fn put_prefers(
    to: &mut Vec<Instr>,
    alloc: Global,
    n: &DlNumbers,
    startup: &[u32],
    count: u32,
) -> Result<(), Memory>
    requires few { count ≤ 256 }
    requires first { n.now.first_function < 2 ^ 31 }
    requires promoted { n.now.promoted < 2 ^ 31 }
    ensures { OnOk result (to.new.items ≡ to.old.items ++ prefers_code (starts_in n.now) (finders_in n.now) (filter (λ k. not (is_among k startup.now)) (range_with_len 0 count))) }
{
    for k in 0..count {
        put_prefer(to, alloc, n, startup, k)?;
    }
    Ok(())
}

// The number that was kept is returned, if there is one.
fn preferred_code(alloc: Global, n: &DlNumbers) -> Result<Vec<Instr>, Memory>
    ensures { IfOk result (λ x. x.items ≡ preferred_code (finders_in n.now)) }
{
    let found = vec![in alloc;
        Instr::Index(opcodes::LOCAL_GET, 4),
        Instr::Plain(opcodes::I32_WRAP_I64),
        Instr::Plain(opcodes::RETURN),
    ]?;
    let mut unknown = fault(alloc, n, 4, 0)?;
    let mut code = vec![in alloc;
        Instr::Index(opcodes::LOCAL_GET, 4),
        Instr::Plain(opcodes::I64_EQZ),
        Instr::Plain(opcodes::I32_EQZ),
        when(found),
    ]?;
    code.append(&mut unknown)?;
    Ok(code)
}

// Of the promoted members that have a number, that of the first is returned.
pub(crate) fn promoted_code(
    alloc: Global,
    linked: &Linked,
    n: &DlNumbers,
) -> Result<Vec<Instr>, Memory>
    requires first { n.now.first_function < 2 ^ 31 }
    requires promoted { n.now.promoted < 2 ^ 31 }
    ensures { IfOk result (λ x. x.items ≡ promoted_code linked.now (starts_in n.now) (finders_in n.now)) }
{
    let count = linked.member_count();
    let mut code = vec![in alloc; number(u32::MAX), Instr::Index(opcodes::LOCAL_SET, 5)]?;
    put_prefers(&mut code, alloc, n, linked.startup(), count)?;
    let mut preferred = preferred_code(alloc, n)?;
    code.append(&mut preferred)?;
    Ok(code)
}
