// `dlopen`.
ghost use Rattle.std.specs.Prelude.{◌≡◌, ◌<◌, ◌^◌, ◌∷◌, ◌++◌, length, IfOk};
ghost use Rattle.std.specs.List.{All};
ghost use Rattle.wasm_form.specs.declared.instr.Instr.{Index};
ghost use Rattle.wasm_form.specs.declared.runtime.LoaderCall.TheVariants.{Dlopen};
ghost use Rattle.merge_pieces.specs.Opcodes as op;
ghost use Rattle.merge_start.specs.Words.{Starts, promote_code};
ghost use Rattle.merge_find.specs.Decisions.{strings};
ghost use Rattle.merge_find.specs.Building.{names_of, HasText};
ghost use Rattle.merge_dl.specs.Words.{Finders, return_code, opens_code, named_members, members_code, open_call_code};
ghost use Rattle.merge_dl.specs.Listed.{AreDlNumbers, starts_in, finders_in, open_begin, call_part};

use crate::numbers::{DlNumbers, opening};
use crate::parts::{binary_type, one_local, part};
use crate::promoted::promote_code;
use crate::words::{fault, give, number, when};
use dyl_link::Linked;
use merge_find::{Missed, Named, Search, put_named, search_code};
use merge_pieces::opcodes;
use std::alloc::Global;
use wasm_form::{Instr, Memory, Part, ValType};

// The function that opens member m is called, its closure is promoted, and what the function gives is returned.
fn open_and_promote(
    alloc: Global,
    linked: &Linked,
    n: &DlNumbers,
    m: u32,
) -> Result<Vec<Instr>, Memory>
    requires member { m < length linked.now.set.members }
    requires promoted { n.now.promoted < 2 ^ 31 }
    ensures { IfOk result (λ x. x.items ≡ Index op.call ((starts_in n.now).opening m) ∷ (promote_code linked.now (starts_in n.now) m ++ return_code)) }
{
    let mut promotes = promote_code(alloc, linked, n, m)?;
    let mut code = vec![in alloc; Instr::Index(opcodes::CALL, opening(n, m))]?;
    code.append(&mut promotes)?;
    code.push(Instr::Plain(opcodes::RETURN))?;
    Ok(code)
}

// The function that opens member m is called, and what it gives is returned; where the flag is set, once the closure is promoted.
fn opens_code(alloc: Global, linked: &Linked, n: &DlNumbers, m: u32) -> Result<Vec<Instr>, Memory>
    requires member { m < length linked.now.set.members }
    requires promoted { n.now.promoted < 2 ^ 31 }
    ensures { IfOk result (λ x. x.items ≡ opens_code linked.now (starts_in n.now) m) }
{
    let promotes = open_and_promote(alloc, linked, n, m)?;
    Ok(vec![in alloc;
        Instr::Index(opcodes::LOCAL_GET, 1),
        number(256),
        Instr::Plain(opcodes::I32_AND),
        when(promotes),
        Instr::Index(opcodes::CALL, opening(n, m)),
        Instr::Plain(opcodes::RETURN),
    ]?)
}

// The names of members, with what opens them.
fn named_members(alloc: Global, linked: &Linked, n: &DlNumbers) -> Result<Vec<Named>, Memory>
    requires promoted { n.now.promoted < 2 ^ 31 }
    ensures names { IfOk result (λ x. names_of x.items ≡ strings (named_members linked.now (starts_in n.now) 0 linked.now.set.members)) }
    ensures texts { IfOk result (λ x. All HasText x.items) }
{
    let mut names = Vec::new(alloc);
    for m in 0..linked.member_count() {
        let member = linked.member(m);
        let code = opens_code(alloc, linked, n, m)?;
        put_named(&mut names, alloc, member.name.as_str().as_bytes(), code)?;
    }
    Ok(names)
}

// A member of the name is opened, or an error is kept.
fn members_code(alloc: Global, linked: &Linked, n: &DlNumbers) -> Result<Vec<Instr>, Memory>
    requires promoted { n.now.promoted < 2 ^ 31 }
    ensures { IfOk result (λ x. x.items ≡ members_code linked.now (starts_in n.now) (finders_in n.now)) }
{
    let names = named_members(alloc, linked, n)?;
    let search = Search {
        len: 2,
        missed: Missed::Fault {
            error: 2,
            global: n.error,
        },
    };
    search_code(alloc, &search, names)
}

// No name is the program itself; the length of the name is in local 2; the flags are tested.
fn open_begin(alloc: Global, n: &DlNumbers) -> Result<Vec<Instr>, Memory>
    ensures { IfOk result (λ x. x.items ≡ open_begin (finders_in n.now)) }
{
    let itself = give(alloc, 1)?;
    let refused = fault(alloc, n, 1, 0)?;
    Ok(vec![in alloc;
        Instr::Index(opcodes::LOCAL_GET, 0),
        Instr::Plain(opcodes::I32_EQZ),
        when(itself),
        Instr::Index(opcodes::LOCAL_GET, 0),
        Instr::Index(opcodes::CALL, n.first_function),
        Instr::Index(opcodes::LOCAL_SET, 2),
        Instr::Index(opcodes::LOCAL_GET, 1),
        number(4_294_962_940),
        Instr::Plain(opcodes::I32_AND),
        when(refused),
    ]?)
}

#[tactic(auto, unfolding(crate::specs::Words::open_call_code))]
fn open_call_code(alloc: Global, linked: &Linked, n: &DlNumbers) -> Result<Vec<Instr>, Memory>
    requires promoted { n.now.promoted < 2 ^ 31 }
    ensures { IfOk result (λ x. x.items ≡ open_call_code linked.now (starts_in n.now) (finders_in n.now)) }
{
    let mut code = open_begin(alloc, n)?;
    let mut search = members_code(alloc, linked, n)?;
    code.append(&mut search)?;
    Ok(code)
}

pub(crate) fn open_function(alloc: Global, linked: &Linked, n: &DlNumbers) -> Result<Part, Memory>
    requires promoted { n.now.promoted < 2 ^ 31 }
    ensures { IfOk result (λ p. (x : Starts) (d : Finders) → AreDlNumbers linked.now n.now x d → p ≡ call_part linked.now x d Dlopen) }
{
    let ty = binary_type(alloc)?;
    let locals = one_local(alloc, ValType::I32)?;
    let code = open_call_code(alloc, linked, n)?;
    Ok(part(ty, locals, code))
}
