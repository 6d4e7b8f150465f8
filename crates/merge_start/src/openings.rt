// The functions that open members: the entry function opens main.
ghost use Rattle.std.specs.Prelude.{◌≡◌, ◌<◌, ◌^◌, length, IfOk};
ghost use Rattle.spec_loading.specs.Members.{from_members};
ghost use Rattle.merge_match.specs.Renumbering.{Numbers};
ghost use Rattle.merge_start.specs.Words.{Starts, entry_code, open_code};
ghost use Rattle.merge_start.specs.Listed.{AreListed, nullary_part, handle_part, open_parts};

use crate::numbers::StartNumbers;
use crate::part::{handle_part, nullary_part};
use dyl_link::Linked;
use merge_pieces::{number, opcodes, opening_code};
use std::alloc::Global;
use wasm_form::{Instr, List, Memory, Part};

/// The function that a merged program begins with: it opens the members that start with the main module, and then calls the entry. `Memory`
/// where no memory could be had.
pub fn entry_function(alloc: Global, linked: &Linked, n: &StartNumbers) -> Result<Part, Memory>
    requires first { n.now.first_function < 2 ^ 31 }
    ensures { IfOk result (λ part. (N : Numbers) (x : Starts) → AreListed linked.now n.now N x → part ≡ nullary_part (entry_code linked.now N x)) }
{
    linked.links();
    let startup = linked.startup();
    let entry = Instr::Index(opcodes::CALL, n.entry);
    let code = opening_code(
        alloc,
        n.first_function,
        startup,
        linked.construct_order(0),
        entry,
    )?;
    Ok(nullary_part(alloc, code))
}

// The function that opens member m, and gives its handle.
fn open_function(alloc: Global, linked: &Linked, n: &StartNumbers, m: u32) -> Result<Part, Memory>
    requires member { m < length linked.now.set.members }
    requires first { n.now.first_function < 2 ^ 31 }
    ensures { IfOk result (λ part. (N : Numbers) (x : Starts) → AreListed linked.now n.now N x → part ≡ handle_part (open_code linked.now N x m)) }
{
    linked.links();
    let closure = linked.closure(m);
    let handle = number(m + 1);
    let code = opening_code(
        alloc,
        n.first_function,
        closure,
        linked.construct_order(m),
        handle,
    )?;
    let part = handle_part(alloc, code)?;
    Ok(part)
}

/// The functions that open the members of a linked set while its program runs, one for each member. `Memory` where no memory could be had.
pub fn open_functions(
    alloc: Global,
    linked: &Linked,
    n: &StartNumbers,
) -> Result<List<Part>, Memory>
    requires first { n.now.first_function < 2 ^ 31 }
    ensures { IfOk result (λ parts. (N : Numbers) (x : Starts) → AreListed linked.now n.now N x → parts ≡ from_members (open_parts linked.now N x) 0 linked.now.set.members) }
{
    let mut parts = Vec::new(alloc);
    for m in 0..linked.member_count() {
        let part = open_function(alloc, linked, n, m)?;
        parts.push(part)?;
    }
    Ok(List::of(parts))
}
