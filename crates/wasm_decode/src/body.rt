// Bodies, with their limits (WebAssembly Core 2.0, section 5.5.13, and appendix A.2).
ghost use Rattle.std.specs.Prelude.{◌≡◌, ℕ, ◌≤◌, ◌<◌, [], length, IfOk};
ghost use Rattle.spec_reading.specs.Steps.{whole};
ghost use Rattle.spec_reading.specs.Bodies.{usual_room, groups_at, locals_at, func_at, code_at, bodies_at};
ghost use Rattle.spec_reading.specs.Sections.{codes_at};
ghost use Rattle.wasm_read.specs.Given.{Gives};
ghost use Rattle.wasm_decode.specs.Given.{Tells};

use crate::fault::{fault_in_body, fault_in_section};
use spec_reading::spec_binary::DecodeFault;
use std::alloc::Global;
use wasm_form::{Code, Group, List};
use wasm_read::{Break, contents_of, expr_of, u32_of, val_type_of};

// How many locals a body may declare.
const MOST_LOCALS: u32 = 50_000;

// How many blocks may be nested in a body.
const MOST_NESTED: u32 = 1_000;

// So many groups of locals. The limit is passed where the number of a group brings the sum above it.
fn groups_of(alloc: Global, count: u32, bytes: &[u8]) -> Result<(Vec<Group>, &[u8]), Break>
    ensures { Gives (λ x. (x.0.items, x.1.now)) result (groups_at 50000 count 0 bytes.now) }
{
    let mut groups = Vec::new(alloc);
    let mut rest = bytes;
    let mut so_far = 0u32;
    for _ in 0..count {
        let (locals, after) = u32_of(rest)?;
        if locals > MOST_LOCALS - so_far {
            return Err(Break::TooManyLocals);
        }
        so_far += locals;
        let (ty, next) = val_type_of(after)?;
        groups.push(Group { count: locals, ty })?;
        rest = next;
    }
    Ok((groups, rest))
}

// The number of groups of locals, and the groups.
#[tactic(auto, unfolding(spec_reading::specs::Bodies::locals_at))]
fn locals_of(alloc: Global, bytes: &[u8]) -> Result<(List<Group>, &[u8]), Break>
    ensures { Gives (λ x. (x.0, x.1.now)) result (locals_at 50000 bytes.now) }
{
    let (count, rest) = u32_of(bytes)?;
    let (groups, rest) = groups_of(alloc, count, rest)?;
    Ok((List::of(groups), rest))
}

// The locals and the body of a function, which take all of the bytes.
#[tactic(auto, unfolding(spec_reading::specs::Bodies::func_at))]
fn func_of(alloc: Global, bytes: &[u8]) -> Result<Code, Break>
    ensures { Gives (λ x. x) result (whole (func_at usual_room bytes.now)) }
{
    let (locals, rest) = locals_of(alloc, bytes)?;
    let (body, rest) = expr_of(alloc, rest, MOST_NESTED)?;
    if rest.is_empty() {
        Ok(Code { locals, body })
    } else {
        drop(body);
        Err(Break::Broken)
    }
}

// The size of a function, and the function.
#[tactic(auto, unfolding(spec_reading::specs::Bodies::code_at))]
fn code_of(alloc: Global, bytes: &[u8]) -> Result<(Code, &[u8]), Break>
    ensures { Gives (λ x. (x.0, x.1.now)) result (code_at usual_room bytes.now) }
{
    let (contents, rest) = contents_of(bytes)?;
    Ok((func_of(alloc, contents)?, rest))
}

// So many bodies, numbered from 0, where none was read before. It gives the bytes that follow.
fn read_bodies<'a>(
    codes: &mut Vec<Code>,
    alloc: Global,
    count: u32,
    bytes: &'a [u8],
    section: u32,
) -> Result<&'a [u8], DecodeFault>
    requires { codes.old.items ≡ [] }
    ensures { Tells (λ rest. (codes.new.items, rest.now)) result (bodies_at usual_room section count 0 bytes.now) }
{
    let mut rest = bytes;
    for function in 0..count {
        let (code, after) = match code_of(alloc, rest) {
            Ok(read) => read,
            Err(why) => return Err(fault_in_body(why, section, function)),
        };
        codes.push(code)?;
        rest = after;
    }
    Ok(rest)
}

// So many bodies, numbered from 0.
fn bodies_of(
    alloc: Global,
    count: u32,
    bytes: &[u8],
    section: u32,
) -> Result<(Vec<Code>, &[u8]), DecodeFault>
    ensures { Tells (λ x. (x.0.items, x.1.now)) result (bodies_at usual_room section count 0 bytes.now) }
{
    let mut codes = Vec::new(alloc);
    match read_bodies(&mut codes, alloc, count, bytes, section) {
        Ok(rest) => Ok((codes, rest)),
        Err(fault) => {
            drop(codes);
            Err(fault)
        }
    }
}

// The number of bodies, and the bodies, which take all of the bytes.
#[tactic(auto, unfolding(spec_reading::specs::Sections::codes_at))]
pub(crate) fn codes_of(alloc: Global, bytes: &[u8], section: u32) -> Result<List<Code>, DecodeFault>
    ensures { Tells (λ x. x) result (codes_at usual_room section bytes.now) }
{
    let (count, rest) = match u32_of(bytes) {
        Ok(read) => read,
        Err(why) => return Err(fault_in_section(why, section)),
    };
    let (codes, rest) = bodies_of(alloc, count, rest, section)?;
    if rest.is_empty() {
        Ok(List::of(codes))
    } else {
        drop(codes);
        Err(DecodeFault::Malformed { section })
    }
}
